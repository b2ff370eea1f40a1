// A site that hosts its root alone, beside another site that hosts a location. The expected values
// were worked out by hand.

use crate::expected::run_by_hand;
use chem_model::{AtomId, Items, Loc, Memory, Name};
use router::Delivery;
use std::alloc::Global;
use std::test::Fail;
use wire_packet::Msg;
use worked_sites::{Fact, Look, Pair, Place, Step};

const ROOT: Pair = (0, 0);

const BORN: Pair = (0, 1);

const ID: Pair = (7, 7);

fn two_sites() -> &'static [u8] {
    b"site s [ none : 0 ] site t [ none : 0 ]"
}

// A message on the second name of the first site, as a channel whose home is elsewhere, goes on,
// and the one whose home is here stays.
const DELIVERS: &[Step] = &[
    Step::Tree(Place::Born(BORN, 1)),
    Step::Tree(Place::Addressed(BORN, 1)),
    Step::See(0, Look::Takes(Name::Place(Loc { site: 0, k: 0 }), false)),
    Step::Mail(ID, ((0, 2), BORN), None),
    Step::GoesOn(0, 1),
    Step::Has(0, Fact::Holds(ID, false)),
    Step::Mail(ID, ((0, 2), ROOT), None),
    Step::Arrives(0),
    Step::Has(0, Fact::Holds(ID, true)),
];

fn delivers() -> &'static [Step] {
    DELIVERS
}

#[test]
fn a_message_goes_where_its_home_is(rt: HostRuntime) -> Result<(), Fail> {
    run_by_hand(&rt, rt.alloc(), two_sites(), delivers())
}

// Where a copy of a delivery goes, and with which message.
fn goes_to(alloc: Global, delivery: &Delivery) -> Result<Option<(u32, AtomId)>, Memory> {
    match delivery.copy(alloc)? {
        Delivery::Delivered => Ok(None),
        Delivery::Forward(target, msg) => Ok(Some((target, msg.id))),
    }
}

// The message goes on to the site 3.
fn goes_on(alloc: Global, id: AtomId) -> Result<Option<(u32, AtomId)>, Memory> {
    let msg = Msg {
        id,
        on: Name::Seen(0),
        args: Items::new(alloc),
    };
    goes_to(alloc, &Delivery::Forward(3, msg))
}

#[test]
fn a_delivery_and_its_copy(rt: HostRuntime) {
    let id = AtomId { site: 7, k: 7 };
    assert_eq!(rt; goes_to(rt.alloc(), &Delivery::Delivered), Ok(None));
    assert_eq!(rt; goes_on(rt.alloc(), id), Ok(Some((3, id))));
}
