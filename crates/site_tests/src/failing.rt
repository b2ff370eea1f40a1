// A site that asks to halt, and to detect that it has halted. The expected values were worked out
// by hand.

use crate::expected::run_by_hand;
use chem_model::{Loc, Name};
use std::test::Fail;
use wire_packet::Ask;
use worked_sites::{Change, Look, Pair, Place, Step};

const ROOT: Pair = (0, 0);

const BORN: Pair = (0, 1);

fn one_site() -> &'static [u8] {
    b"site s [ none : 0 ]"
}

const DETECTS: Ask = Ask::Fail {
    target: Name::Place(Loc { site: 0, k: 1 }),
    cont: Name::Place(Loc { site: 0, k: 0 }),
};

// It hosts a location, and asks at the location to halt by 0.2, and at the root to detect by 0.3
// that the location has halted.
const HALTS: &[Step] = &[
    Step::Change(0, Change::Hosts(BORN)),
    Step::Change(0, Change::Asks((0, 2), BORN, Ask::Halt)),
    Step::Change(0, Change::Asks((0, 3), ROOT, DETECTS)),
    Step::Tree(Place::Born(BORN, 0)),
    Step::See(0, Look::MayHalt((0, 2), true)),
    Step::See(0, Look::MayHalt((0, 3), false)),
    Step::See(0, Look::FindsDead((0, 3), false)),
    Step::Change(0, Change::Halts((0, 2))),
    Step::See(0, Look::MayHalt((0, 2), false)),
    Step::See(0, Look::FindsDead((0, 3), true)),
    Step::See(0, Look::FindsDead((0, 2), false)),
];

fn halts() -> &'static [Step] {
    HALTS
}

#[test]
fn a_location_halts_and_this_is_detected(rt: HostRuntime) -> Result<(), Fail> {
    run_by_hand(&rt, rt.alloc(), one_site(), halts())
}
