// A site with one group of one channel, which takes one argument. The expected values were worked
// out by hand.

use crate::expected::run_by_hand;
use std::test::Fail;
use wire_packet::Ask;
use worked_sites::{Change, Fact, Pair, Step};

const ROOT: Pair = (0, 0);

// Its one level has a guard of one channel with one argument.
fn text() -> &'static [u8] {
    b"site s [ x(u) => 0 : 0 ]"
}

// Two messages come before the group.
const TAKES_WHAT_WAITED: &[Step] = &[
    Step::Change(0, Change::Puts((0, 3), Some(ROOT))),
    Step::Change(0, Change::Puts((0, 4), Some(ROOT))),
    Step::Change(0, Change::Lays),
    Step::Has(0, Fact::Front(Some(3))),
    Step::Change(0, Change::Takes),
    Step::Has(0, Fact::Front(Some(4))),
];

fn takes_what_waited() -> &'static [Step] {
    TAKES_WHAT_WAITED
}

#[test]
fn a_message_waits_for_its_group(rt: HostRuntime) -> Result<(), Fail> {
    run_by_hand(&rt, rt.alloc(), text(), takes_what_waited())
}

// The group comes before a message of another count and one of its count.
const TAKES_ITS_COUNT: &[Step] = &[
    Step::Change(0, Change::Lays),
    Step::Change(0, Change::Puts((0, 3), None)),
    Step::Has(0, Fact::Front(None)),
    Step::Has(0, Fact::Covered(false)),
    Step::Has(0, Fact::Holds((0, 3), true)),
    Step::Change(0, Change::Puts((0, 4), Some(ROOT))),
    Step::Has(0, Fact::Front(Some(4))),
    Step::Has(0, Fact::Covered(true)),
];

fn takes_its_count() -> &'static [Step] {
    TAKES_ITS_COUNT
}

#[test]
fn a_wrong_count_stays_beside_the_queues(rt: HostRuntime) -> Result<(), Fail> {
    run_by_hand(&rt, rt.alloc(), text(), takes_its_count())
}

// The site is asked twice to halt.
const FINDS_REQUESTS: &[Step] = &[
    Step::Change(0, Change::Asks((0, 5), ROOT, Ask::Halt)),
    Step::Change(0, Change::Asks((0, 3), ROOT, Ask::Halt)),
    Step::Has(0, Fact::Requests((0, 5), true)),
    Step::Has(0, Fact::Requests((0, 4), false)),
    Step::Has(0, Fact::RequestAt(0, Some(3))),
    Step::Has(0, Fact::RequestAt(1, Some(5))),
    Step::Has(0, Fact::RequestAt(2, None)),
    Step::Change(0, Change::Drops((0, 3))),
    Step::Has(0, Fact::RequestAt(0, Some(5))),
];

fn finds_requests() -> &'static [Step] {
    FINDS_REQUESTS
}

#[test]
fn requests_are_found(rt: HostRuntime) -> Result<(), Fail> {
    run_by_hand(&rt, rt.alloc(), text(), finds_requests())
}

const HOSTS_AND_DRAWS: &[Step] = &[
    Step::Change(0, Change::Hosts((0, 1))),
    Step::Has(0, Fact::Hosts((0, 1), true)),
    Step::Has(0, Fact::Hosts(ROOT, true)),
    Step::Change(0, Change::Draws(3, 1)),
    Step::Change(0, Change::Draws(1, 4)),
];

fn hosts_and_draws() -> &'static [Step] {
    HOSTS_AND_DRAWS
}

#[test]
fn a_location_is_hosted_and_numbers_are_drawn(rt: HostRuntime) -> Result<(), Fail> {
    run_by_hand(&rt, rt.alloc(), text(), hosts_and_draws())
}
