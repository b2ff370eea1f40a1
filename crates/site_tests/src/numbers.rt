// Operations at sites: what a sum becomes, and one that stays. The expected values were worked out
// by hand from the numbering.

use crate::expected::run;
use std::test::Fail;
use worked_sites::{Leaves, Look, Pair, Step};

// The channels are 0.1 and 1.1, the rules 0.2 and 1.2, and the message of the opening 0.3.
fn sum_for_another_site() -> &'static [u8] {
    b"version 2; observe out/1; site s [ x() => add(2, 3, k) : x() ] \
        site t [ k(u) => out(u) : 0 ]"
}

// The sum is the message 0.4, which goes to the other site.
const GOES_TO_ANOTHER_SITE: &[Step] = &[
    Step::React(0, (0, 2), &[(0, 3)], Leaves::Sent(1)),
    Step::Arrives(1),
    Step::React(1, (1, 2), &[(0, 4)], Leaves::Counted(5)),
];

fn goes_to_another_site() -> &'static [Step] {
    GOES_TO_ANOTHER_SITE
}

#[test]
fn a_sum_for_another_site(rt: HostRuntime) -> Result<(), Fail> {
    run(
        &rt,
        rt.alloc(),
        sum_for_another_site(),
        goes_to_another_site(),
    )
}

// The channel is 0.1, its rule 0.2, and the message of the opening 0.3.
fn sums_beside_a_location() -> &'static [u8] {
    b"version 2; observe out/1; site s [ x(u) => \
        def m[ k(v) => out(v) : add(u, 1, k) ] in add(u, 2, out) : x(3) ]"
}

// The location is 0.4, its channel 0.5 and its rule 0.6. There stands the one sum as 0.7; the
// other is observed, and takes no number.
const SUMS_WITHIN_A_BODY: &[Step] = &[
    Step::React(0, (0, 2), &[(0, 3)], Leaves::Sizes([0, 1, 1])),
    Step::See(0, Look::Has((0, 4), 1, &[(0, 7)])),
    Step::React(0, (0, 6), &[(0, 7)], Leaves::Counted(4)),
];

fn sums_within_a_body() -> &'static [Step] {
    SUMS_WITHIN_A_BODY
}

#[test]
fn a_sum_within_a_body_that_opens_a_location(rt: HostRuntime) -> Result<(), Fail> {
    run(
        &rt,
        rt.alloc(),
        sums_beside_a_location(),
        sums_within_a_body(),
    )
}

// The location that moves.
const M: Pair = (0, 1);

// The location is 0.1, its channel 0.2 with the rule 0.3, the operation 0.4, and the request 0.5.
fn operation_that_stays() -> &'static [u8] {
    b"version 2; observe out/1; \
        site a [ m[ k() => out(a) : add(a, 1, out) | go(b, k) ] : 0 ] site b [ none : 0 ]"
}

// The continuation is 1.1.
const MOVES_ALONG: &[Step] = &[
    Step::See(0, Look::Has(M, 1, &[(0, 4), (0, 5)])),
    Step::Across(0, (0, 5)),
    Step::See(1, Look::Has(M, 1, &[(1, 1), (0, 4)])),
    Step::React(1, (0, 3), &[(1, 1)], Leaves::Observed((0, 0))),
    Step::See(1, Look::Has(M, 1, &[(0, 4)])),
];

fn moves_along() -> &'static [Step] {
    MOVES_ALONG
}

#[test]
fn an_operation_that_stays_and_moves_along(rt: HostRuntime) -> Result<(), Fail> {
    run(&rt, rt.alloc(), operation_that_stays(), moves_along())
}
