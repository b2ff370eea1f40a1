// Openings, reactions and single calls. The expected values were worked out by hand from the
// numbering.

use crate::expected::{run, run_by_hand};
use chem_model::Name;
use std::alloc::{AllocError, Global};
use std::test::Fail;
use wire_packet::Ask;
use worked_sites::{Change, Deed, Fact, Leaves, Look, Pair, Step};

const ROOT: Pair = (0, 0);

// The channel is 0.1, its rule 0.2, and the message of the opening 0.3.
fn first() -> &'static [u8] {
    b"observe out/1; site s [ x(u) => out(u) : x(s) ]"
}

const REACTS_ONCE: &[Step] = &[
    Step::Has(0, Fact::Made(4)),
    Step::React(0, (0, 2), &[(0, 3)], Leaves::Observed(ROOT)),
    Step::See(0, Look::Quiet),
];

fn reacts_once() -> &'static [Step] {
    REACTS_ONCE
}

#[test]
fn the_first_example(rt: HostRuntime) -> Result<(), Fail> {
    run(&rt, rt.alloc(), first(), reacts_once())
}

// A message that is observed, the body of the rule at the root, under the root's own name, and a
// message that is delivered.
const CALLS: &[Step] = &[
    Step::Make(
        0,
        Deed::Pours(Name::Seen(0), Some(ROOT)),
        Leaves::Observed(ROOT),
    ),
    Step::Make(0, Deed::PoursBody(ROOT, 0), Leaves::Observed(ROOT)),
    Step::Has(0, Fact::Made(4)),
    Step::Mail((7, 7), ((0, 1), ROOT), Some(ROOT)),
    Step::Arrives(0),
    Step::See(0, Look::Waits((0, 2), &[(0, 3)])),
];

fn calls() -> &'static [Step] {
    CALLS
}

#[test]
fn calls_of_an_opened_site(rt: HostRuntime) -> Result<(), Fail> {
    run(&rt, rt.alloc(), first(), calls())
}

// A group and a message of its count come, and then a message of another count, a request and a
// location.
const COMES_TO_HAVE_ALL: &[Step] = &[
    Step::Change(0, Change::Lays),
    Step::Change(0, Change::Puts((0, 3), Some(ROOT))),
    Step::See(0, Look::Waits((0, 2), &[(0, 3)])),
    Step::Change(0, Change::Puts((0, 4), None)),
    Step::See(0, Look::Waits((0, 2), &[(0, 3)])),
    Step::Change(0, Change::Asks((0, 5), ROOT, Ask::Halt)),
    Step::Has(0, Fact::AsksToHalt((0, 5), ROOT)),
    Step::Has(0, Fact::RequestAt(1, None)),
    Step::See(0, Look::Has(ROOT, 1, &[(0, 3), (0, 4), (0, 5)])),
    Step::Change(0, Change::Hosts((0, 1))),
    Step::Has(0, Fact::Hosts((0, 1), true)),
];

fn comes_to_have_all() -> &'static [Step] {
    COMES_TO_HAVE_ALL
}

// A site to which all this comes one by one.
#[test]
fn a_site_by_hand(rt: HostRuntime) -> Result<(), Fail> {
    run_by_hand(&rt, rt.alloc(), first(), comes_to_have_all())
}

// `c00() | c01() ..`, so many of them.
fn push_calls(text: &mut Vec<u8>, many: u32) -> Result<(), AllocError> {
    for number in 0..many {
        if number > 0 {
            text.extend_from_slice(b" | ")?;
        }
        text.push(b'c')?;
        text.push(b'0' + (number / 10 % 10) as u8)?;
        text.push(b'0' + (number % 10) as u8)?;
        text.extend_from_slice(b"()")?;
    }
    Ok(())
}

// One rule of 65 channels, and so many messages on the first ones.
fn wide(alloc: Global, messages: u32) -> Result<Vec<u8>, AllocError> {
    let mut text = Vec::new(alloc);
    text.extend_from_slice(b"observe out/0; site s [ ")?;
    push_calls(&mut text, 65)?;
    text.extend_from_slice(b" => out() : ")?;
    push_calls(&mut text, messages)?;
    text.extend_from_slice(b" ]")?;
    Ok(text)
}

// The channels are 0.1 to 0.65, the rule 0.66, and the messages 0.67 to 0.131.
const MESSAGES: &[Pair] = &[
    (0, 67),
    (0, 68),
    (0, 69),
    (0, 70),
    (0, 71),
    (0, 72),
    (0, 73),
    (0, 74),
    (0, 75),
    (0, 76),
    (0, 77),
    (0, 78),
    (0, 79),
    (0, 80),
    (0, 81),
    (0, 82),
    (0, 83),
    (0, 84),
    (0, 85),
    (0, 86),
    (0, 87),
    (0, 88),
    (0, 89),
    (0, 90),
    (0, 91),
    (0, 92),
    (0, 93),
    (0, 94),
    (0, 95),
    (0, 96),
    (0, 97),
    (0, 98),
    (0, 99),
    (0, 100),
    (0, 101),
    (0, 102),
    (0, 103),
    (0, 104),
    (0, 105),
    (0, 106),
    (0, 107),
    (0, 108),
    (0, 109),
    (0, 110),
    (0, 111),
    (0, 112),
    (0, 113),
    (0, 114),
    (0, 115),
    (0, 116),
    (0, 117),
    (0, 118),
    (0, 119),
    (0, 120),
    (0, 121),
    (0, 122),
    (0, 123),
    (0, 124),
    (0, 125),
    (0, 126),
    (0, 127),
    (0, 128),
    (0, 129),
    (0, 130),
    (0, 131),
];

// The reaction that takes all 65 messages is made.
const TAKES_ALL: &[Step] = &[
    Step::React(0, (0, 66), MESSAGES, Leaves::Sizes([0, 1, 0])),
    Step::See(0, Look::Quiet),
];

fn takes_all() -> &'static [Step] {
    TAKES_ALL
}

#[test]
fn a_pattern_of_65_channels(rt: HostRuntime) -> Result<(), Fail> {
    let text = wide(rt.alloc(), 65)?;
    run(&rt, rt.alloc(), &text, takes_all())
}

const IS_STILL: &[Step] = &[Step::See(0, Look::Quiet)];

fn is_still() -> &'static [Step] {
    IS_STILL
}

#[test]
fn a_pattern_whose_last_channel_is_empty(rt: HostRuntime) -> Result<(), Fail> {
    let text = wide(rt.alloc(), 64)?;
    run(&rt, rt.alloc(), &text, is_still())
}

fn twice() -> &'static [u8] {
    b"observe out/1; site s [ a(u) => def b() => out(u) in b() : a(s) | a(t) ] site t [ none : 0 ]"
}

// The rule is 0.2, and its messages 0.3 and 0.4. The first reaction makes the channel 0.5 with its
// rule 0.6 and the message 0.7, the second one 0.8, 0.9 and 0.10.
const MAKES_TWO_GROUPS: &[Step] = &[
    Step::React(0, (0, 2), &[(0, 3)], Leaves::Sizes([0, 0, 0])),
    Step::React(0, (0, 2), &[(0, 4)], Leaves::Sizes([0, 0, 0])),
    Step::See(0, Look::Has(ROOT, 3, &[(0, 7), (0, 10)])),
    Step::React(0, (0, 6), &[(0, 7)], Leaves::Observed(ROOT)),
    Step::React(0, (0, 9), &[(0, 10)], Leaves::Observed((1, 0))),
    Step::See(0, Look::Quiet),
];

fn makes_two_groups() -> &'static [Step] {
    MAKES_TWO_GROUPS
}

#[test]
fn two_groups_of_one_level(rt: HostRuntime) -> Result<(), Fail> {
    run(&rt, rt.alloc(), twice(), makes_two_groups())
}

fn nested() -> &'static [u8] {
    b"observe out/1; site s [ a(u) => def m[ k() => out(m) : k() ] and c() => x(u) in c() : a(s) ] \
      site t [ x(v) => out(v) : 0 ]"
}

// The channels of the sites are 0.1 and 1.1, their rules 0.2 and 1.2, and the message 0.3. The
// body names the channel 0.4, the location 0.5 and its channel 0.6, lays the rules 0.7 and 0.8,
// and pours 0.9 in the location and 0.10 beside it. That one's body sends 0.11 to the other site.
const MAKES_A_PLACE: &[Step] = &[
    Step::React(0, (0, 2), &[(0, 3)], Leaves::Sizes([0, 0, 1])),
    Step::See(0, Look::Has((0, 5), 1, &[(0, 9)])),
    Step::See(0, Look::Knows),
    Step::React(0, (0, 7), &[(0, 10)], Leaves::Sent(1)),
    Step::See(0, Look::Knows),
    Step::Arrives(1),
    Step::Has(0, Fact::Made(12)),
    Step::React(0, (0, 8), &[(0, 9)], Leaves::Observed((0, 5))),
    Step::React(1, (1, 2), &[(0, 11)], Leaves::Observed(ROOT)),
];

fn makes_a_place() -> &'static [Step] {
    MAKES_A_PLACE
}

#[test]
fn a_body_with_a_place_and_a_message_that_leaves(rt: HostRuntime) -> Result<(), Fail> {
    run(&rt, rt.alloc(), nested(), makes_a_place())
}

fn three() -> &'static [u8] {
    b"observe out/0; site s [ a() => out() and b() => out() and c() => out() : c() | b() | a() ]"
}

// The channels are 0.1 to 0.3, the rules 0.4 to 0.6, and the messages 0.7 on the last channel, 0.8
// and 0.9. The least rule goes first, whichever message came first.
const LEAST_FIRST: &[Step] = &[
    Step::See(0, Look::Knows),
    Step::React(0, (0, 4), &[(0, 9)], Leaves::Sizes([0, 1, 0])),
    Step::See(0, Look::Knows),
    Step::React(0, (0, 5), &[(0, 8)], Leaves::Sizes([0, 1, 0])),
    Step::See(0, Look::Knows),
    Step::React(0, (0, 6), &[(0, 7)], Leaves::Sizes([0, 1, 0])),
    Step::See(0, Look::Knows),
    Step::See(0, Look::Quiet),
];

fn least_first() -> &'static [Step] {
    LEAST_FIRST
}

#[test]
fn the_least_of_three_rules(rt: HostRuntime) -> Result<(), Fail> {
    run(&rt, rt.alloc(), three(), least_first())
}

fn pattern() -> &'static [u8] {
    b"observe out/0; site s [ a() | b() => out() : a() | a() | b() ]"
}

// The channels are 0.1 and 0.2, the rule 0.3, and the messages 0.4 and 0.5 on the first channel
// and 0.6 on the second. Another one comes to the second when there is none.
const READY_TWICE: &[Step] = &[
    Step::React(0, (0, 3), &[(0, 4), (0, 6)], Leaves::Sizes([0, 1, 0])),
    Step::See(0, Look::Quiet),
    Step::Mail((7, 7), ((0, 2), ROOT), None),
    Step::Arrives(0),
    Step::See(0, Look::Knows),
    Step::See(0, Look::Waits((0, 3), &[(0, 5), (7, 7)])),
];

fn ready_twice() -> &'static [Step] {
    READY_TWICE
}

#[test]
fn a_rule_of_two_channels_is_ready_twice(rt: HostRuntime) -> Result<(), Fail> {
    run(&rt, rt.alloc(), pattern(), ready_twice())
}

fn to_and_fro() -> &'static [u8] {
    b"site s [ a() => b() and b() => a() and a() | b() => 0 : a() ]"
}

// Of the three guards one is covered at each moment, by turns the first and the second.
const A_THOUSAND: &[Step] = &[
    Step::ReactOften(0, 1000, 1),
    Step::See(0, Look::Knows),
    Step::Has(0, Fact::Upkeep(1)),
];

fn a_thousand() -> &'static [Step] {
    A_THOUSAND
}

#[test]
fn what_a_site_notes_is_kept_over_a_thousand_reactions(rt: HostRuntime) -> Result<(), Fail> {
    run(&rt, rt.alloc(), to_and_fro(), a_thousand())
}

fn servers() -> &'static [u8] {
    b"site s [ a(n) => def x() | y() => 0 in a(x) | x() : a(a) ]"
}

// Each reaction lays a group of one guard, which waits for a second message.
const MANY_GROUPS: &[Step] = &[
    Step::ReactOften(0, 200, 1),
    Step::See(0, Look::Knows),
    Step::Has(0, Fact::Upkeep(1)),
];

fn many_groups() -> &'static [Step] {
    MANY_GROUPS
}

#[test]
fn groups_that_wait_are_not_noted_as_covered(rt: HostRuntime) -> Result<(), Fail> {
    run(&rt, rt.alloc(), servers(), many_groups())
}
