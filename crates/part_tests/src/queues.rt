// Queues of numbers. The expected values were worked out by hand.
use chem_model::Memory;
use queue_cells::{Groups, Idle, Selects};
use std::alloc::Global;
use std::process::Abort;

type Numbers = Groups<u32, u64>;

// What is done to groups of queues, or what they are to be. A group goes by its index, a queue by
// its group and its number there.
#[derive(Drop)]
enum Step {
    // Another group: what is told of it, and how many queues it has.
    Add(u32, u32),
    // The same, in room that was made before.
    AddReserved(u32, u32),
    // Room for so many messages.
    Reserve(usize),
    // That there are so many groups.
    Count(usize),
    // That this is told of a group, and how many queues it has.
    Told(usize, u32, u32),
    Remove(usize),
    // The groups of which an odd number is told go.
    RemoveOdd,
    // Another message in a queue.
    Put(usize, u32, u64),
    // That this message is taken from a queue.
    Take(usize, u32, u64),
    // That a queue holds these messages, the oldest first.
    Holds(usize, u32, &'static [u64]),
    Clear(usize, u32),
    // Whether each queue of a group that the mask names holds a message.
    Covers(usize, &'static [u64], bool),
}

// Adds a group in room that is made first.
fn add_reserved(
    alloc: Global,
    groups: &mut Numbers,
    told: u32,
    width: u32,
) -> Result<bool, Memory> {
    groups.reserve_groups(1)?;
    groups.add_reserved(Idle::new(alloc, told, width)?);
    Ok(true)
}

// Whether this is told of a group, and it has so many queues.
fn tells(groups: &Numbers, group: usize, told: u32, width: u32) -> bool {
    group < groups.len() && *groups.told(group) == told && groups.width(group) == width
}

// Removes a group, where it is there.
fn remove(groups: &mut Numbers, group: usize) -> bool {
    let is_there = group < groups.len();
    if is_there {
        groups.remove(group);
    }
    is_there
}

// Selects the groups of which an odd number is told.
struct Odd;

impl Selects<u32> for Odd {
    ghost use Rattle.std.specs.Prelude.{◌%◌, ◌==◌};

    ghost is_selected = { λ _ told. told % 2 == 1 };

    fn selects(&self, told: &u32) -> bool {
        *told % 2 == 1
    }
}

// Drops the groups of which an odd number is told.
fn remove_odd(groups: &mut Numbers) -> bool {
    groups.remove_where(&Odd);
    true
}

// Puts a message into a queue, where it is there.
fn put(groups: &mut Numbers, group: usize, chan: u32, message: u64) -> Result<bool, Memory> {
    groups.reserve(1)?;
    let is_there = group < groups.len() && chan < groups.width(group);
    if is_there {
        groups.push_reserved(group, chan, message);
    }
    Ok(is_there)
}

// Whether this is the message that is taken from a queue.
fn takes(groups: &mut Numbers, group: usize, chan: u32, want: u64) -> bool {
    group < groups.len()
        && chan < groups.width(group)
        && groups.front(group, chan).is_some()
        && groups.take_front(group, chan) == want
}

// Whether a queue holds these messages, the oldest first.
fn holds(groups: &Numbers, group: usize, chan: u32, want: &[u64]) -> bool {
    group < groups.len()
        && chan < groups.width(group)
        && groups.front(group, chan) == want.first()
        && groups.queue(group, chan).eq(want)
}

// Clears a queue, where it is there.
fn clear(groups: &mut Numbers, group: usize, chan: u32) -> bool {
    let is_there = group < groups.len() && chan < groups.width(group);
    if is_there {
        groups.clear(group, chan);
    }
    is_there
}

// Whether each queue that the mask names holds a message, or not, as it is wanted.
fn covers(groups: &Numbers, group: usize, mask: &[u64], want: bool) -> bool {
    group < groups.len()
        && mask.len() == (groups.width(group) as usize).div_ceil(64)
        && groups.covers(group, mask) == want
}

// Takes a step. Whether all is as the step says.
fn is_taken(alloc: Global, groups: &mut Numbers, step: &Step) -> Result<bool, Memory> {
    match step {
        Step::Add(told, width) => groups.add(alloc, *told, *width).map(|()| true),
        Step::AddReserved(told, width) => add_reserved(alloc, groups, *told, *width),
        Step::Reserve(more) => groups.reserve(*more).map(|()| true),
        Step::Count(want) => Ok(groups.len() == *want),
        Step::Told(group, told, width) => Ok(tells(groups, *group, *told, *width)),
        Step::Remove(group) => Ok(remove(groups, *group)),
        Step::RemoveOdd => Ok(remove_odd(groups)),
        Step::Put(group, chan, message) => put(groups, *group, *chan, *message),
        Step::Take(group, chan, want) => Ok(takes(groups, *group, *chan, *want)),
        Step::Holds(group, chan, want) => Ok(holds(groups, *group, *chan, *want)),
        Step::Clear(group, chan) => Ok(clear(groups, *group, *chan)),
        Step::Covers(group, mask, want) => Ok(covers(groups, *group, *mask, *want)),
    }
}

// That all is as each of these steps says, from no group on.
fn expect_steps(rt: &impl Abort, alloc: Global, steps: &[Step]) {
    let mut groups = Groups::new(alloc);
    for (index, step) in steps.iter().enumerate() {
        let taken = is_taken(alloc, &mut groups, step);
        assert!(rt; taken == Ok(true), "step {index}");
    }
}

// A group of two queues, and one of 65, with three messages in each of three queues.
const TWO_GROUPS: &[Step] = &[
    Step::Add(7, 2),
    Step::AddReserved(8, 65),
    Step::Reserve(6),
    Step::Put(0, 0, 0),
    Step::Put(1, 64, 10),
    Step::Put(0, 1, 20),
    Step::Put(0, 0, 1),
    Step::Put(1, 64, 11),
    Step::Put(0, 1, 21),
    Step::Put(0, 0, 2),
    Step::Put(1, 64, 12),
    Step::Put(0, 1, 22),
    Step::Told(1, 8, 65),
    Step::Holds(0, 0, &[0, 1, 2]),
    Step::Holds(0, 1, &[20, 21, 22]),
    Step::Holds(1, 63, &[]),
    Step::Covers(0, &[3], true),
    Step::Covers(1, &[0, 1], true),
    Step::Covers(1, &[1, 1], false),
    Step::Take(0, 0, 0),
    Step::Take(1, 64, 10),
    Step::Put(1, 0, 30),
    Step::Covers(1, &[1, 1], true),
    Step::Take(1, 64, 11),
    Step::Take(1, 64, 12),
    Step::Covers(1, &[1, 1], false),
    Step::Holds(0, 0, &[1, 2]),
    Step::Clear(0, 0),
    Step::Holds(0, 0, &[]),
    Step::Covers(0, &[3], false),
    Step::Holds(0, 1, &[20, 21, 22]),
];

#[test]
fn messages_are_taken_in_order(rt: HostRuntime) {
    expect_steps(&rt, rt.alloc(), TWO_GROUPS);
}

// Three groups of two queues, with a message in each.
const THREE_GROUPS: &[Step] = &[
    Step::Add(0, 2),
    Step::Add(1, 2),
    Step::Add(2, 2),
    Step::Put(0, 0, 0),
    Step::Put(0, 1, 10),
    Step::Put(1, 0, 1),
    Step::Put(1, 1, 10),
    Step::Put(2, 0, 2),
    Step::Put(2, 1, 10),
    Step::Remove(1),
    Step::Count(2),
    Step::Told(1, 2, 2),
    Step::Put(0, 0, 20),
    Step::Put(1, 0, 21),
    Step::Put(0, 0, 22),
    Step::Holds(0, 0, &[0, 20, 22]),
    Step::Holds(0, 1, &[10]),
    Step::Holds(1, 0, &[2, 21]),
    Step::Holds(1, 1, &[10]),
];

#[test]
fn a_group_in_the_middle_is_removed(rt: HostRuntime) {
    expect_steps(&rt, rt.alloc(), THREE_GROUPS);
}

// Five groups of one queue, with two messages in each.
const FIVE_GROUPS: &[Step] = &[
    Step::Add(0, 1),
    Step::Put(0, 0, 10),
    Step::Put(0, 0, 20),
    Step::Add(1, 1),
    Step::Put(1, 0, 10),
    Step::Put(1, 0, 21),
    Step::Add(2, 1),
    Step::Put(2, 0, 10),
    Step::Put(2, 0, 22),
    Step::Add(3, 1),
    Step::Put(3, 0, 10),
    Step::Put(3, 0, 23),
    Step::Add(4, 1),
    Step::Put(4, 0, 10),
    Step::Put(4, 0, 24),
    Step::RemoveOdd,
    Step::Count(3),
    Step::Holds(1, 0, &[10, 22]),
    Step::Holds(2, 0, &[10, 24]),
    Step::Put(1, 0, 30),
    Step::Holds(0, 0, &[10, 20]),
    Step::Holds(1, 0, &[10, 22, 30]),
];

#[test]
fn selected_groups_go(rt: HostRuntime) {
    expect_steps(&rt, rt.alloc(), FIVE_GROUPS);
}
