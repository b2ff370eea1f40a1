// Which site sent each packet under way, as runs of packets of one site.
ghost use Rattle.std.specs.Prelude.{◌≡◌, ◌+◌, ◌-◌, ◌<◌, ◌≤◌, ◌++◌, ℕ, replicate, length, OnOk};
ghost use Rattle.std.specs.VecDeque.{deque_len, deque_capacity};
ghost use Rattle.net_core.specs.declared.choice.Choice.TheVariants as choices;
ghost use Rattle.net_core.specs.Parts.{without};
ghost use Rattle.net_core.specs.Senders.{kept};
ghost use Rattle.net_core.specs.inside.Pieces.{IsPlace};
ghost use Rattle.net_core.specs.inside.Runs.{in_runs, spread};

use crate::choice::Choice;
use chem_model::Memory;
use std::collections::VecDeque;

// So many packets, one after another, that one site sent.
#[derive(Clone, Copy)]
pub(crate) struct Run {
    pub(crate) from: u32,
    pub(crate) count: u32,
}

// Packets of a site go behind all others. It takes no memory.
pub(crate) fn add_run(runs: &mut VecDeque<Run>, from: u32, count: u32)
    requires { deque_len runs.old < deque_capacity runs.old }
    ensures { spread runs.new.items ≡ spread runs.old.items ++ replicate count from }
{
    if count > 0 {
        runs.push_back_reserved(Run { from, count });
    }
}

// Packets of a site go behind all others.
pub(crate) fn push_run(runs: &mut VecDeque<Run>, from: u32, count: u32) -> Result<(), Memory>
    ensures { OnOk result (spread runs.new.items ≡ spread runs.old.items ++ replicate count from) }
{
    runs.reserve(1)?;
    add_run(runs, from, count);
    Ok(())
}

// Which run the packet at this place is of, and its place there.
fn run_of(runs: &VecDeque<Run>, place: usize) -> (usize, usize)
    requires { place < length (spread runs.now.items) }
    ensures { IsPlace (in_runs runs.now.items) place result.0 result.1 }
{
    let mut rest = place;
    for index in 0..runs.len() {
        let count = runs[index].count as usize;
        if rest < count {
            return (index, rest);
        }
        rest -= count;
    }
    unreachable!()
}

// A run has one packet less; it goes where it has none. It takes no memory.
fn lower(runs: &mut VecDeque<Run>, index: usize)
    requires { (place : ℕ) × (rest : ℕ) × IsPlace (in_runs runs.old.items) place index rest }
    ensures out { (place rest : ℕ) → IsPlace (in_runs runs.old.items) place index rest
        → spread runs.new.items ≡ without place (spread runs.old.items) }
    ensures few { deque_len runs.new ≤ deque_len runs.old }
    ensures room { deque_capacity runs.new ≡ deque_capacity runs.old }
{
    if runs[index].count == 1 {
        let _gone = runs.remove(index);
    } else {
        runs[index].count -= 1;
    }
}

// The packet at this place is no longer under way. It takes no memory.
fn take_sender(runs: &mut VecDeque<Run>, place: usize)
    requires { place < length (spread runs.old.items) }
    ensures out { spread runs.new.items ≡ without place (spread runs.old.items) }
    ensures few { deque_len runs.new ≤ deque_len runs.old }
    ensures room { deque_capacity runs.new ≡ deque_capacity runs.old }
{
    let (index, _rest) = run_of(&*runs, place);
    lower(runs, index);
}

// The packet that the choice delivers, if it delivers one, is no longer under way. The answer is
// how many that are. It takes no memory.
fn take_delivered(runs: &mut VecDeque<Run>, choice: &Choice) -> u32
    requires { (f : ℕ) → choice.now ≡ choices.Deliver f → f < length (spread runs.old.items) }
    ensures out { spread runs.new.items ≡ kept choice.now (spread runs.old.items) }
    ensures count { length (spread runs.new.items) + result ≡ length (spread runs.old.items) }
    ensures few { deque_len runs.new ≤ deque_len runs.old }
    ensures room { deque_capacity runs.new ≡ deque_capacity runs.old }
{
    match choice {
        Choice::Deliver { flight } => {
            take_sender(runs, *flight as usize);
            1
        }
        _ => 0,
    }
}

// What is under way after a choice, where `before` packets were: what it delivers isn't, and what
// this site sends is behind all others, so that there are `now`. It takes no memory.
pub(crate) fn note(runs: &mut VecDeque<Run>, choice: &Choice, sender: u32, before: u32, now: u32)
    requires room { deque_len runs.old < deque_capacity runs.old }
    requires before { length (spread runs.old.items) ≡ before }
    requires there { (f : ℕ) → choice.now ≡ choices.Deliver f → f < before }
    requires more { length (kept choice.now (spread runs.old.items)) ≤ now }
    ensures { let left = kept choice.now (spread runs.old.items) in
        spread runs.new.items ≡ left ++ replicate (now - length left) sender }
{
    let taken = take_delivered(runs, choice);
    add_run(runs, sender, now - (before - taken));
}
