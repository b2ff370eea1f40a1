// The passes of the workers, each with its part of one ledger.
ghost use Rattle.std.specs.Prelude.{◌≡◌, ◌<◌, length, map};
ghost use Rattle.std.specs.Borrow.{sem};
ghost use Rattle.shared_net.specs.Passes.{Rise, new_pass};
ghost use Rattle.shared_net.specs.Turns.{noted};
ghost use Rattle.shared_net.specs.Agrees.{row_of, all_receipts};

use crate::receipt::Receipts;
use crate::run::Run;
use chem_model::Items;
use site_turn::Turn;
use std::alloc::Global;
use std::marker::Model;
use std::sync::ledger::Share;

/// What one worker carries through a run: its number, from 1, the budget of events, and a receipt
/// for each event that it made. Its part of the ledger holds as much as it has receipts.
///
/// Its number of turns, from 0, stays at the last number of 64 bits once it is there, and `idle` at
/// the last one of 32 bits.
#[derive(Drop)]
pub struct Pass<L: Run> {
    pub(crate) number: u32,
    pub(crate) budget: u32,
    pub(crate) receipts: Receipts,
    pub(crate) next: u64,
    pub(crate) turns: u64,
    pub(crate) idle: u32,
    pub(crate) full: bool,
    pub(crate) share: Share<L>,
}

impl<L: Run> Model for Pass<L> {
    ghost use Rattle.std.specs.Prelude.{◌≡◌, length};
    ghost use Rattle.shared_net.specs.Passes.{PassKept, pass_code, Rise, next_place};

    ghost Value = { PassKept };

    ghost coded = { pass_code };

    ghost view = { λ p. record {
      number = p.number;
      budget = p.budget;
      receipts = p.receipts;
      idle = p.idle;
      full = p.full;
    } };

    ghost invariant = { λ p.
        Rise 0 p.budget p.receipts × (p.next ≡ next_place 0 p.receipts)
        × (p.share.parts ≡ 1) × (p.share.amount ≡ length p.receipts) };
}

impl<L: Run> Pass<L> {
    // A pass with which no turn was made.
    pub(crate) fn new(alloc: Global, number: u32, budget: u32, share: Share<L>) -> Pass<L>
        requires part { share.parts ≡ 1 }
        requires nothing { share.amount ≡ 0 }
        ensures { result ≡ new_pass budget number }
    {
        Pass {
            number,
            budget,
            receipts: Items::new(alloc),
            next: 0,
            turns: 0,
            idle: 0,
            full: false,
            share,
        }
    }

    /// Which worker's pass it is, from 1.
    pub fn number(&self) -> u32
        ensures { result ≡ self.now.number }
    {
        self.number
    }

    /// What the worker made, in order.
    pub fn receipts(&self) -> &Receipts
        ensures receipts { result.now ≡ self.now.receipts }
        ensures rise { Rise 0 self.now.budget result.now }
    {
        &self.receipts
    }

    /// How many of its last turns in sequence found nothing to do.
    pub fn idle(&self) -> u32
        ensures { result ≡ self.now.idle }
    {
        self.idle
    }

    /// Whether a turn found as many events as the budget.
    pub fn full(&self) -> bool
        ensures { result ≡ self.now.full }
    {
        self.full
    }

    // The number of the turn that begins, from 0.
    pub(crate) fn begin(&mut self) -> u64
        ensures { self.new ≡ self.old }
    {
        let turn = self.turns;
        self.turns = turn.saturating_add(1);
        turn
    }

    // Notes what a turn came to. Its receipt was written where it was made.
    pub(crate) fn note(&mut self, turn: Turn)
        ensures { self.new ≡ noted turn self.old }
    {
        match turn {
            Turn::Did(_) | Turn::Passed | Turn::NotEnabled => self.idle = 0,
            Turn::Nothing => self.idle = self.idle.saturating_add(1),
            Turn::Full => self.full = true,
        }
    }

    // Its part of the ledger.
    fn into_share(self) -> Share<L>
        ensures part { result.parts ≡ 1 }
        ensures amount { result.amount ≡ length self.receipts }
    {
        let Pass {
            number: _,
            budget: _,
            receipts: _,
            next: _,
            turns: _,
            idle: _,
            full: _,
            share,
        } = self;
        share
    }
}

/// The passes of all workers, seen as their list.
#[derive(Drop)]
pub struct Passes<L: Run> {
    list: Vec<Pass<L>>,
}

impl<L: Run> Model for Passes<L> {
    ghost use Rattle.std.specs.Prelude.{List};
    ghost use Rattle.std.specs.Coded.{coded_list};
    ghost use Rattle.shared_net.specs.Passes.{PassKept, pass_code};

    ghost Value = { List PassKept };

    ghost coded = { coded_list pass_code };

    ghost view = { λ p. p.list.items };
}

impl<L: Run> Passes<L> {
    ghost use Rattle.shared_net.specs.PassLends.{LendsPasses};

    pub(crate) fn from_vec(list: Vec<Pass<L>>) -> Passes<L>
        ensures { result ≡ list.items }
    {
        Passes { list }
    }

    pub fn as_slice(&self) -> &[Pass<L>]
        ensures { result.now ≡ self.now }
    {
        self.list.as_slice()
    }

    /// Lends the passes, as one to each worker.
    pub fn as_mut_slice(&mut self) -> &mut [Pass<L>]
        ensures* lends { sem 𝓛 (LendsPasses L.row (record { program = L.program })
            (record { name = L.name; parts = L.parts }) self.entry result) }
        ensures passes { result.now ≡ self.old }
    {
        self.list.as_mut_slice()
    }

    // The parts of the ledger of all passes in one.
    pub(crate) fn into_share(self) -> Share<L>
        requires { 0 < length self }
        ensures parts { result.parts ≡ length self }
        ensures amount { result.amount ≡ length (all_receipts (map row_of self)) }
    {
        let Passes { list } = self;
        let mut left = list;
        let Some(last) = left.pop() else {
            unreachable!()
        };
        let mut all = last.into_share();
        while let Some(pass) = left.pop() {
            all.merge(pass.into_share());
        }
        all
    }
}
