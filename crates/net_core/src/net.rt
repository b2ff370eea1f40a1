// A network of sites on one thread.
ghost use Rattle.std.specs.Prelude.{◌≡◌, ◌↔◌, ◌<◌, false, length, IfOk, IfNone, IfSome, IsTrue};
ghost use Rattle.env_store.specs.CodeFacts.{IsCode};
ghost use Rattle.net_core.specs.declared.choice.Choice.{Choice};
ghost use Rattle.net_core.specs.Asking.{asks};
ghost use Rattle.net_core.specs.Choosing.{Allows, IsNext, NoneMeetsAny};
ghost use Rattle.net_core.specs.Resting.{IsNoneWhereQuiet};
ghost use Rattle.net_core.specs.Scheduling.{ReadyOpensNone};
ghost use Rattle.net_core.specs.Whole.{RunsSome};
ghost use Rattle.net_core.specs.Working.{IsOpeningAt};

use crate::asking::{all_asks, asked_by};
use crate::choice::{Choice, Choices};
use crate::idle::is_idle_at;
use crate::parts::Parts;
use crate::searching::{first_request, is_enabled, next_choice, opening_of};
use crate::senders::Run;
use crate::tracing::copy_all;
use chem_model::{Memory, Outs};
use env_store::Code;
use std::alloc::Global;
use std::collections::VecDeque;
use std::marker::Model;
use std::mem;

/// A network of sites that run the code of a program: what contracts see of it is the code, the
/// network, with the version of the program and with the packets under way as the messages that
/// they spell, which site emitted or forwarded each of these, and the number of events so far.
///
/// Each network keeps the facts of `IsWhole`: its code is a program's, and it stands for some
/// sound numbered solution; each site meets what its calls need; no site has made more than
/// 1,048,576 numbers for each event and one time more; and each packet under way, of which there
/// are fewer than 2^32, is the spelling of a message on a channel, to one of the sites, and has a
/// site that emitted or forwarded it.
#[derive(Drop)]
pub struct Net {
    pub(crate) code: Code,
    pub(crate) parts: Parts,
    pub(crate) senders: VecDeque<Run>,
    pub(crate) events: u32,
    // how many requests each site had when it was seen that none may be met; nothing where that
    // isn't known
    pub(crate) asked: Vec<u32>,
    // whether a choice was made since it was looked whether one may be
    pub(crate) acted: bool,
    // at which sites no reaction is ready; where it is too short, that isn't known
    pub(crate) idle: Vec<bool>,
}

impl Model for Net {
    ghost use Rattle.net_core.specs.Whole.{NetParts};
    ghost use Rattle.net_core.specs.Parts.{net_of};
    ghost use Rattle.net_core.specs.inside.Rests.{IsKept};
    ghost use Rattle.net_core.specs.inside.Runs.{spread};

    ghost Value = { NetParts };

    ghost view = { λ n. record {
      code = n.code;
      net = net_of n.code.seen n.parts;
      froms = spread n.senders.items;
      events = n.events;
    } };

    ghost invariant = { λ n.
        IsKept n.code n.parts n.senders.items n.events n.asked.items n.idle.items };
}

impl Net {
    /// How many packets are under way.
    pub fn flights(&self) -> u32
        ensures { result ≡ length self.now.net.packets }
    {
        self.parts.under_way
    }

    /// How many sites there are.
    pub fn sites(&self) -> u32
        ensures { result ≡ length self.now.net.sites }
    {
        self.parts.sites.len() as u32
    }

    /// How many events there were so far.
    pub fn events(&self) -> u32
        ensures { result ≡ self.now.events }
    {
        self.events
    }

    /// A copy of the observables so far.
    pub fn trace(&self, alloc: Global) -> Result<Outs, Memory>
        ensures { IfOk result (λ trace. trace ≡ self.now.net.trace) }
    {
        copy_all(alloc, self.parts.trace.as_slice())
    }

    /// The facts of its code hold. It does nothing.
    pub fn code_is_kept(&self)
        ensures { IsCode self.now.code }
    {
        let _events = self.events;
    }

    /// The network runs the code of a program and stands for some sound numbered solution, and for
    /// each packet under way there is a site that sent it. It does nothing.
    pub fn stands_for_some(&self)
        ensures runs { RunsSome self.now.code self.now.net }
        ensures sent { length self.now.froms ≡ length self.now.net.packets }
    {
        let _events = self.events;
    }

    /// Whether the choice is enabled: a guard of a live location is covered, a packet is under way
    /// at this place, or the rule of this request allows it. It takes no memory.
    pub fn enabled(&self, choice: &Choice) -> bool
        ensures { IsTrue result ↔ Allows self.now.code self.now.net choice.now }
    {
        is_enabled(
            self.parts.sites.as_slice(),
            &self.parts.tree,
            self.parts.version,
            &self.code,
            self.parts.under_way,
            choice,
        )
    }

    /// The choice that comes next: the first packet under way; where there is none, the reaction
    /// of the least site that is ready; and where none is, the enabled request with the least id.
    /// None comes exactly where no choice is enabled: where nothing is under way and the machine is
    /// quiet in each solution for which the network stands. It takes no memory.
    pub fn next(&self) -> Option<Choice>
        ensures none { IfNone result ((x : Choice) → Allows self.now.code self.now.net x → ⊥) }
        ensures some { IfSome result (IsNext self.now.code self.now.net) }
        ensures quiet { IsNoneWhereQuiet self.now.code self.now.net result }
    {
        next_choice(
            self.parts.sites.as_slice(),
            &self.parts.tree,
            self.parts.version,
            &self.code,
            self.parts.under_way,
        )
    }

    /// The reaction that is ready at this site, where it opens locations. None comes exactly where
    /// none is ready there, or the one that is opens none. It takes no memory.
    pub fn opening_at(&self, site: u32) -> Option<Choice>
        requires { site < length self.now.net.sites }
        ensures none { IfNone result (ReadyOpensNone self.now.code self.now.net site) }
        ensures some { IfSome result (IsOpeningAt self.now.code self.now.net site) }
    {
        if is_idle_at(self.idle.as_slice(), site as usize) {
            return None;
        }
        opening_of(
            self.parts.sites.as_slice(),
            &self.parts.tree,
            &self.code,
            site,
        )
    }

    // Whether a search finds that a request may be met.
    fn may_meet(&self) -> bool
        ensures { result ≡ false → NoneMeetsAny self.now.code self.now.net }
    {
        let sites = self.parts.sites.as_slice();
        first_request(sites, &self.parts.tree, self.parts.version).is_some()
    }

    /// Whether it is known that no request may be met; false says nothing. It is looked for where
    /// no choice was made since it was asked last, and is known from then on while no request comes
    /// and the sites only react in rounds. Where there is no memory, it is looked for again.
    pub fn rests(&mut self, alloc: Global) -> bool
        ensures none { IsTrue result → NoneMeetsAny self.old.code self.old.net }
        ensures same { self.new ≡ self.old }
    {
        if !self.asked.is_empty() {
            return true;
        }
        if mem::replace(&mut self.acted, false) || self.may_meet() {
            return false;
        }
        if let Ok(asked) = asked_by(alloc, self.parts.sites.as_slice()) {
            self.asked = asked;
        }
        true
    }

    /// One choice for each request, in the order of their ids: a move for one to go, a halt for
    /// one to halt, and a detection for one to detect a failure.
    pub fn asks(&self, alloc: Global) -> Result<Choices, Memory>
        ensures { IfOk result (λ xs. xs ≡ asks self.now.net) }
    {
        all_asks(alloc, self.parts.sites.as_slice())
    }
}
