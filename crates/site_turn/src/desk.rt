// What a turn at a site needs of the run around it.
ghost use Rattle.std.specs.Prelude.{◌≡◌, ℕ, Bool, IfOk, OnErr, IsTrue};
ghost use Rattle.chem_model.specs.Each.{Each};
ghost use Rattle.chem_model.specs.declared.event.Event.{Event as event_term};
ghost use Rattle.site_turn.specs.declared.turn.Turn.{Turn as turn_term};
ghost use Rattle.site_turn.specs.declared.turn.Turn.TheVariants as turns;
ghost use Rattle.site_turn.specs.Mail.{IsMessageFlight};

use crate::turn::Turn;
use chem_model::{Event, Memory, Program};
use env_store::Code;
use std::alloc::Global;
use wire_packet::Flights;

/// Where events are proposed: the book of a run, with whatever stands before it. A `P` is what a
/// worker carries through the run, into which its events are written.
pub trait Desk<P> {
    /// What may be answered to an event that can be made or not, and what becomes of the desk and
    /// of what the worker carries.
    ghost decides: { Self → P → event_term → Bool → turn_term → Self → P → Type 0 };

    /// The desk is as it was.
    ghost keeps: { Self → Self → Type 0 };

    /// Proposes an event that a site has ready, and that can be made exactly where it fits.
    fn propose(
        &mut self,
        alloc: Global,
        carried: &mut P,
        event: &Event,
        fits: bool,
    ) -> Result<Turn, Memory>
        ensures decides { IfOk result (λ turn.
            decides self.old carried.old event.now fits turn self.new carried.new) }
        ensures fits { IfOk result (λ turn. (place : ℕ) → turn ≡ turns.Did place → IsTrue fits) }
        ensures err { OnErr result (keeps self.old self.new) }
        ensures err_carried { OnErr result (carried.new ≡ carried.old) };

    ghost stays: { (desk : Self) → keeps desk desk };
}

/// Where flights are posted: the mailboxes of the sites.
pub trait Post {
    /// Puts each flight into the mailbox of its target, and drops those whose target is no site.
    /// Whether one went into a mailbox.
    fn post(&self, flights: Flights) -> Result<bool, Memory>
        requires { Each IsMessageFlight flights };
}

/// What a turn is made with, whatever the site: room, the program of the run with its code, and
/// where flights are posted.
#[derive(Drop)]
pub struct Tools<'a, M> {
    pub alloc: Global,
    pub program: &'a Program,
    pub code: &'a Code,
    pub post: &'a M,
}
