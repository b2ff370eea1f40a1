// The cause of what is left, by what was found out of it.
ghost use Rattle.std.specs.Prelude.{◌≡◌};
ghost use Rattle.chem_causes.specs.Decided.{cause_by_channel, cause_by_go, cause_by_fail};
ghost use Rattle.chem_causes.specs.Decided.{cause_by_term, cause_by};

use crate::cause::Cause;
use chem_model::{Loc, Name, Proc, ProcNode, Ref};

// The cause of a message that no event takes, by whether a rule waits for its like.
fn cause_by_channel(waited: bool, on: Ref) -> Cause
    ensures { result ≡ cause_by_channel waited on }
{
    match on {
        Ref::Known(Name::Place(_)) => Cause::Place,
        Ref::Known(Name::Chan { .. }) => { if waited { Cause::Partner } else { Cause::Count } }
        Ref::Known(Name::Num(_)) => Cause::Number,
        Ref::Known(Name::Op(_)) => Cause::Operation,
        _ => Cause::Count,
    }
}

// The cause of a request to go that can't be met.
fn cause_by_go(at: Loc, target: Ref) -> Cause
    ensures { result ≡ cause_by_go at target }
{
    match target {
        Ref::Known(Name::Place(to)) => {
            if at.k == 0 {
                Cause::Root
            } else if to.k == 0 {
                Cause::Gone
            } else {
                Cause::NoSite
            }
        }
        _ => Cause::Target,
    }
}

// The cause of a request that waits for a failure, where that can't be detected.
fn cause_by_fail(target: Ref) -> Cause
    ensures { result ≡ cause_by_fail target }
{
    match target {
        Ref::Known(Name::Place(_)) => Cause::Alive,
        _ => Cause::Target,
    }
}

// The cause of an atom at a live location of which no event takes care.
fn cause_by_term(waited: bool, at: Loc, term: &Proc) -> Cause
    ensures { result ≡ cause_by_term waited at term.now }
{
    match term.node() {
        ProcNode::Msg { on, .. } => cause_by_channel(waited, *on),
        ProcNode::Go { target, .. } => cause_by_go(at, *target),
        ProcNode::Fail { target, .. } => cause_by_fail(*target),
        ProcNode::Par(_) => Cause::Count,
        ProcNode::Def { .. } => Cause::Count,
        ProcNode::Halt => Cause::Dead,
    }
}

/// The cause of an atom, by whether its location is live, whether an event is possible that takes
/// it, and whether a rule waits for messages on its channel with its count.
pub fn cause_by(live: bool, ready: bool, waited: bool, at: Loc, term: &Proc) -> Cause
    ensures { result ≡ cause_by live ready waited at term.now }
{
    if !live {
        Cause::Dead
    } else if ready {
        Cause::Ready
    } else {
        cause_by_term(waited, at, term)
    }
}
