// Faults of scope and arity, and the sooner of two.
ghost use Rattle.std.specs.Prelude.{◌≡◌};
ghost use Rattle.scope_check.specs.Order.{rank as rank_of};
ghost use Rattle.scope_check.specs.inside.Order.{sooner};

use join_base::Kind;

/// A fault: its kind, and its place as a byte offset from 0.
#[derive(Clone, Copy, PartialEq, Eq, Debug)]
pub struct Fault {
    pub kind: Kind,
    pub place: u32,
}

// Where the kind stands among all kinds.
fn rank(kind: Kind) -> u8
    ensures { result ≡ rank_of kind }
{
    kind as u8
}

// Keeps the sooner of two faults.
pub fn note(least: &mut Option<Fault>, fault: Fault)
    ensures { least.new ≡ sooner least.old fault }
{
    match *least {
        None => *least = Some(fault),
        Some(kept) => {
            if fault.place < kept.place
                || (fault.place == kept.place && rank(fault.kind) < rank(kept.kind))
            {
                *least = Some(fault);
            }
        }
    }
}
