// What a guard counts: the locations that its body opens, and the messages that it pours.
ghost use Rattle.std.specs.Prelude.{◌≡◌};
ghost use Rattle.reducer.specs.Picks.{Picked, Picks, IsPick};
ghost use Rattle.reducer.specs.Sending.{SendsAtMost};

use crate::parts::guard_at;
use crate::pick::Pick;
use env_store::Code;
use site_solution::Site;

/// How many locations the reaction of a pick opens.
pub fn births(code: &Code, site: &Site, pick: &Pick) -> u32
    requires { IsPick code.now site.now pick.now }
    ensures { (x : Picked) → Picks code.now site.now pick.now x → result ≡ x.guard.births }
{
    let _ = site;
    guard_at(code, pick.guard).births
}

/// How many messages the reaction of a pick pours, which is at least the number of those that it
/// sends away.
pub fn sends(code: &Code, site: &Site, pick: &Pick) -> u32
    requires { IsPick code.now site.now pick.now }
    ensures counted { (x : Picked) → Picks code.now site.now pick.now x → result ≡ x.guard.sends }
    ensures bound { (x : Picked) → Picks code.now site.now pick.now x
        → SendsAtMost code.now x result }
{
    let _ = site;
    guard_at(code, pick.guard).sends
}
