// Where a message goes that comes to a site: into it, or on to another one.
ghost use Rattle.std.specs.Prelude.{◌≡◌, List, true, IfOk, IfErr, OnErr, IsSome};
ghost use Rattle.chem_model.specs.declared.name.Loc.{Loc};
ghost use Rattle.chem_model.specs.declared.numbered.NumberedRule.{NumberedRule};
ghost use Rattle.wire_packet.specs.GroupFacts.{GroupParts};
ghost use Rattle.env_store.specs.CodeParts.{CodeParts};
ghost use Rattle.loc_tree.specs.Tree.{spot};
ghost use Rattle.net_laws.specs.Net.{home_or, address};
ghost use Rattle.site_solution.specs.Staying.{StillFits};
ghost use Rattle.router.specs.Delivering.{is_channel, can_deliver, IsDelivery, IsNoEvent};

use chem_model::{Loc, Memory, Name};
use loc_tree::LocTree;
use site_solution::{Site, message_is_there, site_is_kept};
use std::alloc::Global;
use wire_packet::Msg;

/// What became of a message that came to a site.
#[derive(Debug, Drop)]
pub enum Delivery {
    /// It is there.
    Delivered,
    /// It goes on to the site with this number.
    Forward(u32, Msg),
}

impl Delivery {
    /// A value that is equal to this one.
    pub fn copy(&self, alloc: Global) -> Result<Delivery, Memory>
        ensures { IfOk result (λ copy. copy ≡ self.now) }
    {
        match self {
            Delivery::Delivered => Ok(Delivery::Delivered),
            Delivery::Forward(site, msg) => Ok(Delivery::Forward(*site, msg.copy(alloc)?)),
        }
    }
}

/// The number of the site that hosts the home of a channel.
pub fn address(tree: &LocTree, home: &Loc) -> u32
    requires { IsSome (spot tree.now home.now) }
    ensures { result ≡ address tree.now home.now }
{
    tree.root(home)
}

fn is_channel(on: Name) -> bool
    ensures { result ≡ is_channel on }
{
    matches!(on, Name::Chan { .. })
}

// The home of a channel.
fn home_of(on: Name) -> Loc
    requires { is_channel on ≡ true }
    ensures { (l : Loc) → home_or l on ≡ result }
{
    match on {
        Name::Chan {
            site: _,
            k: _,
            home,
        } => home,
        Name::Seen(_) | Name::Place(_) | Name::Num(_) | Name::Op(_) => unreachable!(),
    }
}

/// Whether a message may be delivered to a site: it is on a channel, each location and each home of
/// a channel that it names is in the tree, its id is new here, and where this site made it, it has
/// a number below the site's count.
pub fn can_deliver(site: &Site, tree: &LocTree, msg: &Msg) -> bool
    ensures { result ≡ can_deliver tree.now site.now msg.now }
{
    is_channel(msg.on)
        && message_is_there(tree, msg)
        && !site.has_atom(&msg.id)
        && (msg.id.site != site.number() || msg.id.k < site.made())
}

/// Puts a message at its home, where that is hosted here. Else the site stays, and the message goes
/// on to the site that hosts its home. Where there is no memory the message comes back.
///
/// It is no event: site and message stand for the same before and after, beside any others.
pub fn deliver(site: &mut Site, tree: &LocTree, msg: Msg) -> Result<Delivery, (Msg, Memory)>
    requires { can_deliver tree.now site.old msg ≡ true }
    ensures ok { IfOk result (λ delivery. IsDelivery tree.now site.old msg delivery site.new) }
    ensures no_event { IfOk result (λ delivery. (rules_of : GroupParts → List NumberedRule)
        → IsNoEvent rules_of tree.now site.old msg delivery site.new) }
    ensures fits { (code : CodeParts) → StillFits code tree.now site.old tree.now site.new }
    ensures err { OnErr result (site.new ≡ site.old) }
    ensures back { IfErr result (λ back. back.0 ≡ msg) }
{
    site_is_kept(site);
    let home = home_of(msg.on);
    if !site.has(&home) {
        return Ok(Delivery::Forward(address(tree, &home), msg));
    }
    match site.put(&home, msg) {
        Ok(()) => Ok(Delivery::Delivered),
        Err(back) => Err(back),
    }
}
