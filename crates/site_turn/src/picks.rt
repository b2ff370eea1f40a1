// Reactions: the event of a pick, what the site does once it is known whether it was made, and
// births into the tree.
ghost use Rattle.std.specs.Prelude.{◌≡◌, ◌↔◌, ◌<◌, ◌≤◌, [], ◌∷◌, length};
ghost use Rattle.std.specs.Prelude.{IfOk, OnOk, OnErr, IsTrue};
ghost use Rattle.chem_model.specs.Each.{Each};
ghost use Rattle.net_laws.specs.Net.{with_births};
ghost use Rattle.net_laws.specs.Opened.{AreNew};
ghost use Rattle.site_solution.specs.Held.{queues_of, taken_at};
ghost use Rattle.site_solution.specs.Staying.{CanAct};
ghost use Rattle.reducer.specs.Picks.{Picked, Picks, MayFire, IsPick};
ghost use Rattle.reducer.specs.Reacting.{ran_by};
ghost use Rattle.site_turn.specs.declared.next.Chosen.TheVariants as choice;
ghost use Rattle.site_turn.specs.declared.turn.Turn.TheVariants as turns;
ghost use Rattle.site_turn.specs.Mail.{IsMessageFlight};
ghost use Rattle.site_turn.specs.Reacting.{ReactsBy};
ghost use Rattle.site_turn.specs.Next.{ChoosesPick, OpensNone};
ghost use Rattle.site_turn.specs.After.{IsEventOf};
ghost use Rattle.site_turn.specs.After.{AfterPick, StaysFitAt, IsSameTree, HasRoomFor};

use crate::turn::{Turn, no_effects};
use chem_model::{Event, Loc, Memory};
use code_run::run;
use env_store::{Code, extend};
use loc_tree::{LocTree, tree_is_kept};
use reducer::{Pick, births, event_of, front_args, guard_at, react};
use site_solution::{Effects, Site, site_is_kept};
use std::alloc::Global;

/// Whether the pick that the site chose opens no location.
pub fn opens_none(site: &Site, code: &Code, tree: &LocTree, pick: &Pick) -> bool
    requires { ChoosesPick code.now tree.now site.now pick.now }
    ensures { IsTrue result ↔ OpensNone code.now site.now pick.now }
{
    let _ = tree;
    births(code, site, pick) == 0
}

// How many locations the reaction of a pick will bear, by a run of its body that is thrown away:
// what the guard tells is right for a program's code, which isn't known here.
fn count_births(
    alloc: Global,
    site: &Site,
    tree: &LocTree,
    code: &Code,
    pick: &Pick,
) -> Result<u32, Memory>
    requires act { CanAct code.now tree.now site.now }
    requires fires { MayFire code.now tree.now site.now pick.now }
    ensures { IfOk result (λ count. (x : Picked) → Picks code.now site.now pick.now x
        → count ≡ length (ran_by code.now site.now x).births) }
{
    let _ = tree;
    site_is_kept(site);
    let guard = guard_at(code, pick.guard);
    let chans = guard.chans.as_slice();
    let inst = site.group(pick.group);
    let received = front_args(alloc, site, pick.group, chans)?;
    let env = extend(alloc, inst.env.names(), &received)?;
    let made = run(
        alloc,
        code,
        site.number(),
        guard.body,
        &env,
        &inst.loc,
        site.made(),
    )?;
    Ok(made.births.len() as u32)
}

/// Adds locations that the site with this number has born. It takes no memory.
pub fn add_births(tree: &mut LocTree, births: &[Loc], site: u32)
    requires new { AreNew tree.old site births.now }
    requires room { length births.now ≤ tree.old.spare }
    requires site { site < tree.old.roots }
    ensures { tree.new ≡ with_births tree.old site births.now }
{
    for birth in births {
        tree.birth(*birth, site);
    }
}

/// The event of the pick that the site chose. The tree gets room for its births.
pub fn ready_reaction(
    alloc: Global,
    site: &Site,
    tree: &mut LocTree,
    code: &Code,
    pick: &Pick,
) -> Result<Event, Memory>
    requires { ChoosesPick code.now tree.old site.now pick.now }
    ensures event { IfOk result (IsEventOf code.now site.now (choice.Pick pick.now)) }
    ensures ready { OnOk result (HasRoomFor code.now tree.old site.now pick.now tree.new) }
    ensures tree { IsSameTree tree.old tree.new }
{
    let event = event_of_pick(alloc, site, tree, code, pick)?;
    let born = count_births(alloc, site, tree, code, pick)?;
    tree.reserve(alloc, born)?;
    Ok(event)
}

// Drops the front of a queue, if there is one.
fn drop_front(site: &mut Site, group: u32, chan: u32)
    requires group { group < length site.old.groups }
    requires chan { chan < length (queues_of site.old.groups group) }
    ensures { site.new ≡ taken_at group (chan ∷ []) site.old }
{
    if site.front(group, chan).is_some() {
        site.take_front(group, chan);
    }
}

// Drops the fronts of these queues of a group in turn.
fn drop_fronts(site: &mut Site, group: u32, chans: &[u32])
    requires group { group < length site.old.groups }
    requires chans { Each (λ c. c < length (queues_of site.old.groups group)) chans.now }
    ensures { site.new ≡ taken_at group chans.now site.old }
{
    for chan in chans {
        drop_front(site, group, *chan);
    }
}

// Drops the messages that the reaction of a pick takes.
fn drop_taken(site: &mut Site, tree: &LocTree, code: &Code, pick: &Pick)
    requires act { CanAct code.now tree.now site.old }
    requires pick { IsPick code.now site.old pick.now }
    ensures { (x : Picked) → Picks code.now site.old pick.now x
        → site.new ≡ taken_at pick.now.group x.guard.chans site.old }
{
    let _ = tree;
    site_is_kept(site);
    let guard = guard_at(code, pick.guard);
    drop_fronts(site, pick.group, guard.chans.as_slice());
}

/// What the site does once it is known whether the event was made: it reacts where it was, and drops
/// the messages that it takes where that isn't possible. Where there is no memory, the site stays.
pub fn after_pick(
    alloc: Global,
    site: &mut Site,
    tree: &LocTree,
    code: &Code,
    pick: &Pick,
    turn: Turn,
) -> Result<Effects, Memory>
    requires act { CanAct code.now tree.now site.old }
    requires fires { MayFire code.now tree.now site.old pick.now }
    ensures after { IfOk result (AfterPick code.now tree.now site.old pick.now turn site.new) }
    ensures sends { IfOk result (λ effects. Each IsMessageFlight effects.sends) }
    ensures fit { IfOk result (λ effects.
        StaysFitAt code.now tree.now site.old.number turn site.new effects) }
    ensures err { OnErr result (site.new ≡ site.old) }
{
    match turn {
        Turn::Did(_) => react(alloc, site, code, tree, pick),
        Turn::NotEnabled => {
            drop_taken(site, tree, code, pick);
            Ok(no_effects(alloc))
        }
        Turn::Passed | Turn::Nothing | Turn::Full => Ok(no_effects(alloc)),
    }
}

/// The event of the pick that the site chose.
pub fn event_of_pick(
    alloc: Global,
    site: &Site,
    tree: &LocTree,
    code: &Code,
    pick: &Pick,
) -> Result<Event, Memory>
    requires { ChoosesPick code.now tree.now site.now pick.now }
    ensures { IfOk result (IsEventOf code.now site.now (choice.Pick pick.now)) }
{
    let _ = tree;
    event_of(alloc, site, code, pick)
}

/// Makes the reaction of a pick. The births have to be added to the tree.
pub fn react_by(
    alloc: Global,
    site: &mut Site,
    code: &Code,
    tree: &LocTree,
    pick: &Pick,
) -> Result<(Event, Effects), Memory>
    requires fires { MayFire code.now tree.now site.old pick.now }
    requires fit { CanAct code.now tree.now site.old }
    ensures ok { IfOk result (λ done.
        ReactsBy code.now tree.now site.old pick.now done.0 done.1 site.new) }
    ensures err { OnErr result (site.new ≡ site.old) }
{
    let event = event_of(alloc, site, code, pick)?;
    let effects = react(alloc, site, code, tree, pick)?;
    Ok((event, effects))
}

/// What site and tree do once it is known whether the event was made. There is room for all births.
pub fn after_wide_pick(
    alloc: Global,
    site: &mut Site,
    tree: &mut LocTree,
    code: &Code,
    pick: &Pick,
    turn: Turn,
) -> Result<Effects, Memory>
    requires act { CanAct code.now tree.old site.old }
    requires fires { MayFire code.now tree.old site.old pick.now }
    requires room { (x : Picked) → Picks code.now site.old pick.now x
        → length (ran_by code.now site.old x).births ≤ tree.old.spare }
    ensures after { IfOk result (AfterPick code.now tree.old site.old pick.now turn site.new) }
    ensures born { IfOk result (λ effects.
        tree.new ≡ with_births tree.old site.old.number effects.births) }
    ensures sends { IfOk result (λ effects. Each IsMessageFlight effects.sends) }
    ensures err { OnErr result (site.new ≡ site.old) }
    ensures err_tree { OnErr result (tree.new ≡ tree.old) }
{
    site_is_kept(site);
    tree_is_kept(tree);
    let number = site.number();
    let effects = after_pick(alloc, site, tree, code, pick, turn)?;
    add_births(tree, effects.births.as_slice(), number);
    Ok(effects)
}
