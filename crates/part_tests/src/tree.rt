// Two roots and a location that is born, moves and dies. The expected values were worked out by
// hand.
ghost use Rattle.std.specs.Prelude.{◌<◌};

use crate::crossing::crosses;
use chem_model::{Loc, Memory};
use loc_tree::LocTree;
use std::alloc::Global;
use std::process::Abort;

const HERE: Loc = Loc { site: 0, k: 0 };

const THERE: Loc = Loc { site: 1, k: 0 };

const BORN: Loc = Loc { site: 0, k: 1 };

// What is done to a tree, or what it is to be.
#[derive(Drop)]
enum Step {
    // Whether the numbers of a site are free from this one on.
    Fresh(u32, u64, bool),
    // The root of a location.
    Root(Loc, u32),
    // Whether a location is alive.
    Alive(Loc, bool),
    // Whether a location can move to another.
    CanMove(Loc, Loc, bool),
    // Whether a location can fall with another.
    CanFall(Loc, Loc, bool),
    // A location falls with another.
    Fall(Loc, Loc),
    // A location moves to another.
    Move(Loc, Loc),
    // A location dies.
    Kill(Loc),
}

// Whether a location can move to another, or not, as it is wanted.
fn can_move(tree: &LocTree, loc: &Loc, target: &Loc, want: bool) -> bool {
    tree.holds(loc) && tree.holds(target) && tree.can_move(loc, target) == want
}

// Whether a location can fall with another, or not, as it is wanted.
fn can_fall(tree: &LocTree, loc: &Loc, target: &Loc, want: bool) -> bool {
    tree.holds(loc) && tree.holds(target) && tree.can_fall(loc, target) == want
}

// A location falls with another, where it can.
fn falls(tree: &mut LocTree, loc: &Loc, target: &Loc) -> bool {
    let is_possible = tree.holds(loc) && tree.holds(target) && tree.can_fall(loc, target);
    if is_possible {
        tree.rehost(loc, target);
    }
    is_possible
}

// Moves a location to another, where it can.
fn moves(tree: &mut LocTree, loc: &Loc, target: &Loc) -> bool {
    let is_possible = tree.holds(loc) && tree.holds(target) && tree.can_move(loc, target);
    if is_possible {
        tree.rehost(loc, target);
    }
    is_possible
}

// Kills a location, where it is there.
fn dies(tree: &mut LocTree, loc: &Loc) -> bool {
    let is_there = tree.holds(loc);
    if is_there {
        tree.kill(loc);
    }
    is_there
}

// Takes a step. Whether all is as the step says.
fn is_taken(tree: &mut LocTree, step: &Step) -> bool {
    match step {
        Step::Fresh(site, from, want) => tree.fresh(*site, *from) == *want,
        Step::Root(loc, want) => tree.holds(loc) && tree.root(loc) == *want,
        Step::Alive(loc, want) => tree.holds(loc) && tree.alive(loc) == *want,
        Step::CanMove(loc, target, want) => can_move(tree, loc, target, *want),
        Step::CanFall(loc, target, want) => can_fall(tree, loc, target, *want),
        Step::Fall(loc, target) => falls(tree, loc, target),
        Step::Move(loc, target) => moves(tree, loc, target),
        Step::Kill(loc) => dies(tree, loc),
    }
}

// That all is as each of these steps says.
fn expect_steps(rt: &impl Abort, tree: &mut LocTree, steps: &[Step]) {
    for (index, step) in steps.iter().enumerate() {
        assert!(rt; is_taken(tree, step), "step {index}");
    }
}

// The location 0.1 is born under the first root. Whether it is new.
fn is_born(alloc: Global, tree: &mut LocTree) -> Result<bool, Memory>
    requires { 0 < tree.old.roots }
{
    tree.reserve(alloc, 1)?;
    let is_new = !tree.holds(&BORN) && tree.fresh(0, 1);
    if is_new {
        tree.birth(BORN, 0);
    }
    Ok(is_new)
}

// What follows the birth.
const LIFE: &[Step] = &[
    Step::Fresh(0, 1, false),
    Step::Fresh(0, 2, true),
    Step::Fresh(1, 0, false),
    Step::Fresh(2, 0, true),
    Step::Root(BORN, 0),
    Step::CanMove(BORN, THERE, true),
    Step::CanMove(BORN, HERE, true),
    Step::CanMove(HERE, THERE, false),
    Step::CanMove(BORN, BORN, false),
    Step::Move(BORN, THERE),
    Step::Kill(THERE),
    Step::Root(BORN, 1),
    Step::Alive(BORN, false),
    Step::Alive(HERE, true),
    Step::CanMove(BORN, HERE, false),
];

// What follows the birth where the second root dies before the location moves.
const FALL: &[Step] = &[
    Step::CanFall(BORN, THERE, false),
    Step::Kill(THERE),
    Step::CanMove(BORN, THERE, false),
    Step::CanFall(BORN, THERE, true),
    Step::CanFall(BORN, HERE, false),
    Step::CanFall(HERE, THERE, false),
    Step::CanFall(BORN, BORN, false),
    Step::Fall(BORN, THERE),
    Step::Root(BORN, 1),
    Step::Alive(BORN, false),
    Step::Alive(HERE, true),
    Step::CanFall(BORN, THERE, false),
];

// The location is born, and then lives as these steps say.
fn live(rt: &impl Abort, alloc: Global, tree: &mut LocTree, steps: &[Step])
    requires { 0 < tree.old.roots }
{
    let born = is_born(alloc, tree);
    assert!(rt; born == Ok(true));
    expect_steps(rt, tree, steps);
}

#[test]
fn a_location_moves_and_dies_with_its_root(rt: HostRuntime) {
    match LocTree::start(rt.alloc(), 2) {
        Ok(mut tree) => {
            crosses(&tree);
            live(&rt, rt.alloc(), &mut tree, LIFE);
            drop(tree);
        }
        Err(_) => assert!(rt; false, "no memory"),
    }
}

#[test]
fn a_location_falls_with_a_dead_root(rt: HostRuntime) {
    match LocTree::start(rt.alloc(), 2) {
        Ok(mut tree) => {
            live(&rt, rt.alloc(), &mut tree, FALL);
            drop(tree);
        }
        Err(_) => assert!(rt; false, "no memory"),
    }
}
