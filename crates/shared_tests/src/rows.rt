// What stands behind the locks at an opening, and what single calls make of it. The expected values
// were worked out by hand from the numbering.
ghost use Rattle.std.specs.Prelude.{◌≡◌, IfOk};
ghost use Rattle.chem_model.specs.Each.{Each};
ghost use Rattle.env_store.specs.Reading.{IsCodeOf};
ghost use Rattle.site_turn.specs.Mail.{IsMessageText};

use crate::plain::{Told, agree, go, go_on, holds, mail_of, make, react, root_of};
use crate::texts::{FIRST, MOVED, SENT, WITHIN, atom, loc};
use chem_model::{Items, Memory, Name, Program, Texts};
use env_store::Code;
use guard_compile::compile;
use join_base::Front;
use loc_tree::LocTree;
use shared_net::inside::{choose, prepare};
use shared_net::{Chosen, Locked, Mails, Opened, Passes, Run, Turn};
use site_solution::Site;
use std::alloc::Global;
use std::marker::Brand;
use std::sync::ledger::Blank;
use wire_packet::Msg;
use worked_programs::program_of;

// ---- openings

// The sites of an opening with their tree.
#[derive(Drop)]
struct Opening {
    tree: LocTree,
    sites: Vec<Site>,
}

// With the book behind its lock, and one pass.
#[derive(Drop)]
struct Begun<L: Run> {
    opening: Opening,
    locked: Locked<L>,
    passes: Passes<L>,
}

fn begin<L: Run>(
    alloc: Global,
    program: &Program,
    code: &Code,
    blank: Blank,
) -> Result<Box<Begun<L>>, Memory>
    requires code { IsCodeOf program.now code.now }
    requires name { blank.name ≡ L.name }
    requires parts { blank.parts ≡ L.parts }
    requires one { blank.parts ≡ 1 }
    requires program { program.now ≡ L.program }
{
    let (opened, passes) = prepare::<L>(alloc, program, code, 1, 10, blank)?;
    let Opened {
        tree,
        sites,
        mail: _,
        locked,
    } = opened;
    let opening = Opening {
        tree,
        sites: sites.into_vec(),
    };
    let begun = Begun {
        opening,
        locked,
        passes,
    };
    Ok(Box::new(alloc, begun)?)
}

// The opening alone.
fn open<L: Run>(
    alloc: Global,
    program: &Program,
    code: &Code,
    blank: Blank,
) -> Result<Opening, Memory>
    requires code { IsCodeOf program.now code.now }
    requires name { blank.name ≡ L.name }
    requires parts { blank.parts ≡ L.parts }
    requires one { blank.parts ≡ 1 }
    requires program { program.now ≡ L.program }
{
    let begun = begin::<L>(alloc, program, code, blank)?;
    Ok(Box::into_inner(begun).opening)
}

// ---- the mail of an opening

// How many messages wait in the mail of each of two sites, by a copy of it.
fn waiting(alloc: Global, mail: &Mails) -> Result<[usize; 2], Memory> {
    let copy = mail.copy(alloc)?;
    match copy.as_slice() {
        [first, second] => Ok([first.len(), second.len()]),
        _ => Err(Memory),
    }
}

fn open_mail<L: Run>(
    alloc: Global,
    program: &Program,
    code: &Code,
    blank: Blank,
) -> Result<[usize; 2], Memory>
    requires code { IsCodeOf program.now code.now }
    requires name { blank.name ≡ L.name }
    requires parts { blank.parts ≡ L.parts }
    requires one { blank.parts ≡ 1 }
    requires program { program.now ≡ L.program }
{
    let (opened, passes) = prepare::<L>(alloc, program, code, 1, 10, blank)?;
    drop(passes);
    waiting(alloc, &opened.mail)
}

fn sent(alloc: Global) -> Result<[usize; 2], Front> {
    let program = program_of(alloc, SENT.as_bytes())?;
    let code = Box::new(alloc, compile(alloc, &program)?)?;
    Ok(open_mail::<Brand>(alloc, &program, &code, Blank::new(1))?)
}

#[test]
fn the_mail_of_an_opening(rt: HostRuntime) {
    assert_eq!(rt; sent(rt.alloc()), Ok([0, 1]));
}

// ---- a reaction, and the same reaction once more

// What a reaction came to, and what it left.
#[derive(Clone, Copy, PartialEq, Eq, Debug)]
struct Reacted {
    made: Result<Option<Told>, Memory>,
    // Whether its message still waits.
    held: Result<bool, Memory>,
    // Whether the site then chooses nothing.
    quiet: bool,
    events: usize,
    agree: Option<bool>,
}

// To which site the first flight goes where no mail comes to the first site.
fn no_mail(alloc: Global, opening: &mut Opening) -> Result<Option<u32>, Memory> {
    match opening.sites.first_mut() {
        Some(site) => go_on(alloc, site, &opening.tree, &Items::new(alloc)),
        None => Err(Memory),
    }
}

// The first site reacts, with this book and pass.
fn react_first<L: Run>(
    alloc: Global,
    opening: &mut Opening,
    program: &Program,
    code: &Code,
    locked: &mut Locked<L>,
    passes: &mut Passes<L>,
) -> Option<Reacted> {
    let site = opening.sites.first_mut()?;
    let tree = &opening.tree;
    let made = react(alloc, site, tree, program, code, locked, passes);
    Some(Reacted {
        made,
        held: holds(alloc, site, &loc(0, 0), &atom(0, 3)),
        quiet: matches!(choose(site, program, code, tree), Chosen::Nothing),
        events: locked.book().journal().len(),
        agree: agree(alloc, locked, passes),
    })
}

// Where no mail goes on, and what two sites make that are opened alike, with one book and one
// pass.
#[derive(Clone, Copy, PartialEq, Eq, Debug)]
struct Twice {
    flight: Result<Option<u32>, Memory>,
    first: Option<Reacted>,
    second: Option<Reacted>,
}

fn react_both<L: Run>(
    alloc: Global,
    program: &Program,
    code: &Code,
    begun: &mut Begun<L>,
    other: &mut Opening,
) -> Twice {
    let opening = &mut begun.opening;
    let locked = &mut begun.locked;
    let passes = &mut begun.passes;
    Twice {
        flight: no_mail(alloc, opening),
        first: react_first(alloc, opening, program, code, locked, passes),
        second: react_first(alloc, other, program, code, locked, passes),
    }
}

fn react_twice<L: Run>(
    alloc: Global,
    program: &Program,
    code: &Code,
    blank: Blank,
    other: &mut Opening,
) -> Result<Twice, Memory>
    requires code { IsCodeOf program.now code.now }
    requires name { blank.name ≡ L.name }
    requires parts { blank.parts ≡ L.parts }
    requires one { blank.parts ≡ 1 }
    requires program { program.now ≡ L.program }
{
    let mut begun = begin::<L>(alloc, program, code, blank)?;
    Ok(react_both(alloc, program, code, &mut begun, other))
}

fn run_twice(alloc: Global) -> Result<Twice, Front> {
    let program = program_of(alloc, FIRST.as_bytes())?;
    let code = Box::new(alloc, compile(alloc, &program)?)?;
    let mut other = open::<Brand>(alloc, &program, &code, Blank::new(1))?;
    Ok(react_twice::<Brand>(alloc, &program, &code, Blank::new(1), &mut other)?)
}

// Of a site that is quiet after this turn, whose message is gone, where the book has one event.
fn reacts_as(turn: Turn, sizes: [usize; 3], observed: Option<Name>) -> Reacted {
    Reacted {
        made: Ok(Some(Told {
            turn,
            sizes,
            observed,
        })),
        held: Ok(false),
        quiet: true,
        events: 1,
        agree: Some(true),
    }
}

// The book refuses the reaction the second time, and the site drops its message.
#[test]
fn a_reaction_and_the_same_once_more(rt: HostRuntime) {
    let made = reacts_as(Turn::Did(0), [0, 1, 0], Some(Name::Place(loc(0, 0))));
    let refused = reacts_as(Turn::NotEnabled, [0, 0, 0], None);
    assert_eq!(rt;
        run_twice(rt.alloc()),
        Ok(Twice {
            flight: Ok(None),
            first: Some(made),
            second: Some(refused),
        })
    );
}

// ---- moves

// What the first site chose, what came of it, and which site then hosts the location 0.1.
#[derive(Clone, Copy, PartialEq, Eq, Debug)]
struct Moved {
    chosen: Option<Chosen>,
    made: Result<Option<Told>, Memory>,
    host: Option<u32>,
}

fn chosen(program: &Program, code: &Code, opening: &Opening) -> Option<Chosen> {
    let site = opening.sites.first()?;
    Some(choose(site, program, code, &opening.tree))
}

fn go_across<L: Run>(
    alloc: Global,
    program: &Program,
    code: &Code,
    begun: &mut Begun<L>,
) -> Result<Option<Told>, Memory> {
    let Opening { tree, sites } = &mut begun.opening;
    if sites.len() < 2 {
        return Ok(None);
    }
    let (front, back) = sites.split_at_mut(1);
    let locked = &mut begun.locked;
    let passes = &mut begun.passes;
    let (site, into) = (&mut front[0], &mut back[0]);
    go(alloc, site, into, tree, program, code, locked, passes)
}

// The mail of one message to the location.
fn one_message(alloc: Global) -> Result<Texts, Memory>
    ensures { IfOk result (Each IsMessageText) }
{
    let home = loc(0, 1);
    let args = Items::new(alloc);
    mail_of(
        alloc,
        Msg {
            id: atom(7, 7),
            on: Name::Chan {
                site: 0,
                k: 2,
                home,
            },
            args,
        },
    )
}

// To which site a message to the location goes on, and whether it waits there.
type Came = (Option<u32>, bool);

// It comes to one of the sites.
fn comes(alloc: Global, opening: &mut Opening, at: usize) -> Result<Came, Memory> {
    let mail = one_message(alloc)?;
    let Some(site) = opening.sites.get_mut(at) else {
        return Err(Memory);
    };
    let target = go_on(alloc, site, &opening.tree, &mail)?;
    Ok((target, holds(alloc, site, &loc(0, 1), &atom(7, 7))?))
}

// What a move came to, and what becomes of a message to the location at each of two sites.
#[derive(Clone, Copy, PartialEq, Eq, Debug)]
struct Crossed {
    moved: Moved,
    came: [Result<Came, Memory>; 2],
}

fn cross<L: Run>(alloc: Global, program: &Program, code: &Code, begun: &mut Begun<L>) -> Crossed {
    let moved = Moved {
        chosen: chosen(program, code, &begun.opening),
        made: go_across(alloc, program, code, begun),
        host: root_of(&begun.opening.tree, &loc(0, 1)),
    };
    let opening = &mut begun.opening;
    let came = [comes(alloc, opening, 0), comes(alloc, opening, 1)];
    Crossed { moved, came }
}

fn move_across<L: Run>(
    alloc: Global,
    program: &Program,
    code: &Code,
    blank: Blank,
) -> Result<Crossed, Memory>
    requires code { IsCodeOf program.now code.now }
    requires name { blank.name ≡ L.name }
    requires parts { blank.parts ≡ L.parts }
    requires one { blank.parts ≡ 1 }
    requires program { program.now ≡ L.program }
{
    let mut begun = begin::<L>(alloc, program, code, blank)?;
    Ok(cross(alloc, program, code, &mut begun))
}

fn across(alloc: Global) -> Result<Crossed, Front> {
    let program = program_of(alloc, MOVED.as_bytes())?;
    let code = Box::new(alloc, compile(alloc, &program)?)?;
    Ok(move_across::<Brand>(alloc, &program, &code, Blank::new(1))?)
}

fn make_first<L: Run>(
    alloc: Global,
    program: &Program,
    code: &Code,
    begun: &mut Begun<L>,
) -> Result<Option<Told>, Memory> {
    let Opening { tree, sites } = &mut begun.opening;
    let Some(site) = sites.first_mut() else {
        return Ok(None);
    };
    let locked = &mut begun.locked;
    let passes = &mut begun.passes;
    make(alloc, site, tree, program, code, locked, passes)
}

fn move_here<L: Run>(alloc: Global, program: &Program, code: &Code, begun: &mut Begun<L>) -> Moved {
    Moved {
        chosen: chosen(program, code, &begun.opening),
        made: make_first(alloc, program, code, begun),
        host: root_of(&begun.opening.tree, &loc(0, 1)),
    }
}

fn move_within<L: Run>(
    alloc: Global,
    program: &Program,
    code: &Code,
    blank: Blank,
) -> Result<Moved, Memory>
    requires code { IsCodeOf program.now code.now }
    requires name { blank.name ≡ L.name }
    requires parts { blank.parts ≡ L.parts }
    requires one { blank.parts ≡ 1 }
    requires program { program.now ≡ L.program }
{
    let mut begun = begin::<L>(alloc, program, code, blank)?;
    Ok(move_here(alloc, program, code, &mut begun))
}

fn within(alloc: Global) -> Result<Moved, Front> {
    let program = program_of(alloc, WITHIN.as_bytes())?;
    let code = Box::new(alloc, compile(alloc, &program)?)?;
    Ok(move_within::<Brand>(alloc, &program, &code, Blank::new(1))?)
}

// Of the move by the first site's request with this number, after which this site hosts the
// location.
fn moves_as(k: u64, host: u32) -> Moved {
    Moved {
        chosen: Some(Chosen::Ask(atom(0, k))),
        made: Ok(Some(Told {
            turn: Turn::Did(0),
            sizes: [0, 0, 0],
            observed: None,
        })),
        host: Some(host),
    }
}

// A message that comes to the site that the location left goes on to the other, where it waits.
#[test]
fn a_move_to_another_site(rt: HostRuntime) {
    let crossed = Crossed {
        moved: moves_as(4, 1),
        came: [Ok((Some(1), false)), Ok((None, true))],
    };
    assert_eq!(rt; across(rt.alloc()), Ok(crossed));
}

#[test]
fn a_move_within_a_site(rt: HostRuntime) {
    assert_eq!(rt; within(rt.alloc()), Ok(moves_as(6, 0)));
}
