// The steps of a test, as data: what is looked at, and what is made, one after another. A site is
// named by its place in the list of sites. A message that leaves a site is mail, which later steps
// bring to sites.
ghost use Rattle.std.specs.Prelude.{ℕ};
ghost use Rattle.wire_packet.specs.Operations.{HasCount};

use crate::by_hand::{
    args_of, ask_at, draw_at, drop_at, emit_root, host_at, lay_at, pour_at, put_at, take_at,
};
use crate::calls::{deliver_at, detect_at, halt_at, move_at, move_over, react_at};
use crate::fault::Fault;
use crate::net::{Net, Pair, atom, loc, net_by_hand, net_of};
use crate::shown::{Fact, Leaves, Look, has, has_left, is_addressed, is_hosted, shows};
use crate::texts::{bear, bear_all};
use chem_model::{AtomId, Loc, Memory, Name};
use env_store::Code;
use loc_tree::LocTree;
use site_solution::{Effects, Site};
use std::alloc::Global;
use wire_packet::{Ask, Msg, Packet, decode};

const ROOT: Loc = Loc { site: 0, k: 0 };

/// A channel: its number, and its home.
pub type Channel = (Pair, Pair);

/// What a site makes.
#[derive(Clone, Copy)]
pub enum Deed {
    /// The reaction that is ready.
    Reacts,
    /// A location moves within the site, by its request.
    Goes(Pair),
    /// A failure is detected, by the request.
    Detects(Pair),
    /// A message is poured at the root, with a location or without arguments.
    Pours(Name, Option<Pair>),
    /// The body of a guard of one channel is poured at a location, under this location alone.
    PoursBody(Pair, usize),
}

/// A change without effects.
#[derive(Clone, Copy)]
pub enum Change {
    /// The first level is laid at the root, with the channel 0.1 and the rule 0.2, as the first
    /// group.
    Lays,
    /// A message with this id comes on the channel 0.1, with a location or without arguments.
    Puts(Pair, Option<Pair>),
    /// A request with this id comes at a location.
    Asks(Pair, Pair, Ask),
    /// The request is dropped.
    Drops(Pair),
    /// A location is hosted.
    Hosts(Pair),
    /// The front message of the first channel is taken.
    Takes,
    /// So many numbers are drawn, of which this is the first.
    Draws(u32, u64),
    /// The location of a request halts.
    Halts(Pair),
}

/// What is seen of the tree, or changed there.
#[derive(Clone, Copy)]
pub enum Place {
    /// The site with this number hosts the location, and whether it is alive.
    Stands(Pair, u32, bool),
    /// Messages to the location go to the site with this number.
    Addressed(Pair, u32),
    /// The location is born under this site.
    Born(Pair, u32),
    /// The location is marked.
    Killed(Pair),
}

/// One step.
#[derive(Clone, Copy)]
pub enum Step {
    Has(usize, Fact),
    See(usize, Look),
    Tree(Place),
    /// What is ready at a site is the reaction of this rule with these atoms, and it is made.
    React(usize, Pair, &'static [Pair], Leaves),
    Make(usize, Deed, Leaves),
    /// A site makes so many reactions, by which nothing leaves. Before each the index tells what is
    /// ready, so many guards are noted as covered, and the site has limits.
    ReactOften(usize, u32, usize),
    /// A location moves to the next site, by which nothing else leaves.
    Across(usize, Pair),
    Change(usize, Change),
    /// A message with this id, with a location or without arguments, comes from elsewhere.
    Mail(Pair, Channel, Option<Pair>),
    /// The newest mail comes to a site, and goes on to the site with this number as it is.
    GoesOn(usize, u32),
    /// The newest mail comes to a site, and stays there.
    Arrives(usize),
}

// ---- what is seen

// Whether this is so of a site.
fn site_has(net: &Net, at: usize, fact: Fact) -> bool {
    match net.sites.get(at) {
        Some(site) => has(site, fact),
        None => false,
    }
}

// Whether a site shows this.
fn site_shows(alloc: Global, net: &Net, at: usize, look: Look) -> Result<bool, Fault> {
    match net.sites.get(at) {
        Some(site) => shows(alloc, site, &net.code, &net.tree, look),
        None => Ok(false),
    }
}

// A location is marked.
fn kill(tree: &mut LocTree, place: Loc) -> Result<(), Fault> {
    if !tree.holds(&place) {
        return Err(Fault::Unmet);
    }
    tree.kill(&place);
    Ok(())
}

// Whether the tree is so; a change there is made.
fn is_placed(alloc: Global, tree: &mut LocTree, place: Place) -> Result<bool, Fault> {
    match place {
        Place::Stands(place, root, alive) => Ok(is_hosted(tree, loc(place), root, alive)),
        Place::Addressed(place, target) => Ok(is_addressed(tree, loc(place), target)),
        Place::Born(place, under) => {
            bear(alloc, tree, loc(place), under)?;
            Ok(true)
        }
        Place::Killed(place) => {
            kill(tree, loc(place))?;
            Ok(true)
        }
    }
}

// ---- what is made

// What comes of what a site makes.
fn made(
    alloc: Global,
    site: &mut Site,
    code: &Code,
    tree: &mut LocTree,
    deed: Deed,
) -> Result<Effects, Fault> {
    match deed {
        Deed::Reacts => react_at(alloc, site, code, tree),
        Deed::Goes(id) => move_at(alloc, site, tree, &code.seen, atom(id)),
        Deed::Detects(id) => detect_at(alloc, site, tree, &code.seen, atom(id)),
        Deed::Pours(on, arg) => emit_root(alloc, site, code, tree, on, arg),
        Deed::PoursBody(place, guard) => pour_at(alloc, site, code, tree, loc(place), guard),
    }
}

// The message of a packet.
fn message_of(alloc: Global, bytes: &[u8]) -> Result<Msg, Memory> {
    match decode(alloc, bytes) {
        Ok(Packet::Message(msg)) => Ok(msg),
        _ => Err(Memory),
    }
}

// The messages that left a site are mail.
fn send(alloc: Global, effects: &Effects, mail: &mut Vec<Msg>) -> Result<(), Memory> {
    for flight in effects.sends.as_slice() {
        let msg = message_of(alloc, flight.bytes.as_slice())?;
        mail.push(msg)?;
    }
    Ok(())
}

// What a site made comes to the tree and to the mail. Whether it is this.
fn settled(
    alloc: Global,
    tree: &mut LocTree,
    mail: &mut Vec<Msg>,
    effects: &Effects,
    under: u32,
    want: Leaves,
) -> Result<bool, Fault> {
    bear_all(alloc, tree, effects.births.as_slice(), under)?;
    send(alloc, effects, mail)?;
    Ok(has_left(effects, want))
}

// A site makes this. Whether what comes of it is as wanted.
fn site_makes(
    alloc: Global,
    net: &mut Net,
    at: usize,
    deed: Deed,
    want: Leaves,
) -> Result<bool, Fault> {
    let Net {
        code,
        tree,
        sites,
        mail,
    } = net;
    let Some(site) = sites.get_mut(at) else {
        return Err(Fault::Unmet);
    };
    let effects = made(alloc, site, code, tree, deed)?;
    settled(alloc, tree, mail, &effects, site.number(), want)
}

// The site makes the reaction that it shows. Whether it shows it, and all comes of it.
fn site_reacts(
    alloc: Global,
    net: &mut Net,
    at: usize,
    look: Look,
    want: Leaves,
) -> Result<bool, Fault> {
    if !site_shows(alloc, net, at, look)? {
        return Ok(false);
    }
    site_makes(alloc, net, at, Deed::Reacts, want)
}

// The site makes so many reactions. Whether before each it keeps what it notes.
fn site_reacts_often(
    alloc: Global,
    net: &mut Net,
    at: usize,
    times: u32,
    noted: usize,
) -> Result<bool, Fault> {
    for _time in 0..times {
        if !site_shows(alloc, net, at, Look::Knows)? || !site_has(net, at, Fact::Upkeep(noted)) {
            return Ok(false);
        }
        if !site_makes(alloc, net, at, Deed::Reacts, Leaves::Nothing)? {
            return Ok(false);
        }
    }
    Ok(true)
}

/// What the move of a location from one site to the next leaves.
pub fn moved_on(alloc: Global, net: &mut Net, at: usize, id: Pair) -> Result<Effects, Fault> {
    let Net {
        code,
        tree,
        sites,
        ..
    } = net;
    if at >= sites.len() {
        return Err(Fault::Unmet);
    }
    let (front, back) = sites.split_at_mut(at + 1);
    match (front.last_mut(), back.first_mut()) {
        (Some(from), Some(into)) => move_over(alloc, from, into, tree, code, atom(id)),
        _ => Err(Fault::Unmet),
    }
}

// A location moves to the next site. Whether nothing else leaves.
fn moves_on(alloc: Global, net: &mut Net, at: usize, id: Pair) -> Result<bool, Fault> {
    let effects = moved_on(alloc, net, at, id)?;
    Ok(has_left(&effects, Leaves::Nothing))
}

// A site is changed.
fn make_change(
    alloc: Global,
    site: &mut Site,
    code: &Code,
    tree: &mut LocTree,
    wanted: Change,
) -> Result<(), Fault> {
    match wanted {
        Change::Lays => lay_at(alloc, site, code, ROOT, 0, 1, 2),
        Change::Puts(id, arg) => put_at(alloc, site, atom(id), 1, ROOT, arg),
        Change::Asks(id, place, ask) => ask_at(site, atom(id), loc(place), ask),
        Change::Hosts(place) => host_at(site, loc(place)),
        Change::Drops(id) => drop_at(site, atom(id)),
        Change::Takes => take_at(site),
        Change::Halts(id) => halt_at(tree, site, atom(id)),
        Change::Draws(more, first) => draw_at(site, more, first),
    }
}

// The same of one of the sites, if it is there.
fn site_changes(alloc: Global, net: &mut Net, at: usize, wanted: Change) -> Result<bool, Fault> {
    let Net {
        code,
        tree,
        sites,
        ..
    } = net;
    match sites.get_mut(at) {
        Some(site) => {
            make_change(alloc, site, code, tree, wanted)?;
            Ok(true)
        }
        None => Ok(false),
    }
}

// ---- mail

// A message comes from elsewhere.
fn post(
    alloc: Global,
    mail: &mut Vec<Msg>,
    id: Pair,
    on: Channel,
    arg: Option<Pair>,
) -> Result<bool, Memory> {
    let args = args_of(alloc, arg)?;
    mail.push(Msg {
        id: atom(id),
        on: channel(on),
        args,
    })?;
    Ok(true)
}

// A channel's name.
fn channel(on: Channel) -> Name
    ensures { (n : ℕ) → HasCount result n }
{
    let (pair, home) = on;
    Name::Chan {
        site: pair.0,
        k: pair.1,
        home: loc(home),
    }
}

// The id of the newest mail, its channel, and how many arguments it has.
fn newest(mail: &[Msg]) -> Option<(AtomId, Name, usize)> {
    match mail.last() {
        Some(msg) => Some((msg.id, msg.on, msg.args.len())),
        None => None,
    }
}

// The newest mail comes to a site. The site to which it goes on, if it does.
fn delivered(net: &mut Net, at: usize) -> Result<Option<u32>, Fault> {
    let Net {
        tree,
        sites,
        mail,
        ..
    } = net;
    let Some(site) = sites.get_mut(at) else {
        return Err(Fault::Unmet);
    };
    match mail.pop() {
        Some(msg) => deliver_at(site, tree, msg, mail),
        None => Err(Fault::Unmet),
    }
}

// Whether it goes on to this site as it is.
fn goes_on(net: &mut Net, at: usize, target: u32) -> Result<bool, Fault> {
    let before = newest(&net.mail);
    let found = delivered(net, at)?;
    Ok(found == Some(target) && newest(&net.mail) == before)
}

// Whether it stays.
fn arrives(net: &mut Net, at: usize) -> Result<bool, Fault> {
    let found = delivered(net, at)?;
    Ok(found.is_none())
}

// ---- all steps

// Whether a step goes as it says.
fn goes(alloc: Global, net: &mut Net, step: Step) -> Result<bool, Fault> {
    match step {
        Step::Has(at, fact) => Ok(site_has(net, at, fact)),
        Step::See(at, look) => site_shows(alloc, net, at, look),
        Step::Tree(place) => is_placed(alloc, &mut net.tree, place),
        Step::React(at, rule, took, want) => {
            site_reacts(alloc, net, at, Look::Waits(rule, took), want)
        }
        Step::Make(at, deed, want) => site_makes(alloc, net, at, deed, want),
        Step::ReactOften(at, times, noted) => site_reacts_often(alloc, net, at, times, noted),
        Step::Across(at, id) => moves_on(alloc, net, at, id),
        Step::Change(at, wanted) => site_changes(alloc, net, at, wanted),
        Step::Mail(id, on, arg) => Ok(post(alloc, &mut net.mail, id, on, arg)?),
        Step::GoesOn(at, target) => goes_on(net, at, target),
        Step::Arrives(at) => arrives(net, at),
    }
}

/// Makes one step after another. A step that isn't as it says is the fault.
pub fn go(alloc: Global, net: &mut Net, steps: &[Step]) -> Result<(), Fault> {
    for (index, step) in steps.iter().enumerate() {
        match goes(alloc, net, *step) {
            Ok(true) => {}
            Ok(false) | Err(Fault::Unmet) => return Err(Fault::Step(index)),
            Err(fault) => return Err(fault),
        }
    }
    Ok(())
}

/// Makes one step after another with the opened sites of a text.
pub fn run(alloc: Global, text: &[u8], steps: &[Step]) -> Result<(), Fault> {
    let mut net = net_of(alloc, text)?;
    go(alloc, &mut net, steps)
}

/// Makes one step after another with a site of a text that hosts its root alone.
pub fn run_by_hand(alloc: Global, text: &[u8], steps: &[Step]) -> Result<(), Fault> {
    let mut net = net_by_hand(alloc, text)?;
    go(alloc, &mut net, steps)
}
