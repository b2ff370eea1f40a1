// Choices that are made.
ghost use Rattle.std.specs.Prelude.{◌≡◌, ℕ, ◌+◌, ◌-◌, ◌<◌, ◌^◌, Some, IfOk, OnOk, OnErr, IsTrue};
ghost use Rattle.chem_model.specs.Each.{Each};
ghost use Rattle.net_laws.specs.Site.{Site as site_seen};
ghost use Rattle.site_solution.specs.InTree.{is_in_tree};
ghost use Rattle.chem_model.specs.declared.name.Loc.{Loc as place};
ghost use Rattle.chem_model.specs.declared.name.Name.{Name as name};
ghost use Rattle.chem_model.specs.declared.name.Name.TheVariants as names;
ghost use Rattle.chem_model.specs.declared.event.Event.TheVariants as event;
ghost use Rattle.wire_packet.specs.declared.packet.Ask.TheVariants as sent;
ghost use Rattle.net_core.specs.Acting.{Moves};
ghost use Rattle.net_core.specs.Acts.{Acts};
ghost use Rattle.net_core.specs.inside.AtSites.{MayGoAt, HasGoal};
ghost use Rattle.net_core.specs.Choosing.{Allows};
ghost use Rattle.net_core.specs.inside.Handing.{AreAsBefore};
ghost use Rattle.net_core.specs.declared.choice.Choice.TheVariants as choices;
ghost use Rattle.net_core.specs.Making.{counted, HasActed};
ghost use Rattle.net_core.specs.Parts.{net_of};
ghost use Rattle.net_core.specs.Senders.{IsSentBy};
ghost use Rattle.net_core.specs.inside.Noted.{IsMadeNoted};
ghost use Rattle.net_core.specs.inside.Runs.{spread};
ghost use Rattle.net_core.specs.inside.Searched.{IsMet};
ghost use Rattle.net_core.specs.Whole.{IsWhole, IsNetWhole};

use crate::choice::Choice;
use crate::delivering::deliver_flight;
use crate::events::{detect_request, halt_request, move_here, move_over, react_pick};
use crate::idle::forget;
use crate::net::Net;
use crate::parts::Parts;
use crate::searching::meeting_site;
use crate::senders::{Run, note};
use chem_model::{AtomId, Event, Loc, Memory, Name};
use env_store::Code;
use loc_tree::LocTree;
use site_solution::Site;
use std::alloc::Global;
use std::collections::VecDeque;
use wire_packet::Ask;

// The location to which a request to go leads.
fn goal_of(ask: Ask) -> Loc
    requires { (target : place) × ((cont : name) × (ask ≡ sent.Go (names.Place target) cont)) }
    ensures { (target : place) (cont : name) → ask ≡ sent.Go (names.Place target) cont
        → result ≡ target }
{
    match ask {
        Ask::Go {
            target: Name::Place(target),
            cont: _,
        } => target,
        _ => unreachable!(),
    }
}

// The location to which a request of the site with this number leads.
fn goal_at(sites: &[Site], number: usize, atom: &AtomId) -> Loc
    requires { (target : place) × HasGoal sites.now number atom.now target }
    ensures { (target : place) → HasGoal sites.now number atom.now target → result ≡ target }
{
    let site = &sites[number];
    let request = site.asked(atom);
    goal_of(request.ask)
}

// Meets a request of the site with this number to go to a location of the site `into`.
fn move_into(
    alloc: Global,
    parts: &mut Parts,
    code: &Code,
    number: usize,
    into: usize,
    atom: &AtomId,
) -> Result<Event, Memory>
    requires whole { (events : ℕ) × IsWhole code.now parts.old events }
    requires may { MayGoAt parts.old.version parts.old.tree parts.old.sites.items number atom.now }
    requires goal { (target : place) × HasGoal parts.old.sites.items number atom.now target
        × (target.site ≡ into) }
    ensures event { IfOk result (λ e. e ≡ event.Move atom.now) }
    ensures moves { OnOk result (Moves (net_of code.now.seen parts.old) atom.now
        (net_of code.now.seen parts.new)) }
    ensures whole { OnOk result ((events : ℕ) → events < 2 ^ 32
        → IsWhole code.now parts.old events → IsWhole code.now parts.new (events + 1)) }
    ensures err { OnErr result (AreAsBefore parts.old parts.new) }
{
    if into == number {
        move_here(alloc, parts, &code.seen, number, atom)
    } else {
        move_over(alloc, parts, code, number, into, atom)
    }
}

// Meets a request of the site with this number to go. The answer is the site to which the location
// goes, and the event.
fn move_request(
    alloc: Global,
    parts: &mut Parts,
    code: &Code,
    number: usize,
    atom: &AtomId,
) -> Result<(u32, Event), Memory>
    requires whole { (events : ℕ) × IsWhole code.now parts.old events }
    requires may { MayGoAt parts.old.version parts.old.tree parts.old.sites.items number atom.now }
    ensures event { IfOk result (λ done. done.1 ≡ event.Move atom.now) }
    ensures sent_by { IfOk result (λ done.
        IsSentBy (net_of code.now.seen parts.old) (choices.Move atom.now) done.0) }
    ensures moves { OnOk result (Moves (net_of code.now.seen parts.old) atom.now
        (net_of code.now.seen parts.new)) }
    ensures whole { OnOk result ((events : ℕ) → events < 2 ^ 32
        → IsWhole code.now parts.old events → IsWhole code.now parts.new (events + 1)) }
    ensures err { OnErr result (AreAsBefore parts.old parts.new) }
{
    let goal = goal_at(parts.sites.as_slice(), number, atom);
    let event = move_into(alloc, parts, code, number, goal.site as usize, atom)?;
    Ok((goal.site, event))
}

// The first site that has a request which the choice meets.
fn met_by(sites: &[Site], tree: &LocTree, version: u32, choice: &Choice) -> usize
    requires tree { Each (λ (s : site_seen). IsTrue (is_in_tree tree.now s)) sites.now }
    requires met { (i : ℕ) × IsMet version sites.now tree.now choice.now i }
    ensures { IsMet version sites.now tree.now choice.now result }
{
    match meeting_site(sites, tree, version, choice) {
        Some(number) => number,
        None => unreachable!(),
    }
}

// Meets the request of a choice that meets one of the site with this number. The answer is the site
// that sends what goes on, and the event.
fn meet(
    alloc: Global,
    parts: &mut Parts,
    code: &Code,
    choice: &Choice,
    number: usize,
) -> Result<(u32, Event), Memory>
    requires whole { (events : ℕ) × IsWhole code.now parts.old events }
    requires met { IsMet parts.old.version parts.old.sites.items parts.old.tree choice.now number }
    ensures acts { IfOk result (λ done. Acts code.now (net_of code.now.seen parts.old) choice.now
        (Some done.1) (net_of code.now.seen parts.new)) }
    ensures sent_by { IfOk result (λ done.
        IsSentBy (net_of code.now.seen parts.old) choice.now done.0) }
    ensures whole { OnOk result ((events : ℕ) → events < 2 ^ 32
        → IsWhole code.now parts.old events → IsWhole code.now parts.new (events + 1)) }
    ensures err { OnErr result (AreAsBefore parts.old parts.new) }
{
    match choice {
        Choice::Move { atom } => move_request(alloc, parts, code, number, atom),
        Choice::Halt { atom } => {
            let event = halt_request(parts, number, atom);
            Ok((number as u32, event))
        }
        Choice::Detect { atom } => {
            let event = detect_request(alloc, parts, &code.seen, number, atom)?;
            Ok((number as u32, event))
        }
        Choice::React { .. } | Choice::Deliver { .. } => unreachable!(),
    }
}

// Makes an enabled choice. The answer is the site that sends what it sends, and the event.
fn make(
    alloc: Global,
    parts: &mut Parts,
    code: &Code,
    choice: &Choice,
) -> Result<(u32, Option<Event>), Memory>
    requires whole { (events : ℕ) × IsWhole code.now parts.old events }
    requires allowed { Allows code.now (net_of code.now.seen parts.old) choice.now }
    ensures acts { IfOk result (λ made. Acts code.now (net_of code.now.seen parts.old) choice.now
        made.1 (net_of code.now.seen parts.new)) }
    ensures sent_by { IfOk result (λ made.
        IsSentBy (net_of code.now.seen parts.old) choice.now made.0) }
    ensures whole { IfOk result (λ made. (events : ℕ) → events < 2 ^ 32
        → IsWhole code.now parts.old events
        → IsWhole code.now parts.new (events + counted made.1)) }
    ensures err { OnErr result ((events : ℕ) → IsWhole code.now parts.old events
        → IsWhole code.now parts.new events) }
    ensures same { OnErr result (net_of code.now.seen parts.new
        ≡ net_of code.now.seen parts.old) }
{
    match choice {
        Choice::React { site, pick } => {
            let event = react_pick(alloc, parts, code, *site, pick)?;
            Ok((*site, Some(event)))
        }
        Choice::Deliver { flight } => {
            let target = deliver_flight(alloc, parts, *flight)?;
            Ok((target, None))
        }
        Choice::Move { .. } | Choice::Halt { .. } | Choice::Detect { .. } => {
            let number = met_by(parts.sites.as_slice(), &parts.tree, parts.version, choice);
            let (sender, event) = meet(alloc, parts, code, choice, number)?;
            Ok((sender, Some(event)))
        }
    }
}

// Makes an enabled choice, and notes which site sent what it sends. Where there is no memory,
// nothing changes.
fn make_noted(
    alloc: Global,
    parts: &mut Parts,
    senders: &mut VecDeque<Run>,
    code: &Code,
    choice: &Choice,
) -> Result<Option<Event>, Memory>
    requires whole { (events : ℕ) × (events < 2 ^ 32)
        × IsNetWhole code.now parts.old senders.old.items events }
    requires allowed { Allows code.now (net_of code.now.seen parts.old) choice.now }
    ensures made { IfOk result (λ o. IsMadeNoted code.now parts.old (spread senders.old.items)
        choice.now o parts.new (spread senders.new.items)) }
    ensures whole { IfOk result (λ o. (events : ℕ) → events < 2 ^ 32
        → IsNetWhole code.now parts.old senders.old.items events
        → IsNetWhole code.now parts.new senders.new.items (events + counted o)) }
    ensures err { OnErr result ((events : ℕ)
        → IsNetWhole code.now parts.old senders.old.items events
        → IsNetWhole code.now parts.new senders.new.items events) }
    ensures same { OnErr result (net_of code.now.seen parts.new
        ≡ net_of code.now.seen parts.old) }
    ensures same_senders { OnErr result (spread senders.new.items ≡ spread senders.old.items) }
{
    senders.reserve(1)?;
    let before = parts.under_way;
    let (sender, event) = make(alloc, parts, code, choice)?;
    note(senders, choice, sender, before, parts.under_way);
    Ok(event)
}

impl Net {
    /// Makes an enabled choice, and answers its event; a delivery has none. A packet that has to be
    /// forwarded goes behind all others, to the site that hosts its home now. What is sent is under
    /// way from the site that the choice says: that of the reaction, the one that was the packet's
    /// target, the one to which a location goes, or the one that has the request. Where there is no
    /// memory, nothing changes.
    ///
    /// The network stands for what the event leads to, from each solution for which it stood; after
    /// a delivery it stands for the same.
    pub fn act(&mut self, alloc: Global, choice: &Choice) -> Result<Option<Event>, Memory>
        requires enabled { Allows self.old.code self.old.net choice.now }
        requires few { self.old.events < 2 ^ 32 - 1 }
        ensures ok { IfOk result (λ o. HasActed self.old choice.now o self.new) }
        ensures err { OnErr result (self.new ≡ self.old) }
    {
        self.asked.clear();
        forget(&mut self.idle, choice);
        self.acted = true;
        match make_noted(
            alloc,
            &mut self.parts,
            &mut self.senders,
            &self.code,
            choice,
        )? {
            Some(event) => {
                self.events += 1;
                Ok(Some(event))
            }
            None => Ok(None),
        }
    }
}
