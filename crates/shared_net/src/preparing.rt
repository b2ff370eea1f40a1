// What stands behind the locks of a run at its opening.
ghost use Rattle.std.specs.Prelude.{◌≡◌, ◌≤◌, [], length, IfOk, OnOk};
ghost use Rattle.chem_model.specs.Each.{Each};
ghost use Rattle.chem_model.specs.Opening.{opening};
ghost use Rattle.chem_model.specs.ProgramFacts.{IsProgram};
ghost use Rattle.env_store.specs.Reading.{IsCodeOf};
ghost use Rattle.env_store.specs.Laws.{rules_of_group};
ghost use Rattle.net_laws.specs.Net.{Stands};
ghost use Rattle.net_laws.specs.Opened.{opened_net};
ghost use Rattle.shared_net.specs.inside.Beginning.{with_text, with_flights, with_sends};
ghost use Rattle.shared_net.specs.inside.Beginning.{AreFirstMails};
ghost use Rattle.site_turn.specs.Mail.{IsMessageText};
ghost use Rattle.shared_net.specs.Passes.{new_passes};
ghost use Rattle.shared_net.specs.Preparing.{IsOpenedAs};

use crate::lists::{Mails, Sites};
use crate::locked::{Locked, open};
use crate::pass::Passes;
use crate::run::Run;
use chem_model::{Items, Memory, Program, Text, Texts};
use env_store::Code;
use loc_tree::LocTree;
use site_solution::Effects;
use site_turn::open_sites;
use std::alloc::Global;
use std::collections::VecDeque;
use std::sync::ledger::Blank;
use trace_history::Book;
use wire_packet::Flights;

/// What stands behind the locks of a run: the tree, the sites with their mail, and the book.
#[derive(Drop)]
pub struct Opened<L: Run> {
    pub tree: LocTree,
    pub sites: Sites,
    pub mail: Mails,
    pub locked: Locked<L>,
}

// ---- mail

// A mail without a text for each of so many sites.
fn empty_mails(alloc: Global, count: usize) -> Result<Vec<Texts>, Memory>
    ensures count { IfOk result (λ mails. length mails.items ≡ count) }
    ensures none { IfOk result (λ mails. Each (λ mail. mail ≡ []) mails.items) }
{
    let mut mails = Vec::new(alloc);
    for _site in 0..count {
        mails.push(Items::new(alloc))?;
    }
    Ok(mails)
}

// Adds a text to the mail of the site with this number, if there is one.
fn add_text(mails: &mut [Texts], target: u32, text: Text) -> Result<(), Memory>
    ensures { OnOk result (mails.new ≡ with_text target text mails.old) }
{
    let at = target as usize;
    if at >= mails.len() {
        return Ok(());
    }
    mails[at].push(text)
}

// Moves what flights carry to the mail of their targets.
fn add_flights(mails: &mut [Texts], flights: Flights) -> Result<(), Memory>
    ensures { OnOk result (mails.new ≡ with_flights flights mails.old) }
{
    for flight in flights.into_vec() {
        add_text(mails, flight.target, flight.bytes)?;
    }
    Ok(())
}

// Moves what the openings of sites send, in order, to the mail of the targets.
fn add_handed(mails: &mut [Texts], handed: &mut VecDeque<Effects>) -> Result<(), Memory>
    ensures { OnOk result (mails.new ≡ with_sends handed.old.items mails.old) }
{
    while let Some(effects) = handed.pop_front() {
        add_flights(mails, effects.sends)?;
    }
    Ok(())
}

// The mail of each of so many sites, once what the openings send is there.
fn first_mails(
    alloc: Global,
    count: usize,
    handed: &mut VecDeque<Effects>,
) -> Result<Vec<Texts>, Memory>
    ensures { IfOk result (λ mails. AreFirstMails count handed.old.items mails.items) }
{
    let mut mails = empty_mails(alloc, count)?;
    match add_handed(&mut mails, handed) {
        Ok(()) => Ok(mails),
        Err(memory) => {
            drop(mails);
            Err(memory)
        }
    }
}

// A program's book without an event, and new passes.
fn open_book<L: Run>(
    alloc: Global,
    program: &Program,
    passes: u32,
    budget: u32,
    blank: Blank,
) -> Result<(Locked<L>, Passes<L>), Memory>
    requires name { blank.name ≡ L.name }
    requires parts { blank.parts ≡ L.parts }
    requires one_each { blank.parts ≡ passes }
    requires program { program.now ≡ L.program }
    ensures book { IfOk result (λ r. r.0.book ≡ record { program = program.now; journal = [] }) }
    ensures passes { IfOk result (λ r. r.1 ≡ new_passes budget 1 passes) }
{
    let mut book = Book::start(alloc, program)?;
    book.expect_searches(false);
    open(alloc, blank, book, passes, budget)
}

// The network that a program's code opens stands for the program's opening. It does nothing.
fn opened_stands(program: &Program, code: &Code)
    requires { IsCodeOf program.now code.now }
    ensures is { IsProgram program.now }
    ensures stands { Stands (rules_of_group program.now)
        (opened_net program.now.version code.now) (opening program.now) }
{
    let _tops = &program.tops;
    let _known = &code.tops;
}

/// What stands behind the locks at a program's opening: the tree, the sites and the book are those
/// of the opening, and what the openings of the sites send is the mail of their targets, in order.
/// With it come new passes, numbered from 1. The blank ledger has a part for each.
pub fn prepare<L: Run>(
    alloc: Global,
    program: &Program,
    code: &Code,
    passes: u32,
    budget: u32,
    blank: Blank,
) -> Result<(Opened<L>, Passes<L>), Memory>
    requires code { IsCodeOf program.now code.now }
    requires passes { (1 ≤ passes) × (passes ≤ 16) }
    requires budget { budget ≤ 4000000 }
    requires name { blank.name ≡ L.name }
    requires parts { blank.parts ≡ L.parts }
    requires one_each { blank.parts ≡ passes }
    requires program { program.now ≡ L.program }
    ensures opened { IfOk result (λ r.
        IsOpenedAs program.now.version code.now r.0.tree r.0.sites r.0.mail) }
    ensures stands { IfOk result (λ _. Stands (rules_of_group program.now)
        (opened_net program.now.version code.now) (opening program.now)) }
    ensures book { IfOk result (λ r.
        r.0.locked.book ≡ record { program = program.now; journal = [] }) }
    ensures mail { IfOk result (λ r. Each (Each IsMessageText) r.0.mail) }
    ensures passes { IfOk result (λ r. r.1 ≡ new_passes budget 1 passes) }
{
    opened_stands(program, code);
    let mut opened = open_sites(alloc, code)?;
    let mails = first_mails(alloc, opened.sites.len(), &mut opened.handed)?;
    let (locked, passes) = open_book(alloc, program, passes, budget, blank)?;
    let opened = Opened {
        tree: opened.tree,
        sites: Sites::from_vec(opened.sites),
        mail: Mails::from_vec(mails),
        locked,
    };
    Ok((opened, passes))
}
