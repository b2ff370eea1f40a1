// The log of a run: the source, the budget, the events and the trace.
ghost use Rattle.std.specs.Prelude.{◌≡◌, ◌≤◌, ◌++◌, length, codes, decimal, IfOk, OnOk};
ghost use Rattle.chem_model.specs.Each.{Each};
ghost use Rattle.trace_text.specs.LogText.{LogParts, HasOneSpelling, IsPair, IsAtom, pair_text};
ghost use Rattle.trace_text.specs.LogText.{atoms_text, event_text, events_text, beginning};
ghost use Rattle.trace_text.specs.LogText.{log_text};
ghost use Rattle.trace_text.specs.Bounds.{IsBounded};
ghost use Rattle.trace_text.specs.inside.Bounds.{TakesSome};
ghost use Rattle.trace_text.specs.Printed.{IsLogOf};

use crate::text::{Ending, push_all, push_number};
use crate::trace::trace_bytes;
use chem_laws::{event_is_a_reduction, opening_is_a_start};
use chem_model::{Atoms, Event, Items, Journal, Memory, Text};
use std::alloc::Global;
use trace_history::Book;

/// The log of a run: its source, its budget of events, the journal of its book, and the text of its
/// trace, where it ends so.
///
/// Source and trace stand there as they are, each behind its length in bytes, and the journal
/// behind its length in events.
pub fn log_bytes(
    alloc: Global,
    source: &[u8],
    budget: u32,
    book: &Book,
    ending: Ending,
) -> Result<Text, Memory>
    requires source { length source.now ≤ 1048576 }
    requires budget { budget ≤ 4000000 }
    requires events { length book.now.journal ≤ budget }
    ensures { IfOk result (λ text. IsLogOf source.now budget book.now ending text) }
{
    each_reaction_takes(book);
    let trace = trace_bytes(alloc, book, ending)?;
    log_of_parts(alloc, source, budget, book.journal(), trace.as_slice())
}

// Each reaction of a book's journal takes an atom. It does nothing.
fn each_reaction_takes(book: &Book)
    ensures { Each TakesSome book.now.journal }
{
    book.replays();
    let program = book.program();
    let _ = &program.tops;
    opening_is_a_start();
    event_is_a_reduction();
}

/// The text of the log of these parts, the last of which is the text of a trace, whether or not the
/// events are a run of the source. It fails for want of memory alone.
pub fn log_of_parts(
    alloc: Global,
    source: &[u8],
    budget: u32,
    journal: &Journal,
    trace: &[u8],
) -> Result<Text, Memory>
    ensures is { IfOk result (λ text. text ≡ log_text (record {
      source = source.now;
      budget = budget;
      events = journal.now;
      trace = trace.now;
    })) }
    ensures bounded { OnOk result (Each IsBounded journal.now) }
{
    let mut text = Items::new(alloc);
    push_counted(&mut text, beginning(budget), source)?;
    push_field(&mut text, b"\nbudget ", budget as u64)?;
    push_field(&mut text, b"\nevents ", journal.len() as u64)?;
    push_all(&mut text, b"\n")?;
    push_events(&mut text, journal)?;
    push_counted(&mut text, b"trace ", trace)?;
    Ok(text)
}

/// Each log has at most one spelling.
pub fn one_spelling()
    ensures { (log : LogParts) → HasOneSpelling log }
{}

// How the log of a run with this budget begins.
#[tactic(auto, unfolding(crate::specs::LogText::beginning))]
fn beginning(budget: u32) -> &'static [u8]
    ensures { result.now ≡ beginning budget }
{
    if budget > 1_000_000 {
        b"joinlog 2\nsource "
    } else {
        b"joinlog 1\nsource "
    }
}

// Appends a literal, and a number behind it.
fn push_field(text: &mut Text, literal: &[u8], number: u64) -> Result<(), Memory>
    ensures { OnOk result (text.new ≡ text.old ++ literal.now ++ decimal number) }
{
    push_all(text, literal)?;
    push_number(text, number)
}

// Appends a literal, and behind it how many bytes there are, and on a new line the bytes.
fn push_counted(text: &mut Text, literal: &[u8], bytes: &[u8]) -> Result<(), Memory>
    ensures { OnOk result (text.new ≡
        text.old ++ literal.now ++ decimal (length bytes.now) ++ codes "\n" ++ bytes.now) }
{
    push_field(text, literal, bytes.len() as u64)?;
    push_all(text, b"\n")?;
    push_all(text, bytes)
}

// Appends a line for each event.
fn push_events(text: &mut Text, journal: &Journal) -> Result<(), Memory>
    ensures is { OnOk result (text.new ≡ text.old ++ events_text journal.now) }
    ensures bounded { OnOk result (Each IsBounded journal.now) }
{
    for event in journal.as_slice() {
        push_event(text, event)?;
    }
    Ok(())
}

// Appends the line of an event.
fn push_event(text: &mut Text, event: &Event) -> Result<(), Memory>
    ensures is { OnOk result (text.new ≡ text.old ++ event_text event.now) }
    ensures bounded { OnOk result (IsBounded event.now) }
{
    match event {
        Event::React { rule, took } => {
            push_all(text, b"react ")?;
            push_pair(text, rule.site, rule.k)?;
            push_atoms(text, took)?;
        }
        Event::Move { atom } => {
            push_all(text, b"move ")?;
            push_pair(text, atom.site, atom.k)?;
        }
        Event::Halt { atom } => {
            push_all(text, b"halt ")?;
            push_pair(text, atom.site, atom.k)?;
        }
        Event::Detect { atom } => {
            push_all(text, b"detect ")?;
            push_pair(text, atom.site, atom.k)?;
        }
    }
    push_all(text, b"\n")
}

// Appends each atom after one space.
fn push_atoms(text: &mut Text, atoms: &Atoms) -> Result<(), Memory>
    ensures is { OnOk result (text.new ≡ text.old ++ atoms_text atoms.now) }
    ensures bounded { OnOk result (Each IsAtom atoms.now) }
{
    for atom in atoms.as_slice() {
        push_all(text, b" ")?;
        push_pair(text, atom.site, atom.k)?;
    }
    Ok(())
}

// Appends a pair: its site and its number, with a point between.
fn push_pair(text: &mut Text, site: u32, k: u64) -> Result<(), Memory>
    ensures is { OnOk result (text.new ≡ text.old ++ pair_text site k) }
    ensures bounded { IsPair site k }
{
    push_number(text, site as u64)?;
    push_all(text, b".")?;
    push_number(text, k)
}
