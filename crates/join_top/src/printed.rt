// The whole text of a run.
ghost use Rattle.std.specs.Prelude.{◌≡◌, ◌≤◌, length, IfOk};
ghost use Rattle.join_top.specs.Printed.{counts_text};
ghost use Rattle.join_top.specs.inside.Ran.{WhereRead, IsWholeOfBook};

use chem_model::{Items, Memory, Text};
use join_words::Asked;
use std::alloc::Global;
use trace_history::Book;
use trace_text::{Ending, log_bytes, push_all, push_ending, push_number, trace_bytes};

// What is printed of a run: of a ring its counts, and else its log where that is asked for, or its
// trace.
pub fn printed(
    alloc: Global,
    asked: &Asked,
    source: &[u8],
    book: &Book,
    ending: Ending,
) -> Result<Text, Memory>
    requires source { WhereRead asked.now.ring (length source.now ≤ 1048576) }
    requires budget { asked.now.budget ≤ 4000000 }
    requires events { length book.now.journal ≤ asked.now.budget }
    ensures { IfOk result (IsWholeOfBook asked.now source.now book.now ending) }
{
    match asked.ring {
        Some(_) => {
            let events = book.journal().len() as u64;
            counts_text(alloc, events, book.trace().len() as u64, ending)
        }
        None if asked.log => log_bytes(alloc, source, asked.budget, book, ending),
        None => trace_bytes(alloc, book, ending),
    }
}

// How many events and observables there were, and how the run ended.
fn counts_text(alloc: Global, events: u64, observables: u64, ending: Ending) -> Result<Text, Memory>
    ensures { IfOk result (λ text. text ≡ counts_text events observables ending) }
{
    let mut text = Items::new(alloc);
    push_all(&mut text, b"events ")?;
    push_number(&mut text, events)?;
    push_all(&mut text, b"\nobservables ")?;
    push_number(&mut text, observables)?;
    push_all(&mut text, b"\n")?;
    push_ending(&mut text, ending)?;
    Ok(text)
}
