// The run on one thread.
ghost use Rattle.std.specs.Prelude.{◌≡◌, [], ◌<◌, ◌≤◌, ◌^◌, length, IfOk, OnOk, OnErr};
ghost use Rattle.trace_history.specs.Book.{IsStuck};
ghost use Rattle.site_runner.specs.Schedule.{after, ScheduleOf, HasOneSchedule};
ghost use Rattle.site_runner.specs.Run.{RunsOn};
ghost use Rattle.site_runner.specs.declared.outcome.How.TheVariants as how;

use crate::outcome::{Done, How};
use chem_laws::{event_is_a_reduction, opening_is_a_start};
use chem_model::Memory;
use std::alloc::Global;
use trace_history::{Book, Found};

// The site whose turn comes after this one.
fn after(sites: usize, site: u32) -> u32
    requires within { site < sites }
    requires short { sites < 2 ^ 32 }
    ensures after { result ≡ after sites site }
    ensures within { result < sites }
{
    if site as usize + 1 == sites {
        0
    } else {
        site + 1
    }
}

// Makes the event that comes first, from the site after the last one's, until none is possible or
// the journal has `budget` events. It begins at the first site.
fn run_on(alloc: Global, book: &mut Book, budget: u32) -> Result<(), Memory>
    requires { length book.old.journal ≤ budget }
    ensures run { OnOk result (RunsOn book.old budget book.new) }
    ensures whole { OnOk result (
        book.old.journal ≡ [] → ScheduleOf book.old.program budget book.new.journal) }
    ensures left { OnErr result (length book.old.journal < budget) }
    ensures possible { OnErr result (IsStuck book.old → ⊥) }
{
    book.replays();
    let program = book.program();
    let sites = program.sites.len();
    let mut from = 0;
    for _place in book.journal().len()..budget as usize {
        match book.first_enabled(alloc, from)? {
            Some(found) => {
                let Found { site, event } = found;
                let _commit = book.append(alloc, event)?;
                from = after(sites, site);
            }
            None => return Ok(()),
        }
    }
    Ok(())
}

// The run from a book, which it answers.
pub(crate) fn finish(alloc: Global, book: Book, budget: u32) -> Result<Book, Memory>
    requires { length book.journal ≤ budget }
    ensures run { IfOk result (RunsOn book budget) }
    ensures whole { IfOk result (λ end.
        book.journal ≡ [] → ScheduleOf book.program budget end.journal) }
    ensures left { OnErr result (length book.journal < budget) }
    ensures possible { OnErr result (IsStuck book → ⊥) }
{
    let mut run = book;
    match run_on(alloc, &mut run, budget) {
        Ok(()) => Ok(run),
        Err(memory) => {
            drop(run);
            Err(memory)
        }
    }
}

/// Makes the event that comes first, from the site after the last one's, until none is possible or
/// the journal has `budget` events. It begins at the first site. It fails for want of memory only
/// where the budget leaves an event and one is possible.
pub fn alone(alloc: Global, book: Book, budget: u32) -> Result<Done, Memory>
    requires { length book.journal ≤ budget }
    ensures run { IfOk result (λ done. RunsOn book budget done.book) }
    ensures whole { IfOk result (λ done.
        book.journal ≡ [] → ScheduleOf book.program budget done.book.journal) }
    ensures how { IfOk result (λ done. done.how ≡ how.Alone) }
    ensures left { OnErr result (length book.journal < budget) }
    ensures possible { OnErr result (IsStuck book → ⊥) }
{
    let book = finish(alloc, book, budget)?;
    Ok(Done {
        book,
        how: How::Alone,
    })
}

/// Each program has one schedule for each budget: the journal of its run on one thread. It does
/// nothing.
pub fn one_schedule()
    ensures { HasOneSchedule }
{
    opening_is_a_start();
    event_is_a_reduction();
}
