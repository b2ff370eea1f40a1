// The run that is asked for: on one thread, in rounds, on free threads, or over links.
ghost use Rattle.std.specs.Prelude.{◌≡◌, ◌≤◌, [], IfOk};
ghost use Rattle.guard_compile.specs.Written.{code_of};
ghost use Rattle.net_laws.specs.Opened.{opened_net};
ghost use Rattle.net_core.specs.Senders.{opened_froms};
ghost use Rattle.lossy_link.specs.OverBook as links;
ghost use Rattle.site_runner.specs.Rounds.{StandForOne};
ghost use Rattle.join_words.specs.Asks.{IsWithin};
ghost use Rattle.join_words.specs.declared.answer.By.TheVariants as by;
ghost use Rattle.join_top.specs.RunJoin.{MakesOneRun, TellsOneCount};
ghost use Rattle.join_top.specs.inside.Begun.{IsBegun};
ghost use Rattle.join_top.specs.inside.Ran.{IsRunBy};

use chem_model::{Memory, Program};
use guard_compile::compile;
use join_words::{Asked, By};
use lossy_link::{lossy, runs_over_links_are_one, runs_without_links_are_one};
use net_core::{Net, rounds_replay, schedules_of_rounds_are_one};
use shared_net::Gate;
use site_runner::{Done, FreeTeam, How, Team, alone, one_schedule};
use std::alloc::Global;
use trace_history::Book;

// Makes the run of the program that is asked for.
pub fn make<G: Gate, T: Team + FreeTeam<G>>(
    alloc: Global,
    asked: &Asked,
    program: &Program,
    gate: &G,
    team: &T,
) -> Result<Done, Memory>
    requires ready { T.ready }
    requires free_ready { T.free_ready }
    requires within { IsWithin asked.now }
    ensures { IfOk result (IsRunBy asked.now.by asked.now.workers asked.now.budget asked.now.loss
        program.now) }
{
    match asked.by {
        By::Alone => on_one_thread(alloc, asked, program),
        By::Rounds => in_rounds(alloc, asked, program, team),
        By::Run => on_free_threads(alloc, asked, program, gate, team),
        By::Lossy => over_links(alloc, asked, program),
    }
}

/// On one thread, in rounds, and over links, a program has at most one run for each budget, however
/// many workers there are and whatever is lost; over links it tells one count for each loss. It
/// does nothing.
pub fn one_run()
    ensures alone { MakesOneRun by.Alone }
    ensures rounds { MakesOneRun by.Rounds }
    ensures lossy { MakesOneRun by.Lossy }
    ensures counts { TellsOneCount }
{
    one_schedule();
    schedules_of_rounds_are_one();
    runs_without_links_are_one();
    runs_over_links_are_one();
}

// The run on one thread, from the program's book.
fn on_one_thread(alloc: Global, asked: &Asked, program: &Program) -> Result<Done, Memory>
    ensures { IfOk result (IsRunBy by.Alone asked.now.workers asked.now.budget asked.now.loss
        program.now) }
{
    let book = Book::start(alloc, program)?;
    alone(alloc, book, asked.budget)
}

/// The network of a program's code, and the program's book, before any event. They stand for one
/// solution, as the run in rounds and the one over links need it.
pub fn begin(alloc: Global, program: &Program) -> Result<(Net, Book), Memory>
    ensures one { IfOk result (λ begun. StandForOne begun.1 begun.0) }
    ensures linked { IfOk result (λ begun. links.StandForOne begun.1 begun.0) }
    ensures code { IfOk result (λ begun. begun.0.code ≡ code_of program.now) }
    ensures opened { IfOk result (λ begun.
        begun.0.net ≡ opened_net program.now.version begun.0.code) }
    ensures froms { IfOk result (λ begun.
        begun.0.froms ≡ opened_froms program.now.version begun.0.code) }
    ensures book { IfOk result (λ begun.
        begun.1 ≡ record { program = program.now; journal = [] }) }
{
    let book = Book::start(alloc, program)?;
    match net_of(alloc, program) {
        Ok(net) => Ok((net, book)),
        Err(memory) => {
            drop(book);
            Err(memory)
        }
    }
}

// The network of a program's code, before any event.
fn net_of(alloc: Global, program: &Program) -> Result<Net, Memory>
    ensures { IfOk result (IsBegun program.now) }
{
    let code = compile(alloc, program)?;
    let _known = &code.tops;
    let net = Net::start(alloc, program, &code);
    drop(code);
    net
}

// The run in rounds, from the beginning.
fn in_rounds<T: Team>(
    alloc: Global,
    asked: &Asked,
    program: &Program,
    team: &T,
) -> Result<Done, Memory>
    requires ready { T.ready }
    requires within { IsWithin asked.now }
    ensures { IfOk result (IsRunBy by.Rounds asked.now.workers asked.now.budget asked.now.loss
        program.now) }
{
    rounds_replay();
    let _tops = &program.tops;
    let (net, book) = begin(alloc, program)?;
    team.rounds(alloc, net, book, asked.workers, asked.budget)
}

// The run on free threads, from the beginning.
fn on_free_threads<G, T: FreeTeam<G>>(
    alloc: Global,
    asked: &Asked,
    program: &Program,
    gate: &G,
    team: &T,
) -> Result<Done, Memory>
    requires ready { T.free_ready }
    requires within { IsWithin asked.now }
    ensures { IfOk result (IsRunBy by.Run asked.now.workers asked.now.budget asked.now.loss
        program.now) }
{
    let code = compile(alloc, program)?;
    let done = team.free(alloc, program, &code, asked.workers, asked.budget, gate);
    drop(code);
    done
}

// The run over links, from the beginning.
fn over_links(alloc: Global, asked: &Asked, program: &Program) -> Result<Done, Memory>
    requires within { IsWithin asked.now }
    ensures { IfOk result (IsRunBy by.Lossy asked.now.workers asked.now.budget asked.now.loss
        program.now) }
{
    let (net, book) = begin(alloc, program)?;
    let (book, counts) = lossy(alloc, net, book, asked.budget, asked.loss)?;
    Ok(Done {
        book,
        how: How::Lossy {
            sent: counts.sent,
            lost: counts.lost,
            repeated: counts.repeated,
            arrived: counts.arrived,
        },
    })
}
