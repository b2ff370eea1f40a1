//! A run, from its program to its text.
ghost use Rattle.std.specs.Prelude.{◌≡◌, ◌≤◌, length, IfOk};
ghost use Rattle.join_words.specs.Asks.{IsWithin};
ghost use Rattle.join_top.specs.RunJoin.{IsMadeBy};
ghost use Rattle.join_top.specs.inside.Ran.{WhereRead, ending_of, IsEnded};

use crate::making::make;
use crate::printed::printed;
use chem_model::{Journal, Memory, Program, Text};
use join_words::Asked;
use shared_net::Gate;
use site_runner::{FreeTeam, How, Team};
use std::alloc::Global;
use trace_text::Ending;

/// What a run leaves: the program of the text that was run, its events, and how it was made.
#[derive(Drop)]
pub struct Kept {
    pub program: Program,
    pub journal: Journal,
    pub how: How,
}

// A run, its text, and how it ended.
#[derive(Drop)]
pub struct Ran {
    pub kept: Kept,
    pub text: Text,
    pub ending: Ending,
}

// How a run ended, by whether nothing can happen any more.
fn ending_of(quiet: bool) -> Ending
    ensures { result ≡ ending_of quiet }
{
    if quiet {
        Ending::Quiescent
    } else {
        Ending::Stopped
    }
}

// Runs the program of a source as it is asked for.
pub fn run<G: Gate, T: Team + FreeTeam<G>>(
    alloc: Global,
    asked: &Asked,
    source: &[u8],
    program: &Program,
    gate: &G,
    team: &T,
) -> Result<Ran, Memory>
    requires ready { T.ready }
    requires free_ready { T.free_ready }
    requires source { WhereRead asked.now.ring (length source.now ≤ 1048576) }
    requires within { IsWithin asked.now }
    ensures program { IfOk result (λ ran. ran.kept.program ≡ program.now) }
    ensures ended { IfOk result (λ ran. IsEnded asked.now source.now ran.kept ran.text ran.ending) }
    ensures made { IfOk result (λ ran.
        IsMadeBy asked.now.by asked.now.workers asked.now.budget asked.now.loss program.now
        ran.kept.journal ran.kept.how) }
{
    let done = make(alloc, asked, program, gate, team)?;
    done.book.replays();
    done.book.is_a_run();
    let ending = ending_of(done.book.quiet());
    let text = match printed(alloc, asked, source, &done.book, ending) {
        Ok(text) => text,
        Err(memory) => {
            drop(done);
            return Err(memory);
        }
    };
    let how = done.how;
    let (program, journal) = done.book.into_parts();
    let kept = Kept {
        program,
        journal,
        how,
    };
    Ok(Ran { kept, text, ending })
}
