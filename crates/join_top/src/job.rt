//! What is read before a run: the words, the text, and its program.
ghost use Rattle.std.specs.Prelude.{IfOk, IfErr};
ghost use Rattle.join_top.specs.inside.Job.{IsJob, IsStop};

use crate::task::{task, text_run};
use chem_model::{Program, Text};
use join_base::{Front, ReadEnd, Source};
use join_words::Asked;
use std::alloc::Global;
use text_program::program_of;

// What a run begins with: what the words ask for, the text that is run, and its program.
#[derive(Drop)]
pub struct Begun {
    pub asked: Asked,
    pub text: Text,
    pub program: Program,
}

// Why there is no job.
pub enum Stop {
    // The words are not of the line's form.
    Form,
    // There is no memory for what the words ask for.
    Memory,
    // The source gives no text.
    Source(ReadEnd),
    // The text has no program.
    Text(Front),
}

// Reads what the words ask for, the text that is run, and its program.
pub fn read_job<S: Source>(alloc: Global, words: &[String], source: &mut S) -> Result<Begun, Stop>
    ensures job { IfOk result (IsJob S words.now S.left source.old source.new) }
    ensures stop { IfErr result (IsStop words.now S.left S.faults source.old source.new) }
{
    let asked = match task(alloc, words) {
        Ok(Some(asked)) => asked,
        Ok(None) => return Err(Stop::Form),
        Err(_) => return Err(Stop::Memory),
    };
    let text = match text_run(alloc, asked.ring, source) {
        Ok(text) => text,
        Err(end) => return Err(Stop::Source(end)),
    };
    match program_of(alloc, text.as_slice()) {
        Ok(program) => Ok(Begun {
            asked,
            text,
            program,
        }),
        Err(front) => {
            drop(text);
            Err(Stop::Text(front))
        }
    }
}
