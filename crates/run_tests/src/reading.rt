// What a log and a source have by a small reader: the trace and how much is left, and the first
// name that wants a sort.

use chem_model::{Memory, Program};
use chem_plain::replay;
use std::alloc::{AllocError, Global};
use std::test::Fail;
use trace_text::{Log, read_log};
use worked_programs::program_of;

pub fn log_in(alloc: Global, bytes: &[u8]) -> Result<Box<Log>, Fail> {
    let log = read_log(alloc, bytes).or(Err("it is no log"))?;
    Ok(Box::new(alloc, log)?)
}

fn program_in(alloc: Global, log: &Log) -> Result<Box<Program>, Fail> {
    Ok(program_of(alloc, log.source.as_slice()).or(Err("the source has no program"))?)
}

// How many messages and requests the plain program leaves behind the events of a log.
fn count_left(alloc: Global, program: &Program, log: &Log) -> Result<Option<usize>, Memory> {
    let reached = replay(alloc, program, &log.events)?;
    Ok(reached.map(|solution| solution.atoms.len()))
}

// How many messages and requests are left at the end of a log.
pub fn left_in(alloc: Global, bytes: &[u8]) -> Result<usize, Fail> {
    let log = log_in(alloc, bytes)?;
    let program = program_in(alloc, &log)?;
    Ok(count_left(alloc, &program, &log)?.ok_or("an event isn't possible")?)
}

// Whether this tells so many messages and requests, each in a line, and their number in the last
// one.
pub fn tells(alloc: Global, told: &[u8], left: usize) -> Result<bool, AllocError> {
    let last = format!(in alloc; "left {left}\n")?;
    let lines = told.iter().filter(|byte| **byte == b'\n').count();
    Ok(told.ends_with(last.as_bytes()) && lines == left.saturating_add(1))
}

// Whether something is told for which an event is possible.
pub fn tells_ready(told: &[u8]) -> bool {
    told.split(|byte| *byte == b'\n')
        .any(|line| line.ends_with(b" ready"))
}

fn is_of_a_word(byte: u8) -> bool {
    byte.is_ascii_alphanumeric() || byte == b'_'
}

// The place of the first name of a program without sort lines that wants a sort: that of the first
// declaration, which stands before all channels, or else of the first channel, which is the first
// word that a parenthesis follows.
pub fn wants_a_sort(source: &[u8]) -> Option<usize> {
    let mut word = 0;
    let mut is_in_word = false;
    let mut is_in_comment = false;
    for (at, byte) in source.iter().enumerate() {
        if is_in_comment {
            is_in_comment = *byte != b'\n';
        } else if is_of_a_word(*byte) {
            if !is_in_word {
                word = at;
            }
            is_in_word = true;
        } else {
            if is_in_word && *byte == b'(' {
                return Some(word);
            }
            if is_in_word && source.get(word..at) == Some(b"observe".as_slice()) {
                return Some(at.wrapping_add(1));
            }
            is_in_word = false;
            is_in_comment = *byte == b'#';
        }
    }
    None
}
