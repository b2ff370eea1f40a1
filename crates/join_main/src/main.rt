//! Runs a program of the distributed join calculus: reads its text from standard input and prints
//! what it shows.
#![tactic(auto)]

use join_base::{StdSink, StdSource};
use join_top::{OpenGate, Threaded, run_join};
use std::process::ExitCode;
use std::{env, io};

// The status and the line for words that are no line. A word that isn't text never reaches the top
// call.
const USAGE: u8 = 2;

const USAGE_LINE: &str = "usage: join MODE [N] [OPTIONS]";

// The status and the line where memory ran out before the top call.
const OUT_OF_MEMORY: u8 = 6;

const OUT_OF_MEMORY_LINE: &str = "out of memory";

// The words after the program's name.
fn words_after_name(rt: &HostRuntime) -> io::Result<Vec<String>> {
    let mut words = env::args(rt)?;
    let _name = words.next();
    Ok(words.collect(rt.alloc())?)
}

fn main(rt: HostRuntime) -> ExitCode {
    let words = match words_after_name(&rt) {
        Ok(words) => words,
        Err(error) if error.kind() == io::ErrorKind::OutOfMemory => {
            let _ = rt.eprintln(OUT_OF_MEMORY_LINE);
            return ExitCode::from(OUT_OF_MEMORY);
        }
        Err(_) => {
            let _ = rt.eprintln(USAGE_LINE);
            return ExitCode::from(USAGE);
        }
    };
    let mut source = StdSource::new(rt.stdin());
    let mut out = StdSink::new(rt.stdout());
    let mut err = StdSink::new(rt.stderr());
    let ended = run_join(
        rt.alloc(),
        words.as_slice(),
        &mut source,
        &mut out,
        &mut err,
        &OpenGate,
        &Threaded::new(&rt),
    );
    let status = ended.status;
    drop(ended);
    ExitCode::from(status)
}
