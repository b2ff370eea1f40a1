// One log, from its source to the sinks.
ghost use Rattle.std.specs.Prelude.{◌≡◌, ◌⊎◌, true, false, codes, IfOk};
ghost use Rattle.join_base.specs.Counts.{Rose};
ghost use Rattle.text_program.specs.Streams.{Gains, line_of};
ghost use Rattle.text_program.specs.Text.{refusal_line as line_of_refusal};
ghost use Rattle.log_judge.specs.Judged.{wrong_line, has_verdict, IsLogStatus, IsLogReadAt};
ghost use Rattle.log_judge.specs.Judged.{IsRefusedLog, IsNoLog, WritesVerdict};
ghost use Rattle.log_judge.specs.inside.Ends.{Tells, TellsLog, Refuses, TellsStop, IsEnd};

use crate::ask::Ask;
use crate::log::{LogStop, log_of};
use crate::told::{Told, told_of};
use chem_model::{Items, Memory, Text};
use join_base::{Front, Kind, ReadEnd, Sink, Source, write_piece};
use std::alloc::Global;
use text_program::{refusal_line, status_line, write_line};
use trace_text::{LogEnd, push_all, push_number};

const REFUSED: u8 = 1;

const READ_FAULT: u8 = 3;

const WRITE_FAULT: u8 = 4;

const OUT_OF_MEMORY: u8 = 6;

const NO_LOG: u8 = 8;

/// Reads one log and tells what is wanted of it. Answers the status.
///
/// | status | comes |
/// |---|---|
/// | 0 | the log is that of a run, and what is told was written |
/// | 1 | the source within the log is refused |
/// | 3 | a read failed |
/// | 4 | a write on `out` failed |
/// | 6 | memory ran out |
/// | 7 | the log is that of no run, and what is told was written |
/// | 8 | the bytes are no log, or too many |
pub fn judge_log<S: Source, K: Sink, E: Sink>(
    alloc: Global,
    ask: Ask,
    source: &mut S,
    out: &mut K,
    err: &mut E,
) -> u8
    ensures known { IsLogStatus result }
    ensures read_fault { result ≡ 3 → Rose (S.faults source.old) (S.faults source.new) }
    ensures reads { IsLogReadAt result (S.left source.old) (S.left source.new) }
    ensures refusal { result ≡ 1 →
        IsRefusedLog (S.left source.old) (Gains E.held E.faults err.old err.new) }
    ensures no_log { result ≡ 8 → IsNoLog (S.left source.old) (S.left source.new)
        (Gains E.held E.faults err.old err.new) }
    ensures verdict { has_verdict result ≡ true →
        WritesVerdict ask (S.left source.old) result (K.held out.old) (K.held out.new) }
    ensures write_fault { result ≡ 4 → Rose (K.faults out.old) (K.faults out.new) }
    ensures out_untouched { has_verdict result ≡ false → out.new ≡ out.old }
    ensures line { (result ≡ 1) ⊎ ((result ≡ 8)
        ⊎ Gains E.held E.faults err.old err.new (line_of result)) }
    ensures silent { (result ≡ 0) ⊎ (result ≡ 7) → err.new ≡ err.old }
{
    judge(alloc, ask, source, out, err)
}

// The same, as one of the ways in which it ends.
fn judge<S: Source, K: Sink, E: Sink>(
    alloc: Global,
    ask: Ask,
    source: &mut S,
    out: &mut K,
    err: &mut E,
) -> u8
    ensures { IsEnd ask (S.left source.old) (S.left source.new)
        (Rose (S.faults source.old) (S.faults source.new))
        (K.held out.old) (K.held out.new) (Rose (K.faults out.old) (K.faults out.new))
        (out.new ≡ out.old) (Gains E.held E.faults err.old err.new) (err.new ≡ err.old) result }
{
    match log_of(alloc, source) {
        Ok(log) => {
            let told = told_of(alloc, ask, log);
            tell_log(alloc, told, out, err)
        }
        Err(stop) => tell_stop(alloc, err, stop),
    }
}

// Writes what is told of a log, or the line that tells why there is nothing to tell.
fn tell_log<K: Sink, E: Sink>(
    alloc: Global,
    told: Result<Told, Front>,
    out: &mut K,
    err: &mut E,
) -> u8
    ensures { TellsLog told (K.held out.old) (K.held out.new)
        (Rose (K.faults out.old) (K.faults out.new)) (out.new ≡ out.old)
        (Gains E.held E.faults err.old err.new) (err.new ≡ err.old) result }
{
    match told {
        Ok(told) => write_told(out, err, &told),
        Err(Front::Refused { kind, place }) => refuse(alloc, err, kind, place),
        Err(Front::Memory) => end(err, OUT_OF_MEMORY),
    }
}

// Writes what is told, and answers the status that goes with it.
fn write_told<K: Sink, E: Sink>(out: &mut K, err: &mut E, told: &Told) -> u8
    ensures { Tells told.now.text told.now.status (K.held out.old) (K.held out.new)
        (Rose (K.faults out.old) (K.faults out.new))
        (Gains E.held E.faults err.old err.new) (err.new ≡ err.old) result }
{
    match write_piece(out, told.text.as_slice()) {
        Ok(()) => told.status,
        Err(_) => end(err, WRITE_FAULT),
    }
}

// Writes the line that tells why there is no log.
fn tell_stop<E: Sink>(alloc: Global, err: &mut E, stop: LogStop) -> u8
    ensures { TellsStop stop (Gains E.held E.faults err.old err.new) result }
{
    match stop {
        LogStop::Source(ReadEnd::TooLong) => too_long(err),
        LogStop::Source(ReadEnd::ReadFault) => end(err, READ_FAULT),
        LogStop::Source(ReadEnd::Memory) => end(err, OUT_OF_MEMORY),
        LogStop::Log(LogEnd::Bad { place }) => no_log(alloc, err, place),
        LogStop::Log(LogEnd::Memory) => end(err, OUT_OF_MEMORY),
    }
}

// Writes the line of bytes that are too many, which takes no memory.
fn too_long<E: Sink>(err: &mut E) -> u8
    ensures status { result ≡ 8 }
    ensures line { Gains E.held E.faults err.old err.new (codes "log 2 at 134217728\n") }
{
    write_line(err, b"log 2 at 134217728\n");
    NO_LOG
}

// Writes the line of bytes that are no log.
fn no_log<E: Sink>(alloc: Global, err: &mut E, place: u64) -> u8
    ensures { Refuses 8 (wrong_line place) (Gains E.held E.faults err.old err.new) result }
{
    match wrong_line(alloc, place) {
        Ok(line) => {
            write_line(err, line.as_slice());
            NO_LOG
        }
        Err(_) => end(err, OUT_OF_MEMORY),
    }
}

// The line of bytes that are no log.
fn wrong_line(alloc: Global, place: u64) -> Result<Text, Memory>
    ensures { IfOk result (λ line. line ≡ wrong_line place) }
{
    let mut line = Items::new(alloc);
    push_all(&mut line, b"log 1 at ")?;
    push_number(&mut line, place)?;
    push_all(&mut line, b"\n")?;
    Ok(line)
}

// Writes the line of a refusal.
fn refuse<E: Sink>(alloc: Global, err: &mut E, kind: Kind, place: u32) -> u8
    ensures { Refuses 1 (line_of_refusal kind place) (Gains E.held E.faults err.old err.new) result }
{
    match refusal_line(alloc, kind, place) {
        Ok(line) => {
            write_line(err, line.as_slice());
            REFUSED
        }
        Err(_) => end(err, OUT_OF_MEMORY),
    }
}

// Writes the line that goes with a status.
fn end<E: Sink>(err: &mut E, status: u8) -> u8
    ensures status { result ≡ status }
    ensures line { Gains E.held E.faults err.old err.new (line_of status) }
{
    write_line(err, status_line(status));
    status
}
