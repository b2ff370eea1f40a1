// One source, from its bytes to the sinks.
ghost use Rattle.std.specs.Prelude.{◌≡◌, ◌⊎◌, true, false};
ghost use Rattle.join_base.specs.Counts.{Rose};
ghost use Rattle.join_base.specs.declared.fault.Kind.TheVariants as kind;
ghost use Rattle.text_program.specs.Streams.{Gains, line_of};
ghost use Rattle.text_program.specs.Text.{refusal_line as line_of_refusal};
ghost use Rattle.sort_judge.specs.Command.{was_judged, IsSortStatus, IsSourceReadAt};
ghost use Rattle.sort_judge.specs.Command.{IsRefusedSource, WritesVerdict};
ghost use Rattle.sort_judge.specs.inside.Ends.{Tells, TellsText, Refuses, TellsEnd, IsEnd};

use crate::told::{Told, told_of};
use join_base::{Front, Kind, ReadEnd, Sink, Source, read_all, write_piece};
use std::alloc::Global;
use text_program::{refusal_line, status_line, write_line};

const REFUSED: u8 = 1;

const READ_FAULT: u8 = 3;

const WRITE_FAULT: u8 = 4;

const OUT_OF_MEMORY: u8 = 6;

// The most bytes of a text.
const MOST_BYTES: u32 = 1_048_576;

/// Reads one text and tells whether it keeps the sorts that it declares. Answers the status.
///
/// | status | comes |
/// |---|---|
/// | 0 | the text keeps its sorts, and that was written |
/// | 1 | the text is refused |
/// | 3 | a read failed |
/// | 4 | a write on `out` failed |
/// | 6 | memory ran out |
/// | 7 | the text has a fault of sorts, and the first one was written |
pub fn judge_sorts<S: Source, K: Sink, E: Sink>(
    alloc: Global,
    source: &mut S,
    out: &mut K,
    err: &mut E,
) -> u8
    ensures known { IsSortStatus result }
    ensures read_fault { result ≡ 3 → Rose (S.faults source.old) (S.faults source.new) }
    ensures reads { IsSourceReadAt result (S.left source.old) (S.left source.new) }
    ensures refusal { result ≡ 1 →
        IsRefusedSource (S.left source.old) (Gains E.held E.faults err.old err.new) }
    ensures verdict { was_judged result ≡ true →
        WritesVerdict (S.left source.old) result (K.held out.old) (K.held out.new) }
    ensures write_fault { result ≡ 4 → Rose (K.faults out.old) (K.faults out.new) }
    ensures out_untouched { was_judged result ≡ false → out.new ≡ out.old }
    ensures line { (result ≡ 1) ⊎ Gains E.held E.faults err.old err.new (line_of result) }
    ensures silent { (result ≡ 0) ⊎ (result ≡ 7) → err.new ≡ err.old }
{
    judge_source(alloc, source, out, err)
}

// The same, as one of the ways in which it ends.
fn judge_source<S: Source, K: Sink, E: Sink>(
    alloc: Global,
    source: &mut S,
    out: &mut K,
    err: &mut E,
) -> u8
    ensures { IsEnd (S.left source.old) (S.left source.new)
        (Rose (S.faults source.old) (S.faults source.new))
        (K.held out.old) (K.held out.new) (Rose (K.faults out.old) (K.faults out.new))
        (out.new ≡ out.old) (Gains E.held E.faults err.old err.new) (err.new ≡ err.old) result }
{
    match read_all(alloc, source, MOST_BYTES) {
        Ok(text) => {
            let told = told_of(alloc, text);
            tell_text(alloc, told, out, err)
        }
        Err(end) => tell_end(err, end),
    }
}

// Writes what is told of a text, or the line that tells why there is nothing to tell.
fn tell_text<K: Sink, E: Sink>(
    alloc: Global,
    told: Result<Told, Front>,
    out: &mut K,
    err: &mut E,
) -> u8
    ensures { TellsText told (K.held out.old) (K.held out.new)
        (Rose (K.faults out.old) (K.faults out.new)) (out.new ≡ out.old)
        (Gains E.held E.faults err.old err.new) (err.new ≡ err.old) result }
{
    match told {
        Ok(told) => write_told(out, err, &told),
        Err(Front::Refused { kind, place }) => refuse(alloc, err, kind, place),
        Err(Front::Memory) => end(err, OUT_OF_MEMORY),
    }
}

// Writes what is told, and answers the status that goes with it.
fn write_told<K: Sink, E: Sink>(out: &mut K, err: &mut E, told: &Told) -> u8
    ensures { Tells told.now.text told.now.status (K.held out.old) (K.held out.new)
        (Rose (K.faults out.old) (K.faults out.new))
        (Gains E.held E.faults err.old err.new) (err.new ≡ err.old) result }
{
    match write_piece(out, told.text.as_slice()) {
        Ok(()) => told.status,
        Err(_) => end(err, WRITE_FAULT),
    }
}

// Writes the line that tells why there is no text.
fn tell_end<E: Sink>(err: &mut E, reason: ReadEnd) -> u8
    ensures { TellsEnd reason (Gains E.held E.faults err.old err.new) result }
{
    match reason {
        ReadEnd::TooLong => too_long(err),
        ReadEnd::ReadFault => end(err, READ_FAULT),
        ReadEnd::Memory => end(err, OUT_OF_MEMORY),
    }
}

// Writes the line of a text that is too long, which takes no memory.
fn too_long<E: Sink>(err: &mut E) -> u8
    ensures status { result ≡ 1 }
    ensures line { Gains E.held E.faults err.old err.new (line_of_refusal kind.Lex1 1048576) }
{
    write_line(err, b"lex 1 at 1048576\n");
    REFUSED
}

// Writes the line of a refusal.
fn refuse<E: Sink>(alloc: Global, err: &mut E, kind: Kind, place: u32) -> u8
    ensures { Refuses 1 (line_of_refusal kind place) (Gains E.held E.faults err.old err.new)
        result }
{
    match refusal_line(alloc, kind, place) {
        Ok(line) => {
            write_line(err, line.as_slice());
            REFUSED
        }
        Err(_) => end(err, OUT_OF_MEMORY),
    }
}

// Writes the line that goes with a status.
fn end<E: Sink>(err: &mut E, status: u8) -> u8
    ensures status { result ≡ status }
    ensures line { Gains E.held E.faults err.old err.new (line_of status) }
{
    write_line(err, status_line(status));
    status
}
