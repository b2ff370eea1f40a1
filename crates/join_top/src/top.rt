//! The top call.
ghost use Rattle.std.specs.Prelude.{◌≡◌, ◌⊎◌, ◌≤◌, IfSome, is_some, length, false, []};
ghost use Rattle.join_base.specs.Counts.{Rose};
ghost use Rattle.join_base.specs.declared.fault.Kind.TheVariants as kind;
ghost use Rattle.join_words.specs.Asks.{IsWithin};
ghost use Rattle.join_top.specs.Task.{task, log_asked, sorts_asked, ByTask, OnLog, OnSorts};
ghost use Rattle.log_judge.specs.Judged.{has_verdict, IsLogStatus, IsLogReadAt};
ghost use Rattle.sort_judge.specs.Command.{was_judged, IsSortStatus, IsSourceReadAt};
ghost use Rattle.join_top.specs.RunJoin.{RefusesSource, TellsSorts, GainsSortLine};
ghost use Rattle.join_top.specs.RunJoin.{RefusesLog, RefusesBytes, TellsVerdict, GainsLogLine};
ghost use Rattle.text_program.specs.Text.{refusal_line as line_of_refusal};
ghost use Rattle.join_top.specs.RunJoin.{ComesExactly, Reads, Refuses, Keeps, IsMadeAsAsked};
ghost use Rattle.join_top.specs.RunJoin.{WritesWhole};
ghost use Rattle.text_program.specs.Streams.{Gains, line_of, IsWritten};
ghost use Rattle.join_top.specs.RunJoin.{GainsLine, has_run, GoesWith};
ghost use Rattle.join_top.specs.inside.Job.{StatusOf, GainsRefusal, IsStatusOfJob, IsRunOfJob};
ghost use Rattle.join_top.specs.inside.Job.{IsWanted, IsWantedOf};
ghost use Rattle.join_top.specs.inside.Ran.{WhereRead};

use crate::job::{Begun, Stop, read_job};
use crate::run::{Kept, Ran, run};
use crate::task::task;
use join_base::{Front, Kind, ReadEnd, Sink, Source, write_piece};
use join_words::Job;
use log_judge::{Ask, judge_log};
use shared_net::Gate;
use site_runner::{FreeTeam, Team};
use sort_judge::judge_sorts;
use std::alloc::Global;
use text_program::{refusal_line, status_line, write_line};
use trace_text::Ending;

const QUIESCENT: u8 = 0;

const REFUSED: u8 = 1;

const USAGE: u8 = 2;

const READ_FAULT: u8 = 3;

const WRITE_FAULT: u8 = 4;

const STOPPED: u8 = 5;

const OUT_OF_MEMORY: u8 = 6;

/// The status of the program, and what its run left.
#[derive(Drop)]
pub struct Ended {
    pub status: u8,
    pub kept: Option<Kept>,
}

// What the words want: something of a log, a source judged by its sorts, or something else or
// nothing; or memory ran out.
enum Wanted {
    Log(Ask),
    Sorts,
    Other,
    NoMemory,
}

/// Does all that the program does, from its words and the bytes of its source to the bytes on `out`
/// and `err`. The team works where the words ask for rounds or for free threads, which pass the
/// gate in each of their turns. It returns wherever the calls of the team that it was handed
/// return, and with `alone` and `lossy` it makes none.
///
/// The clauses are in the words of `specs/RunJoin.antt` and `specs/Task.antt`. They see a source by
/// the bytes that it has left, and a sink by those that it holds, where these are told.
///
/// | status | comes |
/// |---|---|
/// | 0 | a quiet run's whole text was written; the log is a run's; the source keeps its sorts |
/// | 1 | the text, or the log's source, is refused: the line on `err` names its fault and place |
/// | 2 | the words are not of the line's form |
/// | 3 | a read failed |
/// | 4 | a write on `out` failed |
/// | 5 | the budget is used up and something can still happen; the whole text was written |
/// | 6 | memory ran out |
/// | 7 | the log is no run's, or the source has a fault of sorts; and that was written |
/// | 8 | the bytes are no log, or too many |
pub fn run_join<S: Source, K: Sink, E: Sink, G: Gate, T: Team + FreeTeam<G>>(
    alloc: Global,
    words: &[String],
    source: &mut S,
    out: &mut K,
    err: &mut E,
    gate: &G,
    team: &T,
) -> Ended
    requires ready { T.ready }
    requires free_ready { T.free_ready }

    ensures known { ByTask words.now (λ _. IsLogStatus result.status) (IsSortStatus result.status)
        (result.status ≤ 6) }

    ensures usage { ComesExactly result.status 2 (task words.now ≡ None) }

    ensures read_fault { result.status ≡ 3 → Rose (S.faults source.old) (S.faults source.new) }
    ensures reads_all { ByTask words.now
        (λ _. IsLogReadAt result.status (S.left source.old) (S.left source.new))
        (IsSourceReadAt result.status (S.left source.old) (S.left source.new))
        (Reads words.now result.status S.left source.old source.new) }

    ensures refusal { ByTask words.now
        (λ _. RefusesLog result.status (S.left source.old) (Gains E.held E.faults err.old err.new))
        (RefusesSource result.status (S.left source.old) (Gains E.held E.faults err.old err.new))
        (Refuses words.now (S.left source.old) result E.held E.faults err.old err.new) }
    ensures no_log { OnLog (log_asked words.now) (λ _. RefusesBytes result.status
        (S.left source.old) (S.left source.new) (Gains E.held E.faults err.old err.new)) }

    ensures kept { ByTask words.now (λ _. result.kept ≡ None) (result.kept ≡ None)
        (Keeps words.now (S.left source.old) result) }
    ensures how { IfSome result.kept (IsMadeAsAsked words.now) }

    ensures whole_text { WritesWhole words.now (S.left source.old) result K.held out.old out.new }
    ensures verdict { OnLog (log_asked words.now) (λ ask. TellsVerdict ask result.status
        (S.left source.old) (K.held out.old) (K.held out.new)) }
    ensures sorts { OnSorts (sorts_asked words.now) (TellsSorts result.status
        (S.left source.old) (K.held out.old) (K.held out.new)) }
    ensures write_fault { result.status ≡ 4 → Rose (K.faults out.old) (K.faults out.new) }
    ensures out_untouched { ByTask words.now
        (λ _. has_verdict result.status ≡ false → out.new ≡ out.old)
        (was_judged result.status ≡ false → out.new ≡ out.old)
        (has_run result.status ≡ false → out.new ≡ out.old) }

    ensures err_line { ByTask words.now
        (λ _. GainsLogLine result.status E.held E.faults err.old err.new)
        (GainsSortLine result.status E.held E.faults err.old err.new)
        (GainsLine result.status E.held E.faults err.old err.new) }
{
    match read_wanted(alloc, words) {
        Wanted::Log(ask) => Ended {
            status: judge_log(alloc, ask, source, out, err),
            kept: None,
        },
        Wanted::Sorts => Ended {
            status: judge_sorts(alloc, source, out, err),
            kept: None,
        },
        Wanted::Other => run_program(alloc, words, source, out, err, gate, team),
        Wanted::NoMemory => end(err, OUT_OF_MEMORY, None),
    }
}

// What the words want, as far as there was memory to read them.
fn read_wanted(alloc: Global, words: &[String]) -> Wanted
    ensures { IsWanted words.now result }
{
    match task(alloc, words) {
        Ok(Some(asked)) => wanted_of(asked.job),
        Ok(None) => Wanted::Other,
        Err(_) => Wanted::NoMemory,
    }
}

// What a job wants.
fn wanted_of(job: Job) -> Wanted
    ensures { IsWantedOf job result }
{
    match job {
        Job::Run => Wanted::Other,
        Job::Check => Wanted::Log(Ask::Verdict),
        Job::Explain => Wanted::Log(Ask::Causes),
        Job::Sorts => Wanted::Sorts,
    }
}

// The same where a run is wanted, or nothing. It reads the words once more.
fn run_program<S: Source, K: Sink, E: Sink, G: Gate, T: Team + FreeTeam<G>>(
    alloc: Global,
    words: &[String],
    source: &mut S,
    out: &mut K,
    err: &mut E,
    gate: &G,
    team: &T,
) -> Ended
    requires ready { T.ready }
    requires free_ready { T.free_ready }

    ensures known { result.status ≤ 6 }

    ensures usage { ComesExactly result.status 2 (task words.now ≡ None) }

    ensures read_fault { result.status ≡ 3 → Rose (S.faults source.old) (S.faults source.new) }
    ensures reads_all { Reads words.now result.status S.left source.old source.new }

    ensures refusal { Refuses words.now (S.left source.old) result E.held E.faults err.old err.new }

    ensures kept { Keeps words.now (S.left source.old) result }
    ensures how { IfSome result.kept (IsMadeAsAsked words.now) }

    ensures whole_text { WritesWhole words.now (S.left source.old) result K.held out.old out.new }
    ensures write_fault { result.status ≡ 4 → Rose (K.faults out.old) (K.faults out.new) }
    ensures out_untouched { has_run result.status ≡ false → out.new ≡ out.old }

    ensures err_line { GainsLine result.status E.held E.faults err.old err.new }
{
    match read_job(alloc, words, source) {
        Ok(job) => {
            let ended = run_job(alloc, &job, out, err, gate, team);
            drop(job);
            ended
        }
        Err(stop) => tell_stop(alloc, err, stop),
    }
}

// Runs a job, and writes the text of its run and the line that goes with its end.
fn run_job<K: Sink, E: Sink, G: Gate, T: Team + FreeTeam<G>>(
    alloc: Global,
    job: &Begun,
    out: &mut K,
    err: &mut E,
    gate: &G,
    team: &T,
) -> Ended
    requires ready { T.ready }
    requires free_ready { T.free_ready }
    requires source { WhereRead job.now.asked.ring (length job.now.text ≤ 1048576) }
    requires within { IsWithin job.now.asked }
    ensures status { IsStatusOfJob result.status }
    ensures exactly { is_some result.kept ≡ has_run result.status }
    ensures run { IfSome result.kept (
        IsRunOfJob job.now result.status (K.held out.old) (K.held out.new)) }
    ensures write_fault { result.status ≡ 4 → Rose (K.faults out.old) (K.faults out.new) }
    ensures out_untouched { has_run result.status ≡ false → out.new ≡ out.old }
    ensures err_line { GainsLine result.status E.held E.faults err.old err.new }
{
    match run(
        alloc,
        &job.asked,
        job.text.as_slice(),
        &job.program,
        gate,
        team,
    ) {
        Err(_) => end(err, OUT_OF_MEMORY, None),
        Ok(ran) => {
            let status = write_text(out, &ran);
            end(err, status, Some(ran.kept))
        }
    }
}

// Writes the line that tells why there is no job.
fn tell_stop<E: Sink>(alloc: Global, err: &mut E, stop: Stop) -> Ended
    ensures kept { result.kept ≡ None }
    ensures status { StatusOf stop result.status }
    ensures refusal { result.status ≡ 1 →
        GainsRefusal stop (Gains E.held E.faults err.old err.new) }
    ensures err_line { GainsLine result.status E.held E.faults err.old err.new }
{
    match stop {
        Stop::Form => end(err, USAGE, None),
        Stop::Source(ReadEnd::TooLong) => refuse_long(err),
        Stop::Source(ReadEnd::ReadFault) => end(err, READ_FAULT, None),
        Stop::Text(Front::Refused { kind, place }) => refuse(alloc, err, kind, place),
        Stop::Memory | Stop::Source(ReadEnd::Memory) | Stop::Text(Front::Memory) => {
            end(err, OUT_OF_MEMORY, None)
        }
    }
}

// Writes the text of a run, and answers the status of its end.
fn write_text<K: Sink>(out: &mut K, ran: &Ran) -> u8
    ensures status { GoesWith result ran.now.ending }
    ensures written { IsWritten result ran.now.text (K.held out.old) (K.held out.new) }
    ensures cause { result ≡ 4 → Rose (K.faults out.old) (K.faults out.new) }
{
    match write_piece(out, ran.text.as_slice()) {
        Err(_) => WRITE_FAULT,
        Ok(()) => match ran.ending {
            Ending::Quiescent => QUIESCENT,
            Ending::Stopped => STOPPED,
        },
    }
}

// Writes the line of a text that is too long, which takes no memory.
fn refuse_long<E: Sink>(err: &mut E) -> Ended
    ensures ended { result ≡ record { status = 1; kept = None } }
    ensures line { Gains E.held E.faults err.old err.new (line_of_refusal kind.Lex1 1048576) }
{
    write_line(err, b"lex 1 at 1048576\n");
    Ended {
        status: REFUSED,
        kept: None,
    }
}

// Writes the line of a refusal.
fn refuse<E: Sink>(alloc: Global, err: &mut E, kind: Kind, place: u32) -> Ended
    ensures kept { result.kept ≡ None }
    ensures status { (result.status ≡ 1) ⊎ (result.status ≡ 6) }
    ensures line { result.status ≡ 1 →
        Gains E.held E.faults err.old err.new (line_of_refusal kind place) }
    ensures memory { result.status ≡ 6 → Gains E.held E.faults err.old err.new (line_of 6) }
{
    match refusal_line(alloc, kind, place) {
        Err(_) => end(err, OUT_OF_MEMORY, None),
        Ok(line) => {
            write_line(err, line.as_slice());
            Ended {
                status: REFUSED,
                kept: None,
            }
        }
    }
}

// Writes the line that goes with a status.
fn end<E: Sink>(err: &mut E, status: u8, kept: Option<Kept>) -> Ended
    ensures ended { result ≡ record { status = status; kept = kept } }
    ensures line { Gains E.held E.faults err.old err.new (line_of status) }
    ensures untouched { line_of status ≡ [] → err.new ≡ err.old }
{
    write_line(err, status_line(status));
    Ended { status, kept }
}
