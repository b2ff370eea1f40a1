// One call of the top call over memory, and what it left, as plain values.
ghost use denote.Param.Send.{IsSync};

use crate::ends::{Ends, ends_of};
use chem_model::Memory;
use join_base::{MemSource, Source};
use join_top::{Ended, FreeTeam, Gate, How, OpenGate, Team, Threaded, run_join};
use std::alloc::Global;
use std::marker::Sync;
use std::sync::Wait;
use std::thread::Threads;
use worked_texts::Case;

/// How a run was made, without its report: on free threads with the number of events that the
/// workers made, over links with how often packets were sent, and frames lost and repeated and
/// arrived.
#[derive(Clone, Copy, Debug, PartialEq, Eq)]
pub enum Made {
    Alone,
    Rounds,
    Shared(u64),
    Lone,
    Lossy([u64; 4]),
}

impl Made {
    fn of(how: &How) -> Made {
        match how {
            How::Alone => Made::Alone,
            How::Rounds => Made::Rounds,
            How::Shared { events, .. } => Made::Shared(*events),
            How::Lone(_) => Made::Lone,
            How::Lossy {
                sent,
                lost,
                repeated,
                arrived,
            } => Made::Lossy([*sent, *lost, *repeated, *arrived]),
        }
    }
}

/// How a call ended: its status, what the sinks took, how many bytes one more read of the source
/// gives, and of the run that was kept how it was made and how many events it has.
#[derive(Drop)]
pub struct Outcome {
    pub status: u8,
    pub out: Vec<u8>,
    pub err: Vec<u8>,
    pub unread: usize,
    pub made: Option<Made>,
    pub events: Option<usize>,
}

// How many bytes one more read gives: none where it fails.
fn read_on(source: &mut MemSource) -> usize {
    let mut buffer = [0u8; 16];
    source.read(&mut buffer).unwrap_or(0)
}

// How a call ended, of which one more read gives so many bytes.
fn outcome_of(alloc: Global, ended: &Ended, unread: usize, ends: &Ends) -> Result<Outcome, Memory> {
    Ok(Outcome {
        status: ended.status,
        out: Vec::from_slice(alloc, ends.out.taken())?,
        err: Vec::from_slice(alloc, ends.err.taken())?,
        unread,
        made: ended.kept.as_ref().map(|kept| Made::of(&kept.how)),
        events: ended.kept.as_ref().map(|kept| kept.journal.len()),
    })
}

fn owned(alloc: Global, words: &[&str]) -> Result<Vec<String>, Memory> {
    let mut owned = Vec::new(alloc);
    for word in words {
        owned.push(String::from_str(alloc, word)?)?;
    }
    Ok(owned)
}

// One call of the top call, and how it ended.
fn ended_by<G: Gate, T: Team + FreeTeam<G>>(
    alloc: Global,
    words: &[&str],
    ends: &mut Ends,
    gate: &G,
    team: &T,
) -> Result<Box<Ended>, Memory>
    requires ready { T.ready }
    requires free_ready { T.free_ready }
{
    let words = owned(alloc, words)?;
    let ended = run_join(
        alloc,
        words.as_slice(),
        &mut *ends.source,
        &mut *ends.out,
        &mut *ends.err,
        gate,
        team,
    );
    Ok(Box::new(alloc, ended)?)
}

/// Runs the words over these ends, by a team whose free workers pass a gate.
pub fn call_through<G: Gate, T: Team + FreeTeam<G>>(
    alloc: Global,
    words: &[&str],
    ends: &mut Ends,
    gate: &G,
    team: &T,
) -> Result<Outcome, Memory>
    requires ready { T.ready }
    requires free_ready { T.free_ready }
{
    let ended = ended_by(alloc, words, ends, gate, team)?;
    let unread = read_on(&mut ends.source);
    outcome_of(alloc, &ended, unread, ends)
}

/// Runs the words over these ends.
pub fn call_into<R: AllocGlobal + Threads + Wait + Sync>(
    rt: &R,
    words: &[&str],
    ends: &mut Ends,
) -> Result<Outcome, Memory>
    requires { IsSync R.row }
{
    let team = Threaded::new(rt);
    call_through(rt.alloc(), words, ends, &OpenGate, &team)
}

/// Runs the words over a source of these bytes and two sinks, none of which fails.
pub fn call<R: AllocGlobal + Threads + Wait + Sync>(
    rt: &R,
    words: &[&str],
    bytes: &[u8],
) -> Result<Outcome, Memory>
    requires { IsSync R.row }
{
    let mut ends = ends_of(rt.alloc(), bytes)?;
    call_into(rt, words, &mut ends)
}

/// Runs the text of a case with these words.
pub fn call_case<R: AllocGlobal + Threads + Wait + Sync>(
    rt: &R,
    words: &[&str],
    case: &Case,
) -> Result<Outcome, Memory>
    requires { IsSync R.row }
{
    let source = case.source(rt.alloc())?;
    call(rt, words, source.as_slice())
}

/// What a run with these words over a source of these bytes left.
pub fn ended_with<R: AllocGlobal + Threads + Wait + Sync>(
    rt: &R,
    words: &[&str],
    bytes: &[u8],
) -> Result<Box<Ended>, Memory>
    requires { IsSync R.row }
{
    let mut ends = ends_of(rt.alloc(), bytes)?;
    let team = Threaded::new(rt);
    ended_by(rt.alloc(), words, &mut ends, &OpenGate, &team)
}
