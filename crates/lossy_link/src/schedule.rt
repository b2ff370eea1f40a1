// The schedule of a run over links.
ghost use Rattle.std.specs.Prelude.{◌≡◌, ◌+◌, ◌<◌, ◌≤◌, ◌^◌, ◌⊎◌, [], length, IfOk, OnOk, OnErr, Ok};
ghost use Rattle.chem_model.specs.ProgramFacts.{IsProgram};
ghost use Rattle.trace_history.specs.Book.{Replays};
ghost use Rattle.env_store.specs.CodeFacts.{IsCode};
ghost use Rattle.lossy_link.specs.inside.Ending.{IsAtTurn};
ghost use Rattle.lossy_link.specs.Over.{AllowsOver};
ghost use Rattle.lossy_link.specs.OverBook.{StandForOne, RunsOverLinks, LossyOf, opened_parts};
ghost use Rattle.lossy_link.specs.Schedule.{most, next_turn};
ghost use Rattle.lossy_link.specs.inside.Settling.{IsTurned, Settles, IsSettled, GoesOnce};
ghost use Rattle.lossy_link.specs.inside.Settling.{AreApart, AreOne, AreOneOver, MakesEvent};
ghost use Rattle.lossy_link.specs.inside.Settling.{HasRun, HasRunFrom};
ghost use Rattle.lossy_link.specs.Whole.{links_of, IsWhole};

use crate::parts::Parts;
use crate::steps::{act, arrive, lose, repeat, send, start};
use chem_laws::stuck_is_quiet;
use chem_model::Memory;
use net_core::{Choice, Net};
use std::alloc::Global;
use trace_history::Book;

/// How many steps of each kind were made. A count stays at 18,446,744,073,709,551,615 once it is
/// there.
#[derive(Clone, Copy, PartialEq, Eq, Debug)]
pub struct LinkCounts {
    pub sent: u64,
    pub lost: u64,
    pub repeated: u64,
    pub arrived: u64,
}

impl LinkCounts {
    /// Counts that are equal to these. It takes no memory.
    pub fn copy(&self, _alloc: Global) -> Result<LinkCounts, Memory>
        ensures { result ≡ Ok self.now }
    {
        Ok(*self)
    }
}

fn one_more(count: u64) -> u64
    ensures { result ≡ most (count + 1) }
{
    if count < u64::MAX { count + 1 } else { count }
}

// The next kind of turn.
fn next_of(kind: u32) -> u32
    requires { kind < 4 }
    ensures { result ≡ next_turn kind }
{
    match kind {
        0 => 1,
        1 => 2,
        2 => 3,
        _ => 0,
    }
}

// The first frame is lost.
fn lose_first(parts: &mut Parts, counts: &mut LinkCounts)
    requires whole { IsWhole (links_of parts.old) }
    requires some { 0 < length parts.old.wire }
    requires at { IsAtTurn parts.old.lines 0 parts.old.wire }
    ensures turned { IsTurned (links_of parts.old) 0 counts.old (links_of parts.new) counts.new }
    ensures whole { IsWhole (links_of parts.new) }
{
    lose(parts, 0);
    counts.lost = one_more(counts.lost);
}

// It is repeated, and arrives.
fn repeat_and_arrive(
    alloc: Global,
    parts: &mut Parts,
    counts: &mut LinkCounts,
) -> Result<(), Memory>
    requires whole { IsWhole (links_of parts.old) }
    requires some { 0 < length parts.old.wire }
    requires at { IsAtTurn parts.old.lines 1 parts.old.wire }
    ensures turned { OnOk result (IsTurned (links_of parts.old) 1 counts.old (links_of parts.new)
        counts.new) }
    ensures whole { OnOk result (IsWhole (links_of parts.new)) }
{
    repeat(alloc, parts, 0)?;
    arrive(alloc, parts, 0)?;
    counts.repeated = one_more(counts.repeated);
    counts.arrived = one_more(counts.arrived);
    Ok(())
}

// It is repeated, and lost, so that its copy stands last.
fn repeat_and_lose(alloc: Global, parts: &mut Parts, counts: &mut LinkCounts) -> Result<(), Memory>
    requires whole { IsWhole (links_of parts.old) }
    requires some { 0 < length parts.old.wire }
    requires at { IsAtTurn parts.old.lines 2 parts.old.wire }
    ensures turned { OnOk result (IsTurned (links_of parts.old) 2 counts.old (links_of parts.new)
        counts.new) }
    ensures whole { OnOk result (IsWhole (links_of parts.new)) }
{
    repeat(alloc, parts, 0)?;
    lose(parts, 0);
    counts.repeated = one_more(counts.repeated);
    counts.lost = one_more(counts.lost);
    Ok(())
}

// It arrives.
fn arrive_first(alloc: Global, parts: &mut Parts, counts: &mut LinkCounts) -> Result<(), Memory>
    requires whole { IsWhole (links_of parts.old) }
    requires some { 0 < length parts.old.wire }
    requires at { IsAtTurn parts.old.lines 3 parts.old.wire }
    ensures turned { OnOk result (IsTurned (links_of parts.old) 3 counts.old (links_of parts.new)
        counts.new) }
    ensures whole { OnOk result (IsWhole (links_of parts.new)) }
{
    arrive(alloc, parts, 0)?;
    counts.arrived = one_more(counts.arrived);
    Ok(())
}

// A turn of this kind.
fn turn(alloc: Global, parts: &mut Parts, kind: u32, counts: &mut LinkCounts) -> Result<(), Memory>
    requires whole { IsWhole (links_of parts.old) }
    requires kind { kind < 4 }
    requires some { 0 < length parts.old.wire }
    requires at { IsAtTurn parts.old.lines kind parts.old.wire }
    ensures turned { OnOk result (IsTurned (links_of parts.old) kind counts.old
        (links_of parts.new) counts.new) }
    ensures whole { OnOk result (IsWhole (links_of parts.new)) }
{
    match kind {
        0 => {
            lose_first(parts, counts);
            Ok(())
        }
        1 => repeat_and_arrive(alloc, parts, counts),
        2 => repeat_and_lose(alloc, parts, counts),
        _ => arrive_first(alloc, parts, counts),
    }
}

// A turn where something is on the wire; else the least packet that isn't acknowledged is sent. The
// answer is the kind of the next turn, or none where there is nothing to do.
fn go_once(
    alloc: Global,
    parts: &mut Parts,
    kind: u32,
    counts: &mut LinkCounts,
) -> Result<Option<u32>, Memory>
    requires whole { IsWhole (links_of parts.old) }
    requires kind { kind < 4 }
    requires at { IsAtTurn parts.old.lines kind parts.old.wire }
    ensures goes { IfOk result (GoesOnce (links_of parts.old) kind counts.old (links_of parts.new)
        counts.new) }
    ensures whole { OnOk result (IsWhole (links_of parts.new)) }
    ensures left { OnErr result (IsSettled (links_of parts.old) → ⊥) }
{
    if parts.wire.len() > 0 {
        turn(alloc, parts, kind, counts)?;
        return Ok(Some(next_of(kind)));
    }
    match parts.lines.least_open() {
        Some(found) => {
            send(alloc, parts, found.0, found.1, found.2)?;
            counts.sent = one_more(counts.sent);
            Ok(Some(kind))
        }
        None => Ok(None),
    }
}

// Turns and sends, one after another, until nothing is on the wire and all is acknowledged. The
// answer is the kind of the next turn.
fn settle(
    alloc: Global,
    parts: &mut Parts,
    kind: u32,
    counts: &mut LinkCounts,
) -> Result<u32, Memory>
    requires whole { IsWhole (links_of parts.old) }
    requires kind { kind < 4 }
    requires at { IsAtTurn parts.old.lines kind parts.old.wire }
    ensures settles { IfOk result (λ next. Settles (links_of parts.old) kind counts.old
        (links_of parts.new) next counts.new) }
    ensures settled { OnOk result (IsSettled (links_of parts.new)) }
    ensures whole { OnOk result (IsWhole (links_of parts.new)) }
    ensures left { OnErr result (IsSettled (links_of parts.old) → ⊥) }
{
    let mut kind = kind;
    while let Some(next) = go_once(alloc, parts, kind, counts)? {
        kind = next;
    }
    Ok(kind)
}

// The choice is made, and its event is committed to the book.
fn make_next(
    alloc: Global,
    parts: &mut Parts,
    book: &mut Book,
    choice: &Choice,
) -> Result<(), Memory>
    requires whole { IsWhole (links_of parts.old) }
    requires allowed { AllowsOver parts.old.net choice.now }
    requires room { length book.old.journal < 4000000 }
    requires one { AreOneOver book.old (links_of parts.old) }
    ensures makes { OnOk result (MakesEvent (links_of parts.old) choice.now book.old
        (links_of parts.new) book.new) }
    ensures whole { OnOk result (IsWhole (links_of parts.new)) }
{
    let event = act(alloc, parts, choice)?;
    let _commit = book.append(alloc, event)?;
    Ok(())
}

// The run over links from a turn of this kind on, until the journal has `budget` events or no
// choice is next.
fn run(
    alloc: Global,
    parts: &mut Parts,
    book: &mut Book,
    budget: u32,
    kind: u32,
    counts: &mut LinkCounts,
) -> Result<(), Memory>
    requires whole { IsWhole (links_of parts.old) }
    requires kind { kind < 4 }
    requires bare { parts.old.wire ≡ [] }
    requires budget { budget ≤ 4000000 }
    requires within { length book.old.journal ≤ budget }
    requires one { AreOneOver book.old (links_of parts.old) }
    requires apart { AreApart parts.old.lines }
    ensures run { OnOk result (HasRun budget kind (links_of parts.old) book.old counts.old
        (links_of parts.new) book.new counts.new) }
    ensures whole { OnOk result (IsWhole (links_of parts.new)) }
    ensures left { OnErr result ((length book.old.journal < budget)
        ⊎ (IsSettled (links_of parts.old) → ⊥)) }
{
    let mut kind = kind;
    'choices: loop {
        kind = settle(alloc, parts, kind, counts)?;
        if book.journal().len() >= budget as usize {
            return Ok(());
        }
        let Some(choice) = parts.net.next() else {
            return Ok(());
        };
        make_next(alloc, parts, book, &choice)?;
    }
}

// Book and network have what their types keep. It does nothing.
fn are_one(net: &Net, book: &Book)
    requires { StandForOne book.now net.now }
    ensures { AreOne book.now net.now net.now.net }
{
    net.code_is_kept();
    book.replays();
    let program = book.program();
    let _tops = &program.tops;
}

// The same count: it fits its type.
fn whole_count(count: u64) -> u64
    ensures same { result ≡ count }
    ensures fits { result < 2 ^ 64 }
{
    count
}

// The run over links of a network, whose first turn is of the kind `loss`.
fn over_links(
    alloc: Global,
    net: Net,
    book: &mut Book,
    budget: u32,
    loss: u32,
) -> Result<LinkCounts, Memory>
    requires budget { budget ≤ 4000000 }
    requires within { length book.old.journal ≤ budget }
    requires loss { loss < 4 }
    requires one { AreOne book.old net net.net }
    ensures run { IfOk result (λ counts. HasRunFrom budget loss net book.old book.new counts) }
    ensures left { OnErr result ((length book.old.journal < budget)
        ⊎ (net.net.packets ≡ [] → ⊥)) }
{
    let mut parts = start(alloc, net)?;
    let mut counts = LinkCounts {
        sent: 0,
        lost: 0,
        repeated: 0,
        arrived: 0,
    };
    let ran = run(alloc, &mut parts, book, budget, loss, &mut counts);
    drop(parts);
    match ran {
        Ok(()) => Ok(LinkCounts {
            sent: whole_count(counts.sent),
            lost: whole_count(counts.lost),
            repeated: whole_count(counts.repeated),
            arrived: whole_count(counts.arrived),
        }),
        Err(memory) => Err(memory),
    }
}

/// Runs a network over links that lose, repeat and reorder, until the journal has `budget` events
/// or no event is possible, and commits each event to the book. The answer is the book, and how
/// many steps of each kind were made.
///
/// Where a frame is on the wire, the first one has its turn: it is lost, or repeated and arrives,
/// or repeated and lost so that its copy stands last, or arrives, by turns, of which `loss` says
/// the first. Else the least packet that isn't acknowledged is sent, of the least pair that has
/// one, by the two sites in order. Else the choice is made that is next. Each packet is delivered
/// once, and in the order of its pair: so the journal is that of the run without links, whatever
/// `loss` is. It fails for want of memory only where a packet is under way or the budget leaves an
/// event; book and network are dropped then.
pub fn lossy(
    alloc: Global,
    net: Net,
    book: Book,
    budget: u32,
    loss: u32,
) -> Result<(Book, LinkCounts), Memory>
    requires budget { budget ≤ 4000000 }
    requires within { length book.journal ≤ budget }
    requires loss { loss < 4 }
    requires one { StandForOne book net }
    ensures run { IfOk result (λ done. RunsOverLinks net book budget loss done.0 done.1) }
    ensures whole { IfOk result (λ done. book.journal ≡ []
        → net ≡ opened_parts book.program.version net.code
        → LossyOf book.program net.code budget loss done.0.journal done.1) }
    ensures left { OnErr result ((length book.journal < budget) ⊎ (net.net.packets ≡ [] → ⊥)) }
{
    are_one(&net, &book);
    stuck_is_quiet();
    let mut run = book;
    match over_links(alloc, net, &mut run, budget, loss) {
        Ok(counts) => Ok((run, counts)),
        Err(memory) => {
            drop(run);
            Err(memory)
        }
    }
}
