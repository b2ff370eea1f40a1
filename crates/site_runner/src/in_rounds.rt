// The run in rounds.
ghost use Rattle.std.specs.Prelude.{◌≡◌, [], ◌-◌, ◌+◌, ◌*◌, ◌/◌, ◌<◌, ◌≤◌, ◌^◌, length, min};
ghost use Rattle.std.specs.Prelude.{true, false, IfOk, OnOk, OnErr};
ghost use Rattle.net_laws.specs.Opened.{opened_net};
ghost use Rattle.net_core.specs.Asking.{asks};
ghost use Rattle.net_core.specs.Choosing.{Allows};
ghost use Rattle.net_core.specs.Scheduling.{numbers, GoesOn, InTurn, Opens, ReadyOpensNone};
ghost use Rattle.net_core.specs.Scheduling.{Meets, Forbids, IsRound, AreRounds};
ghost use Rattle.net_core.specs.Whole.{NetParts};
ghost use Rattle.site_runner.specs.Rounds.{StandForOne, RunsInRounds, RoundsOf};
ghost use Rattle.site_runner.specs.inside.RoundParts.{and_then, AreOne, IsMade, HaveRun, HasTurn};
ghost use Rattle.site_runner.specs.inside.RoundParts.{MeetsRequest, CanFollow, RoundEnds};
ghost use Rattle.site_runner.specs.declared.outcome.How.TheVariants as how;

use crate::outcome::{Done, How};
use chem_laws::stuck_is_quiet;
use chem_model::{Event, Memory};
use net_core::{Choice, Net};
use std::alloc::Global;
use std::thread::Threads;
use trace_history::Book;

// Book and network have what their types keep. It does nothing.
fn are_one(net: &Net, book: &Book)
    requires { StandForOne book.now net.now }
    ensures { AreOne book.now net.now }
{
    net.code_is_kept();
    book.replays();
    let program = book.program();
    let _tops = &program.tops;
}

// Fewer than 2^32 packets are under way. It does nothing.
fn few_under_way(net: &Net)
    ensures { length net.now.net.packets < 2 ^ 32 }
{
    let _under_way = net.flights();
}

// Makes an enabled choice, and commits its event to the book.
fn make(alloc: Global, net: &mut Net, book: &mut Book, choice: &Choice) -> Result<(), Memory>
    requires allowed { Allows net.old.code net.old.net choice.now }
    requires room { length book.old.journal < 4000000 }
    requires one { AreOne book.old net.old }
    ensures { OnOk result (IsMade net.old book.old choice.now net.new book.new) }
{
    let acted = net.act(alloc, choice)?;
    few_under_way(net);
    if let Some(event) = acted {
        let _commit = book.append(alloc, event)?;
    }
    Ok(())
}

// One choice after another, each the one that comes next, until none is enabled or the journal has
// `budget` events.
fn go_on(alloc: Global, net: &mut Net, book: &mut Book, budget: u32) -> Result<(), Memory>
    requires budget { budget ≤ 4000000 }
    requires within { length book.old.journal ≤ budget }
    requires one { AreOne book.old net.old }
    ensures goes { OnOk result (HaveRun
        (GoesOn net.old.code (budget - length book.old.journal) net.old.net)
        net.old book.old net.new book.new) }
    ensures within { OnOk result (length book.new.journal ≤ budget) }
    ensures left { OnErr result (length book.old.journal < budget) }
{
    'choices: while book.journal().len() < budget as usize {
        let Some(choice) = net.next() else {
            return Ok(());
        };
        make(alloc, net, book, &choice)?;
    }
    Ok(())
}

// The reaction that is ready at a site, where it opens a location.
fn open_at(alloc: Global, net: &mut Net, book: &mut Book, site: u32) -> Result<(), Memory>
    requires site { site < length net.old.net.sites }
    requires room { length book.old.journal < 4000000 }
    requires one { AreOne book.old net.old }
    ensures { OnOk result (HaveRun
        (HasTurn (Opens net.old.code) (ReadyOpensNone net.old.code) net.old.net site)
        net.old book.old net.new book.new) }
{
    if let Some(choice) = net.opening_at(site) {
        make(alloc, net, book, &choice)?;
    }
    Ok(())
}

// In the order of sites, while the budget leaves an event: the reaction that is ready there, where
// it opens a location.
fn open_all(alloc: Global, net: &mut Net, book: &mut Book, budget: u32) -> Result<(), Memory>
    requires budget { budget ≤ 4000000 }
    requires within { length book.old.journal ≤ budget }
    requires one { AreOne book.old net.old }
    ensures opens { OnOk result (HaveRun
        (InTurn (Opens net.old.code) (ReadyOpensNone net.old.code)
        (budget - length book.old.journal) (numbers net.old.net) net.old.net)
        net.old book.old net.new book.new) }
    ensures within { OnOk result (length book.new.journal ≤ budget) }
{
    let sites = net.sites();
    for site in 0..sites {
        if book.journal().len() >= budget as usize {
            return Ok(());
        }
        open_at(alloc, net, book, site)?;
    }
    Ok(())
}

// Meets a request where it can be met.
fn meet_one(alloc: Global, net: &mut Net, book: &mut Book, choice: &Choice) -> Result<(), Memory>
    requires request { MeetsRequest choice.now }
    requires room { length book.old.journal < 4000000 }
    requires one { AreOne book.old net.old }
    ensures { OnOk result (HaveRun
        (HasTurn (Meets net.old.code) (Forbids net.old.code) net.old.net choice.now)
        net.old book.old net.new book.new) }
{
    if net.enabled(choice) {
        make(alloc, net, book, choice)?;
    }
    Ok(())
}

// The requests that stand now, in the order of their ids, while the budget leaves an event: each is
// met where it can be at its turn.
fn meet_each(alloc: Global, net: &mut Net, book: &mut Book, budget: u32) -> Result<(), Memory>
    requires budget { budget ≤ 4000000 }
    requires within { length book.old.journal ≤ budget }
    requires one { AreOne book.old net.old }
    ensures meets { OnOk result (HaveRun
        (InTurn (Meets net.old.code) (Forbids net.old.code)
        (budget - length book.old.journal) (asks net.old.net) net.old.net)
        net.old book.old net.new book.new) }
    ensures within { OnOk result (length book.new.journal ≤ budget) }
{
    let choices = net.asks(alloc)?;
    for choice in choices.as_slice() {
        if book.journal().len() >= budget as usize {
            return Ok(());
        }
        meet_one(alloc, net, book, choice)?;
    }
    Ok(())
}

// The same; where it is known that none can be met, none is looked at.
fn meet_all(alloc: Global, net: &mut Net, book: &mut Book, budget: u32) -> Result<(), Memory>
    requires budget { budget ≤ 4000000 }
    requires within { length book.old.journal ≤ budget }
    requires one { AreOne book.old net.old }
    ensures meets { OnOk result (HaveRun
        (InTurn (Meets net.old.code) (Forbids net.old.code)
        (budget - length book.old.journal) (asks net.old.net) net.old.net)
        net.old book.old net.new book.new) }
    ensures within { OnOk result (length book.new.journal ≤ budget) }
{
    if net.rests(alloc) {
        return Ok(());
    }
    meet_each(alloc, net, book, budget)
}

// Commits events that are possible one after another.
fn commit_all(alloc: Global, book: &mut Book, events: &[Event]) -> Result<(), Memory>
    requires room { length book.old.journal + length events.now ≤ 4000000 }
    requires follow { CanFollow book.old events.now }
    ensures { OnOk result (book.new ≡ and_then book.old events.now) }
{
    for event in events {
        let _commit = book.commit(alloc, event)?;
    }
    Ok(())
}

// How many reactions each site may make in a round, where so many events are left.
fn share(left: u32, sites: u32) -> u32
    requires { 0 < sites }
    ensures share { result ≡ min 64 (left / sites) }
    ensures within { result * sites ≤ left }
{
    let each = left / sites;
    if each < 64 { each } else { 64 }
}

// Where a round made fewer events, to start threads for the next one would take longer than its
// turns.
const FEW: usize = 128;

// How many workers a round is lent to, where the one before made so many events.
fn lent_to(made: usize, workers: u32) -> u32
    requires { 1 ≤ workers }
    ensures some { 1 ≤ result }
    ensures most { result ≤ workers }
{
    if made < FEW { 1 } else { workers }
}

// The end of a round, once its sites have worked: what they did is committed, site after site; then
// come the reactions that open locations, and then the requests.
fn end_round(
    alloc: Global,
    net: &mut Net,
    book: &mut Book,
    events: &[Event],
    budget: u32,
) -> Result<(), Memory>
    requires budget { budget ≤ 4000000 }
    requires room { length book.old.journal + length events.now ≤ budget }
    requires follow { CanFollow book.old events.now }
    requires one { AreOne (and_then book.old events.now) net.old }
    ensures ends { OnOk result (RoundEnds budget net.old (and_then book.old events.now)
        net.new book.new) }
    ensures within { OnOk result (length book.new.journal ≤ budget) }
{
    commit_all(alloc, book, events)?;
    open_all(alloc, net, book, budget)?;
    meet_all(alloc, net, book, budget)?;
    Ok(())
}

// A round, after one that made so many events: the sites work, lent to the workers, and then it
// ends.
fn one_round<R: Threads + Sync>(
    rt: &R,
    alloc: Global,
    net: Net,
    book: &mut Book,
    workers: u32,
    made: usize,
    budget: u32,
) -> Result<Net, Memory>
    requires workers { (1 ≤ workers) × (workers ≤ 16) }
    requires budget { budget ≤ 4000000 }
    requires enough { length book.old.journal + length net.net.sites ≤ budget }
    requires one { AreOne book.old net }
    ensures round { IfOk result (λ after. HaveRun
        (IsRound net.code (budget - length book.old.journal) net.net)
        net book.old after book.new) }
    ensures within { OnOk result (length book.new.journal ≤ budget) }
{
    let left = budget - book.journal().len() as u32;
    let quota = share(left, net.sites());
    let lent = lent_to(made, workers);
    let (mut after, events) = net.round(rt, alloc, lent, quota)?;
    let ended = end_round(alloc, &mut after, book, events.as_slice(), budget);
    drop(events);
    match ended {
        Ok(()) => Ok(after),
        Err(memory) => {
            drop(after);
            Err(memory)
        }
    }
}

// Whether a round made no event and left no packet under way.
fn is_over(net: &Net, before: usize, after: usize) -> bool
    ensures yes { result ≡ true → (after ≡ before) × (net.now.net.packets ≡ []) }
    ensures no { result ≡ false → after ≡ before → net.now.net.packets ≡ [] → ⊥ }
{
    after == before && net.flights() == 0
}

// Rounds, until the budget is used up, or one makes no event and leaves no packet under way.
fn make_rounds<R: Threads + Sync>(
    rt: &R,
    alloc: Global,
    net: Net,
    book: &mut Book,
    workers: u32,
    budget: u32,
) -> Result<(), Memory>
    requires workers { (1 ≤ workers) × (workers ≤ 16) }
    requires budget { budget ≤ 4000000 }
    requires within { length book.old.journal ≤ budget }
    requires one { AreOne book.old net }
    ensures rounds { OnOk result ((end : NetParts) × HaveRun
        (AreRounds net.code (budget - length book.old.journal) net.net)
        net book.old end book.new) }
    ensures within { OnOk result (length book.new.journal ≤ budget) }
    ensures left { OnErr result (length book.old.journal < budget) }
{
    let mut net = net;
    let mut made = FEW;
    'rounds: loop {
        let before = book.journal().len();
        if budget as usize - before < net.sites() as usize {
            let went = go_on(alloc, &mut net, book, budget);
            drop(net);
            return went;
        }
        net = one_round(rt, alloc, net, book, workers, made, budget)?;
        few_under_way(&net);
        let after = book.journal().len();
        if is_over(&net, before, after) {
            drop(net);
            return Ok(());
        }
        made = after.saturating_sub(before);
    }
}

/// Makes rounds until the journal has `budget` events, or a round makes no event and leaves nothing
/// under way; where fewer events are left than there are sites, the rest one choice after another.
///
/// In a round each site is lent to one of the workers, of which there are 1 to 16, or all to one
/// where the round before made few events: it takes in what was under way to it, and reacts as
/// often as its share of the budget allows, 64 times at most. Then each site in order makes its
/// reaction that opens a location, and the requests are met in the order of their ids. Each event
/// is committed to the book. How many workers there are makes no difference to the journal. It
/// fails for want of memory only where the budget leaves an event; book and network are dropped
/// then.
pub fn rounds<R: Threads + Sync>(
    rt: &R,
    alloc: Global,
    net: Net,
    book: Book,
    workers: u32,
    budget: u32,
) -> Result<Done, Memory>
    requires workers { (1 ≤ workers) × (workers ≤ 16) }
    requires budget { budget ≤ 4000000 }
    requires within { length book.journal ≤ budget }
    requires one { StandForOne book net }
    ensures run { IfOk result (λ done. RunsInRounds net book budget done.book) }
    ensures whole { IfOk result (λ done. book.journal ≡ []
        → net.net ≡ opened_net book.program.version net.code
        → RoundsOf book.program net.code budget done.book.journal) }
    ensures how { IfOk result (λ done. done.how ≡ how.Rounds) }
    ensures left { OnErr result (length book.journal < budget) }
{
    are_one(&net, &book);
    stuck_is_quiet();
    let mut run = book;
    match make_rounds(rt, alloc, net, &mut run, workers, budget) {
        Ok(()) => Ok(Done {
            book: run,
            how: How::Rounds,
        }),
        Err(memory) => {
            drop(run);
            Err(memory)
        }
    }
}
