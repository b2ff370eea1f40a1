// A log read back from its bytes.
ghost use Rattle.std.specs.Prelude.{◌≡◌, ◌≤◌, ◌<◌, ◌↔◌, [], ℕ, List, Ok, Err, length, IfOk, IfErr};
ghost use Rattle.trace_text.specs.declared.fault.LogEnd.TheVariants as end;
ghost use Rattle.trace_text.specs.declared.read.Log.{Log};
ghost use Rattle.trace_text.specs.LogText.{LogParts, Spells};
ghost use Rattle.trace_text.specs.Fields.{SpellsBy, word, number};
ghost use Rattle.trace_text.specs.LogFields.{WrongAt, HasOneOutcome, log_fields, event_words, pair};
ghost use Rattle.trace_text.specs.LogFields.{one_pair, taken, event_line, lines, counted_text};
ghost use Rattle.trace_text.specs.LogFields.{beginnings, least_budget, most_budget};
ghost use Rattle.trace_text.specs.ReadLog.{parts, NamesWrong, IsOrMemory};
ghost use Rattle.trace_text.specs.inside.ReadLog.{index, kind_index};
ghost use Rattle.trace_text.specs.inside.Reading.{Gives, Reads, front, read, ended};
ghost use Rattle.trace_text.specs.inside.ReadLog.{ReadsLines, ReadsHead, ReadsTrace};

use crate::fault::{Fault, LogEnd};
use crate::fields::{behind, counted_at, literal_at, number_at};
use chem_model::{AtomId, Atoms, Event, Items, Journal, Memory, RuleId, Text};
use std::alloc::Global;

/// What a log says: the source, the budget of events, the journal, and the text of the trace.
#[derive(Debug, Drop)]
pub struct Log {
    pub source: Text,
    pub budget: u32,
    pub events: Journal,
    pub trace: Text,
}

impl Log {
    /// A log that is equal to this one.
    pub fn copy(&self, alloc: Global) -> Result<Log, Memory>
        ensures { IfOk result (λ copy. copy ≡ self.now) }
    {
        Ok(Log {
            source: self.source.copy(alloc)?,
            budget: self.budget,
            events: self.events.copy(alloc)?,
            trace: self.trace.copy(alloc)?,
        })
    }
}

// The word with which the line of an event begins.
#[derive(Clone, Copy, PartialEq, Eq, Debug)]
pub enum Word {
    React,
    Move,
    Halt,
    Detect,
}

fn word_of(bytes: &[u8]) -> Result<(Word, &[u8]), Fault>
    ensures is { Gives (λ x. (index x.0, x.1.now)) result (front (word event_words) bytes.now) }
    ensures shorter { IfOk result (λ x. length x.1.now ≤ length bytes.now) }
{
    if let Some(rest) = behind(bytes, b"react ") {
        return Ok((Word::React, rest));
    }
    if let Some(rest) = behind(bytes, b"move ") {
        return Ok((Word::Move, rest));
    }
    if let Some(rest) = behind(bytes, b"halt ") {
        return Ok((Word::Halt, rest));
    }
    if let Some(rest) = behind(bytes, b"detect ") {
        return Ok((Word::Detect, rest));
    }
    Err(Fault::Wrong { left: bytes.len() })
}

// The kind of a log, with which it begins: by how large its budget is.
#[derive(Clone, Copy, PartialEq, Eq, Debug)]
pub enum Kind {
    First,
    Second,
}

fn kind_of(bytes: &[u8]) -> Result<(Kind, &[u8]), Fault>
    ensures is { Gives (λ x. (kind_index x.0, x.1.now)) result
        (front (word beginnings) bytes.now) }
    ensures shorter { IfOk result (λ x. length x.1.now ≤ length bytes.now) }
{
    if let Some(rest) = behind(bytes, b"joinlog 1\nsource ") {
        return Ok((Kind::First, rest));
    }
    if let Some(rest) = behind(bytes, b"joinlog 2\nsource ") {
        return Ok((Kind::Second, rest));
    }
    Err(Fault::Wrong { left: bytes.len() })
}

// The budget of a log of this kind.
fn budget_of(kind: Kind, bytes: &[u8]) -> Result<(u64, &[u8]), Fault>
    ensures is { Gives (λ x. (x.0, x.1.now)) result (front
        (number (least_budget (kind_index kind)) (most_budget (kind_index kind))) bytes.now) }
    ensures most { IfOk result (λ x. x.0 ≤ 4000000) }
    ensures shorter { IfOk result (λ x. length x.1.now ≤ length bytes.now) }
{
    match kind {
        Kind::First => number_at(bytes, 0, 1_000_000),
        Kind::Second => number_at(bytes, 1_000_001, 4_000_000),
    }
}

// A pair: its site, and its number there.
fn pair_of(bytes: &[u8]) -> Result<(AtomId, &[u8]), Fault>
    ensures reads { Reads {Z = LogParts} (λ x. x.0) (λ x. x.1.now) pair bytes.now result }
    ensures shorter { IfOk result (λ x. length x.1.now < length bytes.now) }
{
    let (site, rest) = number_at(bytes, 0, u32::MAX as u64)?;
    let rest = literal_at(rest, b".")?;
    let (k, rest) = number_at(rest, 0, u64::MAX)?;
    let site = site as u32;
    Ok((AtomId { site, k }, rest))
}

// A pair and the end of its line.
fn one_pair_of(bytes: &[u8]) -> Result<(AtomId, &[u8]), Fault>
    ensures reads { Reads {Z = LogParts} (λ x. x.0) (λ x. x.1.now) one_pair bytes.now result }
    ensures shorter { IfOk result (λ x. length x.1.now ≤ length bytes.now) }
{
    let (atom, rest) = pair_of(bytes)?;
    let rest = literal_at(rest, b"\n")?;
    Ok((atom, rest))
}

// The atoms that a reaction takes, and the end of its line.
fn taken_of(alloc: Global, bytes: &[u8]) -> Result<(Atoms, &[u8]), Fault>
    ensures reads { (n : ℕ) → length bytes.now ≤ n →
        Reads {Z = LogParts} (λ x. x.0) (λ x. x.1.now) (taken n) bytes.now result }
    ensures shorter { IfOk result (λ x. length x.1.now ≤ length bytes.now) }
{
    let mut atoms = Items::new(alloc);
    let rest = literal_at(bytes, b" ")?;
    let (first, mut rest) = pair_of(rest)?;
    atoms.push(first)?;
    while let Some(after) = behind(rest, b" ") {
        let (atom, later) = pair_of(after)?;
        atoms.push(atom)?;
        rest = later;
    }
    let rest = literal_at(rest, b"\n")?;
    let atoms = fitted(alloc, atoms)?;
    Ok((atoms, rest))
}

// More atoms than most reactions take.
const FEW: usize = 64;

// The same atoms, without room for more where they are few: most of a long log is such lists.
fn fitted(alloc: Global, atoms: Atoms) -> Result<Atoms, Memory>
    ensures { IfOk result (λ fitted. fitted ≡ atoms) }
{
    if atoms.len() > FEW {
        return Ok(atoms);
    }
    atoms.copy(alloc)
}

// The line of an event.
fn event_of(alloc: Global, bytes: &[u8]) -> Result<(Event, &[u8]), Fault>
    ensures reads { (n : ℕ) → length bytes.now ≤ n →
        Reads {Z = LogParts} (λ x. x.0) (λ x. x.1.now) (event_line n) bytes.now result }
    ensures shorter { IfOk result (λ x. length x.1.now ≤ length bytes.now) }
{
    let (word, rest) = word_of(bytes)?;
    match word {
        Word::React => {
            let (rule, rest) = pair_of(rest)?;
            let (took, rest) = taken_of(alloc, rest)?;
            let AtomId { site, k } = rule;
            let rule = RuleId { site, k };
            Ok((Event::React { rule, took }, rest))
        }
        Word::Move => {
            let (atom, rest) = one_pair_of(rest)?;
            Ok((Event::Move { atom }, rest))
        }
        Word::Halt => {
            let (atom, rest) = one_pair_of(rest)?;
            Ok((Event::Halt { atom }, rest))
        }
        Word::Detect => {
            let (atom, rest) = one_pair_of(rest)?;
            Ok((Event::Detect { atom }, rest))
        }
    }
}

// So many lines of events more, behind those that were read before.
fn more_lines<'a>(
    alloc: Global,
    events: &mut Journal,
    count: u64,
    bytes: &'a [u8],
) -> Result<&'a [u8], Fault>
    ensures reads { ReadsLines (λ rest. rest.now) events.old events.new count bytes.now result }
    ensures shorter { IfOk result (λ rest. length rest.now ≤ length bytes.now) }
{
    let mut rest = bytes;
    for _ in 0..count {
        let (event, later) = event_of(alloc, rest)?;
        events.push(event)?;
        rest = later;
    }
    Ok(rest)
}

// The same of a text that is let go: what is behind these lines is answered.
fn take_lines(alloc: Global, events: &mut Journal, count: u64, text: Text) -> Result<Text, Fault>
    ensures reads { ReadsLines (λ rest. rest) events.old events.new count text result }
    ensures shorter { IfOk result (λ rest. length rest ≤ length text) }
{
    let rest = more_lines(alloc, events, count, text.as_slice())?;
    let rest = Items::from_slice(alloc, rest)?;
    Ok(rest)
}

// In how many parts the lines of a log are read.
const PARTS: u64 = 8;

// So many lines of events, and what is behind them. Each part of the text is let go when its events
// are read, so that text and events don't both stand there whole.
fn lines_of(alloc: Global, count: u64, text: Text) -> Result<(Journal, Text), Fault>
    ensures { (n : ℕ) → length text ≤ n →
        Reads {Z = LogParts} (λ x. x.0) (λ x. x.1) (lines n [] count) text result }
{
    let part = count / PARTS + 1;
    let mut events = Items::new(alloc);
    let mut rest = text;
    let mut left = count;
    while left > 0 {
        let some = left.min(part);
        rest = take_lines(alloc, &mut events, some, rest)?;
        left -= some;
    }
    Ok((events, rest))
}

// Bytes behind their length, which is at most this.
fn counted_text(bytes: &[u8], most: u64) -> Result<(&[u8], &[u8]), Fault>
    ensures reads { Reads {Z = LogParts} (λ x. x.0.now) (λ x. x.1.now)
        (counted_text most) bytes.now result }
    ensures shorter { IfOk result (λ x. length x.1.now ≤ length bytes.now) }
{
    let (count, rest) = number_at(bytes, 0, most)?;
    let rest = literal_at(rest, b"\n")?;
    counted_at(rest, count)
}

// No byte may be left.
fn ended(rest: &[u8]) -> Result<(), Fault>
    ensures { (log : LogParts) → Gives (λ _. log) result (ended log rest.now) }
{
    match rest {
        [] => Ok(()),
        [_, ..] => Err(Fault::Wrong { left: rest.len() }),
    }
}

// What stands before the lines of events, which are behind it: the source, the budget, and how many
// events there are.
fn head_of(bytes: &[u8]) -> Result<(&[u8], u64, u64, &[u8]), Fault>
    ensures reads { ReadsHead (λ x. x.0.now) (λ x. x.1) (λ x. x.2) (λ x. x.3.now)
        bytes.now result }
    ensures most { IfOk result (λ x. x.1 ≤ 4000000) }
    ensures shorter { IfOk result (λ x. length x.3.now ≤ length bytes.now) }
{
    let (kind, rest) = kind_of(bytes)?;
    let (source, rest) = counted_text(rest, 1_048_576)?;
    let rest = literal_at(rest, b"\nbudget ")?;
    let (budget, rest) = budget_of(kind, rest)?;
    let rest = literal_at(rest, b"\nevents ")?;
    let (count, rest) = number_at(rest, 0, budget)?;
    let rest = literal_at(rest, b"\n")?;
    Ok((source, budget, count, rest))
}

// The trace, behind which no byte is left.
fn trace_of(bytes: &[u8]) -> Result<&[u8], Fault>
    ensures { ReadsTrace (λ trace. trace.now) bytes.now result }
{
    let rest = literal_at(bytes, b"trace ")?;
    let (trace, rest) = counted_text(rest, u64::MAX)?;
    ended(rest)?;
    Ok(trace)
}

fn log_of(alloc: Global, text: Text) -> Result<Log, Fault>
    ensures { Gives parts result (read (log_fields (length text)) text) }
{
    let (source, budget, count, rest) = head_of(text.as_slice())?;
    let source = Items::from_slice(alloc, source)?;
    let rest = Items::from_slice(alloc, rest)?;
    drop(text);
    let (events, rest) = lines_of(alloc, count, rest)?;
    let trace = trace_of(rest.as_slice())?;
    let trace = Items::from_slice(alloc, trace)?;
    let budget = budget as u32;
    Ok(Log {
        source,
        budget,
        events,
        trace,
    })
}

/// The log whose text is the whole input, or the place of the first field that is wrong: it differs
/// from what may stand there behind the fields before it, or the input ends within it. A byte after
/// the log is wrong. Any bytes are accepted as source and trace.
///
/// It answers a log exactly where the input spells it, and `Bad` exactly where it spells none, save
/// for want of memory. It asks for no memory by a length that the input claims.
pub fn read_log(alloc: Global, bytes: &[u8]) -> Result<Log, LogEnd>
    ensures found { IfOk result (λ log. Spells (parts log) bytes.now) }
    ensures bad { IfErr result (λ end. NamesWrong end bytes.now) }
    ensures reads { (log : Log) → Spells (parts log) bytes.now → IsOrMemory (Ok log) result }
    ensures refuses { (place : ℕ) → WrongAt bytes.now place →
        IsOrMemory (Err (end.Bad place)) result }
{
    match Items::from_slice(alloc, bytes) {
        Ok(bytes) => into_log(alloc, bytes),
        Err(_) => Err(LogEnd::Memory),
    }
}

/// The same of bytes that are let go as they are read, so that bytes and events don't both stand
/// there whole.
pub fn into_log(alloc: Global, bytes: Text) -> Result<Log, LogEnd>
    ensures found { IfOk result (λ log. Spells (parts log) bytes) }
    ensures bad { IfErr result (λ end. NamesWrong end bytes) }
    ensures reads { (log : Log) → Spells (parts log) bytes → IsOrMemory (Ok log) result }
    ensures refuses { (place : ℕ) → WrongAt bytes place → IsOrMemory (Err (end.Bad place)) result }
{
    let count = bytes.len();
    match log_of(alloc, bytes) {
        Ok(log) => Ok(log),
        Err(Fault::Wrong { left }) => Err(LogEnd::Bad {
            place: (count - left) as u64,
        }),
        Err(Fault::Memory) => Err(LogEnd::Memory),
    }
}

/// Bytes spell one log, or they have one field that is wrong first, and never both. It does
/// nothing.
pub fn one_outcome()
    ensures { (bytes : List ℕ) → HasOneOutcome bytes }
{}

/// The fields of a log spell what its text is, and nothing else. It does nothing.
pub fn fields_are_the_text()
    ensures { (log : LogParts) (bytes : List ℕ) →
        SpellsBy (log_fields (length bytes)) log bytes ↔ Spells log bytes }
{}
