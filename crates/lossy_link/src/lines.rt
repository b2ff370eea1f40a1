// The lines of all pairs.
ghost use Rattle.std.specs.Prelude.{◌≡◌, ◌<◌, ◌≤◌, ◌^◌, [], length, IfSome, IfNone, IfOk, OnOk};
ghost use Rattle.std.specs.Prelude.{OnErr, Some, None, IsSome, slice_get};
ghost use Rattle.std.specs.Map.{lookup};
ghost use Rattle.chem_model.specs.Each.{Each};
ghost use Rattle.lossy_link.specs.Lines.{flight_from, no_line, line_of, with_sent, with_handed};
ghost use Rattle.lossy_link.specs.Lines.{with_acked, sent_more, handed_more, acked_more, AreUsed};
ghost use Rattle.lossy_link.specs.Links.{IsOpen, NoneOpen, IsOpenIn, NoneOpenIn, HasLeast};
ghost use Rattle.lossy_link.specs.inside.Table.{same_pair, line_in, with_entry, has_open, IsFiled};

use crate::line::{Line, PairHistory};
use chem_model::{Items, Memory, Text, Texts};
use indexmap::IndexMap;
use std::alloc::Global;
use std::collections::BTreeSet;
use std::marker::Model;

// The lines in order of first use, each found by its pair, and the pairs that have a packet that
// isn't acknowledged.
#[derive(Drop)]
pub(crate) struct Lines {
    table: IndexMap<(u32, u32), Line>,
    pairs: BTreeSet<(u32, u32)>,
}

impl Model for Lines {
    ghost use Rattle.std.specs.Prelude.{List};
    ghost use Rattle.std.specs.Map.{values_of};
    ghost use Rattle.lossy_link.specs.declared.line.Line.{Line};
    ghost use Rattle.lossy_link.specs.inside.Table.{AreFiled};

    ghost Value = { List Line };

    ghost view = { λ l. values_of l.table.entries };

    ghost invariant = { λ l. AreFiled l.table.entries l.pairs };
}

// ---- one line

fn note_sent(line: &mut Line, bytes: Text) -> Result<(), Memory>
    ensures ok { OnOk result (line.new ≡ sent_more line.old bytes) }
    ensures err { OnErr result (line.new ≡ line.old) }
{
    line.history.sent.push(bytes)
}

fn note_handed(line: &mut Line, bytes: Text) -> Result<(), Memory>
    ensures ok { OnOk result (line.new ≡ handed_more line.old bytes) }
    ensures err { OnErr result (line.new ≡ line.old) }
{
    line.history.handed.push(bytes)
}

// The answer is whether the line still has a packet that isn't acknowledged.
fn note_acked(line: &mut Line, number: u64) -> bool
    ensures is { line.new ≡ acked_more line.old number }
    ensures more { result ≡ has_open line.new }
{
    if number > line.acked {
        line.acked = number;
    }
    let count = line.history.sent.len();
    line.acked < count as u64
}

// The line of a pair that sent its first packet.
fn first_line(alloc: Global, from: u32, into: u32, bytes: Text) -> Result<Line, Memory>
    ensures { IfOk result (λ l. l ≡ sent_more (no_line from into) bytes) }
{
    let mut sent = Items::new(alloc);
    sent.push(bytes)?;
    let handed = Items::new(alloc);
    Ok(Line {
        from,
        into,
        history: PairHistory { sent, handed },
        acked: 0,
    })
}

// The text with this number.
fn text_at(texts: &Texts, number: u64) -> Option<&Text>
    ensures none { IfNone result (length texts.now ≤ number) }
    ensures some { IfSome result (λ x. slice_get texts.now number ≡ Some x.now) }
{
    texts.as_slice().get(number as usize)
}

// The packet with this number, where it isn't acknowledged.
fn open_in(line: &Line, number: u64) -> Option<&Text>
    ensures none { IfNone result (NoneOpenIn line.now number) }
    ensures some { IfSome result (λ x. IsOpenIn line.now number x.now) }
{
    if number < line.acked {
        return None;
    }
    text_at(&line.history.sent, number)
}

// ---- the table

// A packet of a pair that has a line.
fn push_sent(
    table: &mut IndexMap<(u32, u32), Line>,
    from: u32,
    into: u32,
    bytes: Text,
) -> Result<(), Memory>
    requires filed { Each IsFiled table.old.entries }
    requires there { IsSome (lookup (same_pair (from, into)) table.old.entries) }
    ensures ok { OnOk result (table.new.entries
        ≡ with_entry from into (sent_more (line_in from into table.old.entries) bytes)
        table.old.entries) }
    ensures err { OnErr result (table.new.entries ≡ table.old.entries) }
{
    match table.get_mut(&(from, into)) {
        Some(line) => note_sent(line, bytes),
        None => unreachable!(),
    }
}

// A packet gets the next number of its pair.
fn add_sent(
    alloc: Global,
    table: &mut IndexMap<(u32, u32), Line>,
    from: u32,
    into: u32,
    bytes: Text,
) -> Result<(), Memory>
    requires { Each IsFiled table.old.entries }
    ensures ok { OnOk result (table.new.entries
        ≡ with_entry from into (sent_more (line_in from into table.old.entries) bytes)
        table.old.entries) }
    ensures err { OnErr result (table.new.entries ≡ table.old.entries) }
{
    if table.contains_key(&(from, into)) {
        return push_sent(table, from, into, bytes);
    }
    let line = first_line(alloc, from, into, bytes)?;
    table.insert((from, into), line)?;
    Ok(())
}

// The receiver was given a packet of a pair.
fn add_handed(
    table: &mut IndexMap<(u32, u32), Line>,
    from: u32,
    into: u32,
    bytes: Text,
) -> Result<(), Memory>
    requires filed { Each IsFiled table.old.entries }
    requires there { 0 < length (line_in from into table.old.entries).history.sent }
    ensures ok { OnOk result (table.new.entries
        ≡ with_entry from into (handed_more (line_in from into table.old.entries) bytes)
        table.old.entries) }
    ensures err { OnErr result (table.new.entries ≡ table.old.entries) }
{
    match table.get_mut(&(from, into)) {
        Some(line) => note_handed(line, bytes),
        None => unreachable!(),
    }
}

// The packets of a pair below this number are acknowledged. The answer is whether the pair still
// has one that isn't.
fn raise_acked(table: &mut IndexMap<(u32, u32), Line>, from: u32, into: u32, number: u64) -> bool
    requires filed { Each IsFiled table.old.entries }
    requires there { 0 < length (line_in from into table.old.entries).history.sent }
    ensures is { table.new.entries
        ≡ with_entry from into (acked_more (line_in from into table.old.entries) number)
        table.old.entries }
    ensures more { result ≡ has_open (acked_more (line_in from into table.old.entries) number) }
{
    match table.get_mut(&(from, into)) {
        Some(line) => note_acked(line, number),
        None => unreachable!(),
    }
}

// How far the packets of a pair are acknowledged.
fn acked_of(table: &IndexMap<(u32, u32), Line>, from: u32, into: u32) -> u64
    requires { Each IsFiled table.now.entries }
    ensures { result ≡ (line_in from into table.now.entries).acked }
{
    match table.get(&(from, into)) {
        Some(line) => line.acked,
        None => 0,
    }
}

impl Lines {
    // No pair sent a packet.
    pub(crate) fn new(alloc: Global) -> Lines
        ensures { result ≡ [] }
    {
        Lines {
            table: IndexMap::new(alloc),
            pairs: BTreeSet::new(alloc),
        }
    }

    // A packet gets the next number of its pair.
    pub(crate) fn leave(
        &mut self,
        alloc: Global,
        from: u32,
        into: u32,
        bytes: Text,
    ) -> Result<(), Memory>
        ensures { OnOk result (self.new ≡ with_sent (flight_from from into bytes) self.old) }
    {
        let new = self.pairs.insert((from, into))?;
        match add_sent(alloc, &mut self.table, from, into, bytes) {
            Ok(()) => Ok(()),
            Err(memory) => {
                if new {
                    self.pairs.remove(&(from, into));
                }
                Err(memory)
            }
        }
    }

    // The receiver was given a packet of a pair.
    pub(crate) fn hand(&mut self, from: u32, into: u32, bytes: Text) -> Result<(), Memory>
        requires { 0 < length (line_of from into self.old).history.sent }
        ensures { OnOk result (self.new ≡ with_handed from into bytes self.old) }
    {
        add_handed(&mut self.table, from, into, bytes)
    }

    // The packets of a pair below this number are acknowledged.
    pub(crate) fn acknowledge(&mut self, from: u32, into: u32, number: u64)
        requires there { 0 < length (line_of from into self.old).history.sent }
        requires within { number ≤ length (line_of from into self.old).history.sent }
        ensures { self.new ≡ with_acked from into number self.old }
    {
        if !raise_acked(&mut self.table, from, into, number) {
            self.pairs.remove(&(from, into));
        }
    }

    // How many packets of a pair the receiver was given.
    pub(crate) fn next_number(&self, from: u32, into: u32) -> u64
        ensures is { result ≡ length (line_of from into self.now).history.handed }
        ensures few { result < 2 ^ 32 }
    {
        match self.table.get(&(from, into)) {
            Some(line) => line.history.handed.len() as u64,
            None => 0,
        }
    }

    // What passed between a pair.
    pub(crate) fn history_of(&self, from: u32, into: u32) -> Option<&PairHistory>
        ensures none { IfNone result (line_of from into self.now ≡ no_line from into) }
        ensures some { IfSome result (λ h. h.now ≡ (line_of from into self.now).history) }
        ensures used { AreUsed self.now → IfSome result (λ h. 0 < length h.now.sent) }
    {
        match self.table.get(&(from, into)) {
            Some(line) => Some(&line.history),
            None => None,
        }
    }

    // The packet of a pair with this number, where it isn't acknowledged.
    pub(crate) fn open_at(&self, from: u32, into: u32, number: u64) -> Option<&Text>
        ensures none { IfNone result (NoneOpen from into number self.now) }
        ensures some { IfSome result (λ x. IsOpen self.now from into number x.now) }
    {
        match self.table.get(&(from, into)) {
            Some(line) => open_in(line, number),
            None => None,
        }
    }

    // The least packet that isn't acknowledged: its pair and its number.
    pub(crate) fn least_open(&self) -> Option<(u32, u32, u64)>
        ensures { HasLeast self.now result }
    {
        match self.pairs.first() {
            Some(pair) => {
                let (from, into) = *pair;
                let number = acked_of(&self.table, from, into);
                Some((from, into, number))
            }
            None => None,
        }
    }
}
