// The sort lines of a text.
ghost use Rattle.std.specs.Prelude.{◌≡◌, ◌∷◌, [], ◌++◌, ◌<◌, ◌≤◌, false, length, drop, IfOk, OnOk};
ghost use Rattle.join_lex.specs.Spelling.{in_line, is_hash as hash};
ghost use Rattle.sort_lines.specs.Lines.{line_after, lines_of, is_colon as colon};
ghost use Rattle.sort_lines.specs.inside.Told.{told, EndsAt, GoesOn, AreShort};

use chem_model::Memory;
use std::alloc::Global;

// A comment that begins with `#:`: where its `#` stands, and its bytes after `#:`.
#[derive(Clone, Copy)]
pub(crate) struct SortLine<'a> {
    pub place: u32,
    pub text: &'a [u8],
}

// The place of the next line feed, or the end.
fn end_of(bytes: &[u8], from: usize) -> usize
    requires { from ≤ length bytes.now }
    ensures { EndsAt bytes.now from result }
{
    let mut at = from;
    while at < bytes.len() {
        if !goes_on(bytes[at]) {
            return at;
        }
        at += 1;
    }
    at
}

fn is_colon(byte: u8) -> bool
    ensures { result ≡ colon byte }
{
    byte == b':'
}

fn is_hash(byte: u8) -> bool
    ensures { result ≡ hash byte }
{
    byte == b'#'
}

fn goes_on(byte: u8) -> bool
    ensures { result ≡ in_line byte }
{
    byte != b'\n'
}

fn push<'a>(lines: &mut Vec<SortLine<'a>>, place: u32, text: &'a [u8]) -> Result<(), Memory>
    ensures { OnOk result (told lines.new.items
        ≡ told lines.old.items ++ record { place = place; text = text.now } ∷ []) }
{
    lines.push(SortLine { place, text })?;
    Ok(())
}

// Appends a line whose `#` stands at `place` and whose bytes after it are these, where they begin
// with `:`.
fn add<'a>(lines: &mut Vec<SortLine<'a>>, place: u32, behind: &'a [u8]) -> Result<(), Memory>
    ensures { OnOk result (told lines.new.items
        ≡ told lines.old.items ++ line_after place behind.now) }
{
    if behind.is_empty() {
        return Ok(());
    }
    if !is_colon(behind[0]) {
        return Ok(());
    }
    push(lines, place, &behind[1..])
}

// Appends the sort line that begins at `place`, where one does, and passes over it or over one
// byte.
fn step<'a>(lines: &mut Vec<SortLine<'a>>, bytes: &'a [u8], place: usize) -> Result<usize, Memory>
    requires within { place < length bytes.now }
    requires short { length bytes.now ≤ 1048576 }
    ensures { IfOk result (λ next.
        GoesOn bytes.now place next (told lines.old.items) (told lines.new.items)) }
{
    if !is_hash(bytes[place]) {
        return Ok(place + 1);
    }
    let end = end_of(bytes, place + 1);
    add(lines, place as u32, &bytes[place + 1..end])?;
    Ok(end)
}

// The sort lines of a text, in order.
pub(crate) fn sort_lines<'a>(alloc: Global, bytes: &'a [u8]) -> Result<Vec<SortLine<'a>>, Memory>
    requires { length bytes.now ≤ 1048576 }
    ensures lines { IfOk result (λ lines. told lines.items ≡ lines_of bytes.now) }
    ensures short { IfOk result (λ lines. AreShort lines.items) }
{
    let mut lines = Vec::new(alloc);
    let mut place = 0;
    while place < bytes.len() {
        place = step(&mut lines, bytes, place)?;
    }
    Ok(lines)
}
