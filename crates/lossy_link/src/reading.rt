// Frames, and their bytes.
ghost use Rattle.std.specs.Prelude.{◌≡◌, ◌<◌, ◌∷◌, ◌++◌, ◌^◌, ◌↔◌, ℕ, List, Ok, Err, true, length};
ghost use Rattle.std.specs.Prelude.{IfOk, IfErr, IfNone, IfSome, OnOk, MatchResult};
ghost use Rattle.chem_model.specs.Each.{Each};
ghost use Rattle.wire_packet.specs.Format.{four, eight, digits, Spells, WrongAt, HasOneOutcome};
ghost use Rattle.wire_packet.specs.declared.fault.DecodeEnd.TheVariants as end;
ghost use Rattle.lossy_link.specs.declared.frame.Frame.{Frame as frame_seen};
ghost use Rattle.lossy_link.specs.FrameFormat.{frames, is_frame, behind_head, only_messages};
ghost use Rattle.lossy_link.specs.FrameFormat.{head, CarriesMessage, IsSpelledFrame, HasHead};
ghost use Rattle.lossy_link.specs.FrameFormat.{IsFrameOrMemory, NamesWrongFrame, NamesWrongIn};
ghost use Rattle.lossy_link.specs.FrameFormat.{IsDataOf};

use crate::frame::Frame;
use chem_model::{Items, Memory, Text};
use std::alloc::Global;
use wire_packet::{DecodeEnd, decode};

fn put_head(out: &mut Text, tag: u8, from: u32, into: u32, number: u64) -> Result<(), Memory>
    ensures { OnOk result (out.new ≡ out.old ++ head tag from into number) }
{
    out.push(tag)?;
    out.extend_from_slice(&from.to_be_bytes())?;
    out.extend_from_slice(&into.to_be_bytes())?;
    out.extend_from_slice(&number.to_be_bytes())?;
    Ok(())
}

/// The frame's one spelling, numbers big-endian: a byte for its kind, both sites, the number, and
/// for a packet its bytes.
pub fn frame_bytes(alloc: Global, frame: &Frame) -> Result<Text, Memory>
    requires { CarriesMessage frame.now }
    ensures { IfOk result (λ bytes. IsSpelledFrame frame.now bytes) }
{
    let mut out = Items::new(alloc);
    match frame {
        Frame::Data {
            from,
            into,
            number,
            bytes,
        } => {
            put_head(&mut out, 1, *from, *into, *number)?;
            out.extend_from_slice(bytes.as_slice())?;
        }
        Frame::Ack { from, into, number } => put_head(&mut out, 2, *from, *into, *number)?,
    }
    Ok(out)
}

// The number of four bytes at the front, and the bytes behind it.
fn four_at(bytes: &[u8]) -> Option<(u32, &[u8])>
    ensures none { IfNone result (length bytes.now < 4) }
    ensures some { IfSome result (λ x. bytes.now ≡ digits four x.0 ++ x.1.now) }
    ensures fits { IfSome result (λ x. x.0 < 2 ^ 32) }
{
    if bytes.len() < 4 {
        return None;
    }
    let (front, rest) = bytes.split_at(4);
    let number = u32::from_be_bytes([front[0], front[1], front[2], front[3]]);
    Some((number, rest))
}

// The number of eight bytes at the front, and the bytes behind it.
fn eight_at(bytes: &[u8]) -> Option<(u64, &[u8])>
    ensures none { IfNone result (length bytes.now < 8) }
    ensures some { IfSome result (λ x. bytes.now ≡ digits eight x.0 ++ x.1.now) }
    ensures fits { IfSome result (λ x. x.0 < 2 ^ 64) }
{
    if bytes.len() < 8 {
        return None;
    }
    let (front, rest) = bytes.split_at(8);
    let number = u64::from_be_bytes([
        front[0], front[1], front[2], front[3], front[4], front[5], front[6], front[7],
    ]);
    Some((number, rest))
}

fn is_tag(tag: u8) -> bool
    ensures { result ≡ is_frame tag }
{
    0 < tag && tag < 3
}

// The kind of a frame, both sites, the number, and the bytes behind them; or the place of the field
// that is wrong.
fn head_behind(tag: u8, bytes: &[u8]) -> Result<(u8, u32, u32, u64, &[u8]), u64>
    ensures { MatchResult result (λ x. HasHead x.0 x.1 x.2 x.3 x.4.now (tag ∷ bytes.now))
        (λ place. WrongAt frames (tag ∷ bytes.now) place) }
{
    if !is_tag(tag) {
        return Err(0);
    }
    let Some((from, after_from)) = four_at(bytes) else {
        return Err(1);
    };
    let Some((into, after_into)) = four_at(after_from) else {
        return Err(5);
    };
    let Some((number, rest)) = eight_at(after_into) else {
        return Err(9);
    };
    Ok((tag, from, into, number, rest))
}

fn head_of(bytes: &[u8]) -> Result<(u8, u32, u32, u64, &[u8]), u64>
    ensures { MatchResult result (λ x. HasHead x.0 x.1 x.2 x.3 x.4.now bytes.now)
        (λ place. WrongAt frames bytes.now place) }
{
    match bytes {
        [] => Err(0),
        [tag, rest @ ..] => head_behind(*tag, rest),
    }
}

fn copy_of(alloc: Global, bytes: &[u8]) -> Result<Text, DecodeEnd>
    ensures { MatchResult result (λ text. text ≡ bytes.now) (λ e. e ≡ end.Memory) }
{
    match Items::from_slice(alloc, bytes) {
        Ok(text) => Ok(text),
        Err(Memory) => Err(DecodeEnd::Memory),
    }
}

// The bytes of a message, or how the reading of one ends.
fn message_of(alloc: Global, bytes: &[u8]) -> Result<Text, DecodeEnd>
    ensures { MatchResult result (λ text. IsDataOf text bytes.now)
        (λ e. NamesWrongIn only_messages e bytes.now) }
{
    if bytes.is_empty() {
        return Err(DecodeEnd::Bad { place: 0 });
    }
    if bytes[0] != 1 {
        return Err(DecodeEnd::Bad { place: 0 });
    }
    match decode(alloc, bytes) {
        Ok(_packet) => copy_of(alloc, bytes),
        Err(end) => Err(end),
    }
}

// The frame of a head and of the bytes behind it.
fn frame_behind(
    alloc: Global,
    tag: u8,
    from: u32,
    into: u32,
    number: u64,
    bytes: &[u8],
) -> Result<Frame, DecodeEnd>
    requires { is_frame tag ≡ true }
    ensures { MatchResult result (λ x. Spells (behind_head tag from into number) x bytes.now)
        (λ e. NamesWrongIn (behind_head tag from into number) e bytes.now) }
{
    if tag == 2 {
        return match bytes {
            [] => Ok(Frame::Ack { from, into, number }),
            [_, ..] => Err(DecodeEnd::Bad { place: 0 }),
        };
    }
    match message_of(alloc, bytes) {
        Ok(bytes) => Ok(Frame::Data {
            from,
            into,
            number,
            bytes,
        }),
        Err(end) => Err(end),
    }
}

fn count_of(bytes: &[u8]) -> usize
    ensures is { result ≡ length bytes.now }
    ensures fits { result < 2 ^ 64 }
{
    bytes.len()
}

// The frame that the bytes spell, or how the reading of one ends.
fn frame_of(alloc: Global, bytes: &[u8]) -> Result<Frame, DecodeEnd>
    ensures { MatchResult result (λ x. Spells frames x bytes.now)
        (λ e. NamesWrongFrame e bytes.now) }
{
    let _count = count_of(bytes);
    match head_of(bytes) {
        Ok((tag, from, into, number, rest)) => {
            match frame_behind(alloc, tag, from, into, number, rest) {
                Ok(frame) => Ok(frame),
                Err(DecodeEnd::Bad { place }) => Err(DecodeEnd::Bad { place: place + 17 }),
                Err(DecodeEnd::Memory) => Err(DecodeEnd::Memory),
            }
        }
        Err(place) => Err(DecodeEnd::Bad { place }),
    }
}

// The frame of a spelling, of which the head alone is read.
pub(crate) fn frame_spelled(alloc: Global, bytes: &[u8]) -> Result<Frame, Memory>
    requires { (x : frame_seen) × IsSpelledFrame x bytes.now }
    ensures { IfOk result (λ frame. IsSpelledFrame frame bytes.now) }
{
    match head_of(bytes) {
        Ok((tag, from, into, number, rest)) => {
            if tag == 2 {
                return Ok(Frame::Ack { from, into, number });
            }
            let bytes = Items::from_slice(alloc, rest)?;
            Ok(Frame::Data {
                from,
                into,
                number,
                bytes,
            })
        }
        Err(_) => unreachable!(),
    }
}

/// The frame whose spelling is the whole input, or the place of the field that is wrong first: its
/// value isn't allowed behind the fields before it, or the input ends within it. A byte after the
/// frame is wrong, and so is a packet of another kind than a message.
///
/// It answers a frame exactly where the input spells it, and `Bad` exactly where it spells none,
/// save for want of memory.
pub fn read_frame(alloc: Global, bytes: &[u8]) -> Result<Frame, DecodeEnd>
    ensures found { IfOk result (λ frame. IsSpelledFrame frame bytes.now) }
    ensures bad { IfErr result (λ e. NamesWrongFrame e bytes.now) }
    ensures reads { (x : frame_seen) → IsSpelledFrame x bytes.now
        → IsFrameOrMemory (Ok x) result }
    ensures refuses { (place : ℕ) → WrongAt frames bytes.now place
        → IsFrameOrMemory (Err (end.Bad place)) result }
{
    frame_of(alloc, bytes)
}

/// The format of frames gives each frame its spelling, and no other. It does nothing.
pub fn frames_have_one_spelling()
    ensures { (x : frame_seen) (bytes : List ℕ) → Spells frames x bytes
        ↔ IsSpelledFrame x bytes }
{}

/// Bytes spell one frame, or they have one field that is wrong first, and never both. It does
/// nothing.
pub fn frames_have_one_outcome()
    ensures { (bytes : List ℕ) → Each (λ byte. byte < 2 ^ 8) bytes
        → HasOneOutcome frames bytes }
{}
