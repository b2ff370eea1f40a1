// What the words ask for, and the text that is run.
ghost use Rattle.std.specs.Prelude.{◌≡◌, ◌≤◌, None, Some, length, IfOk, IfSome, OnOk};
ghost use Rattle.join_base.specs.Bytes.{TakesCount};
ghost use Rattle.join_base.specs.Counts.{Rose};
ghost use Rattle.join_words.specs.Asks.{IsWithin, IsSizeIfAny};
ghost use Rattle.join_top.specs.Task.{task, ring_asked, text_of};
ghost use Rattle.text_program.specs.Streams.{OnTold};
ghost use Rattle.join_top.specs.inside.Ran.{WhereRead, ReadsAll, ReadsPart};

use chem_model::{Memory, Text};
use join_base::{ReadEnd, Source, read_all};
use join_words::{Asked, WordEnd, read_words};
use ring_source::ring_text;
use std::alloc::Global;

// The most bytes of a text.
const MOST_BYTES: u32 = 1_048_576;

// What the words ask for. None where they are not of the line's form.
pub fn task(alloc: Global, words: &[String]) -> Result<Option<Asked>, Memory>
    ensures task { IfOk result (λ asked. asked ≡ task words.now) }
    ensures within { IfOk result (λ asked. IfSome asked IsWithin) }
    ensures ring { IfOk result (λ task. IfSome task (λ a. ring_asked words.now ≡ a.ring)) }
{
    match read_words(alloc, words) {
        Ok(asked) => Ok(Some(asked)),
        Err(WordEnd::Form) => Ok(None),
        Err(WordEnd::Memory) => Err(Memory),
    }
}

// The text that is run: that of the ring of this size, or else what the source gives.
pub fn text_run<S: Source>(
    alloc: Global,
    ring: Option<u32>,
    source: &mut S,
) -> Result<Text, ReadEnd>
    requires { IsSizeIfAny ring }
    ensures text { IfOk result (λ text. OnTold (text_of ring (S.left source.old)) (λ t. t ≡ text)) }
    ensures short { IfOk result (λ text. WhereRead ring (length text ≤ 1048576)) }

    ensures all { OnOk result (ReadsAll ring S.left source.old source.new) }
    ensures read_fault { result ≡ Err ReadEnd.ReadFault →
        ReadsPart ring S.left source.old source.new }
    ensures memory { result ≡ Err ReadEnd.Memory → ReadsPart ring S.left source.old source.new }

    ensures no_ring { result ≡ Err ReadEnd.TooLong → ring ≡ None }
    ensures too_long { result ≡ Err ReadEnd.TooLong →
        TakesCount (S.left source.old) (S.left source.new) 1048577 }

    ensures cause { result ≡ Err ReadEnd.ReadFault →
        Rose (S.faults source.old) (S.faults source.new) }
{
    match ring {
        Some(size) => Ok(ring_text(alloc, size)?),
        None => read_all(alloc, source, MOST_BYTES),
    }
}
