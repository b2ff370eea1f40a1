// One log, from its source.
ghost use Rattle.std.specs.Prelude.{◌<◌, ◌-◌, ◌^◌, length, IfOk, IfErr, OnOk};
ghost use Rattle.text_program.specs.Streams.{OnTold};
ghost use Rattle.trace_text.specs.LogText.{Spells};
ghost use Rattle.trace_text.specs.ReadLog.{parts};
ghost use Rattle.log_judge.specs.Judged.{IsReadWhole};
ghost use Rattle.log_judge.specs.inside.Ends.{IsStop, IsNoLogIn};

use chem_model::Text;
use join_base::{ReadEnd, Source, read_all};
use std::alloc::Global;
use trace_text::{Log, LogEnd, into_log};

// The most bytes of a log.
const MOST_BYTES: u32 = 134_217_728;

// Why there is no log.
pub enum LogStop {
    // The source gives no bytes of a log.
    Source(ReadEnd),
    // The bytes are no log.
    Log(LogEnd),
}

// The log that a source gives. Its bytes are let go before it is answered.
pub fn log_of<S: Source>(alloc: Global, source: &mut S) -> Result<Log, LogStop>
    ensures log { IfOk result (λ log. OnTold (S.left source.old) (Spells (parts log))) }
    ensures short { IfOk result (λ log. length log.events < 2 ^ 32 - 1) }
    ensures all { OnOk result (IsReadWhole (S.left source.old) (S.left source.new)) }
    ensures stop { IfErr result (IsStop S.left S.faults source.old source.new) }
{
    match read_all(alloc, source, MOST_BYTES) {
        Ok(bytes) => log_in(alloc, bytes),
        Err(end) => Err(LogStop::Source(end)),
    }
}

// The log that bytes spell. They are let go as they are read.
fn log_in(alloc: Global, bytes: Text) -> Result<Log, LogStop>
    ensures log { IfOk result (λ log. Spells (parts log) bytes) }
    ensures short { IfOk result (λ log. length log.events < 2 ^ 32 - 1) }
    ensures stop { IfErr result (IsNoLogIn bytes) }
{
    match into_log(alloc, bytes) {
        Ok(log) => Ok(log),
        Err(end) => Err(LogStop::Log(end)),
    }
}
