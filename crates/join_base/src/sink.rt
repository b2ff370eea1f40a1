// Where bytes go.
ghost use Rattle.std.specs.Prelude.{◌≡◌, ℕ, ◌<◌, ◌≤◌, List, [], Option, length, OnOk, OnErr, IsOk};
ghost use Rattle.std.specs.Io.KnownBytes.{WriteAppends, Appends};
ghost use Rattle.join_base.specs.Bytes.{AcceptsSome, GainsPrefix};
ghost use Rattle.join_base.specs.Counts.{Rose};

use crate::fault::Failed;

/// Takes bytes, piece by piece.
pub trait Sink {
    /// The bytes that the sink holds, where it tells them.
    ghost held: { Self → Option (List ℕ) };

    /// How often it failed.
    ghost faults: { Self → ℕ };

    /// Takes the first bytes of the piece and answers how many these are.
    fn write(&mut self, piece: &[u8]) -> Result<usize, Failed>
        requires { 0 < length piece.now }
        ensures some { AcceptsSome result (length piece.now) }
        ensures bytes { WriteAppends (held self.old) (held self.new) result piece.now }

        // The count never falls, and a call fails only where it rose.
        ensures later { faults self.old ≤ faults self.new }
        ensures cause { OnErr result (Rose (faults self.old) (faults self.new)) };
}

/// Offers all that is left at each turn, until all is taken. An empty text makes no call.
pub fn write_piece<K: Sink>(sink: &mut K, bytes: &[u8]) -> Result<(), Failed>
    ensures ok { OnOk result (Appends (K.held sink.old) (K.held sink.new) bytes.now) }
    ensures err { OnErr result (GainsPrefix (K.held sink.old) (K.held sink.new) bytes.now) }

    ensures later { K.faults sink.old ≤ K.faults sink.new }
    ensures cause { OnErr result (Rose (K.faults sink.old) (K.faults sink.new)) }

    ensures empty_is_ok { bytes.now ≡ [] → IsOk result }
    ensures empty_makes_no_call { bytes.now ≡ [] → sink.new ≡ sink.old }
{
    let mut done = 0;
    'writing: while done < bytes.len() {
        done += sink.write(&bytes[done..])?;
    }
    Ok(())
}
