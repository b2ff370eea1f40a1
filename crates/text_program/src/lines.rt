//! The lines on the sink of errors.
ghost use Rattle.std.specs.Prelude.{◌≡◌, []};
ghost use Rattle.text_program.specs.Streams.{Gains, line_of};

use join_base::{Sink, write_piece};

/// Writes a line on `err`. Where that fails, the status stays.
pub fn write_line<E: Sink>(err: &mut E, line: &[u8])
    ensures gains { Gains E.held E.faults err.old err.new line.now }
    ensures untouched { line.now ≡ [] → err.new ≡ err.old }
{
    let _ = write_piece(err, line);
}

/// The line on `err` that goes with a status.
pub fn status_line(status: u8) -> &'static [u8]
    ensures { result.now ≡ line_of status }
{
    match status {
        2 => b"usage: join MODE [N] [OPTIONS]\n",
        3 => b"read fault\n",
        4 => b"write fault\n",
        6 => b"out of memory\n",
        _ => b"",
    }
}
