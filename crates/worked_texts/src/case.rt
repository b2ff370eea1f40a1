// A worked case, as data.

use std::alloc::{AllocError, Global};

/// What free threads may print where one thread prints a text.
#[derive(Clone, Copy)]
pub enum Freely {
    /// That text.
    Same,
    /// Its lines in any order, the last one last.
    AnyOrder,
    /// The same, where in each of these pairs the first line stands before the second.
    Before(&'static [(&'static str, &'static str)]),
    /// One of these.
    OneOf(&'static [&'static str]),
}

/// The words, the text as its pieces, each so many times, and what comes of them: the status, the
/// bytes on the two sinks, how many events are kept, and what free threads may print in its place.
#[derive(Drop)]
pub struct Case {
    pub words: &'static [&'static str],
    pub text: &'static [(u32, &'static str)],
    pub status: u8,
    pub out: &'static str,
    pub err: &'static str,
    pub events: Option<usize>,
    pub freely: Freely,
}

/// A text that is run with ten events at most and ends quiet, with no event and no observable.
pub const QUIET: Case = Case {
    words: &["alone", "--budget", "10"],
    text: &[],
    status: 0,
    out: "quiescent\n",
    err: "",
    events: Some(0),
    freely: Freely::Same,
};

impl Case {
    /// The bytes of the text.
    pub fn source(&self, alloc: Global) -> Result<Vec<u8>, AllocError> {
        let mut source = Vec::new(alloc);
        for (times, piece) in self.text {
            for _ in 0..*times {
                source.extend_from_slice(piece.as_bytes())?;
            }
        }
        Ok(source)
    }
}
