//! Where bytes come from and where they go, and how a text is refused.
#![tactic(auto)]

mod fault;
mod memory;
mod sink;
mod source;
mod stream;

pub use fault::{Failed, Front, Kind, ReadEnd, Span};
pub use memory::{MemSink, MemSource};
pub use sink::{Sink, write_piece};
pub use source::{Source, read_all};
pub use stream::{StdSink, StdSource};
