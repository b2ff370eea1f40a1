//! Everything that the program does: the words, the text, the run and what is written.
#![tactic(auto)]

mod job;
mod making;
mod printed;
mod run;
mod task;
mod top;

pub use making::{begin, one_run};
pub use ring_source::ring_text;
pub use run::Kept;
pub use shared_net::{Gate, HoldGate, OpenGate, Phase};
pub use site_runner::{FreeTeam, How, Team, Threaded};
pub use text_program::one_outcome;
pub use top::{Ended, run_join};
