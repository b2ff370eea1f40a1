//! A run on threads: the network behind its locks, the passes in which workers keep a receipt for
//! each event that they made there, and the end, where the receipts of all passes are compared with
//! the book.
//!
//! One ledger ties book and passes together: the events in the locked book's journal are as many as
//! all passes have receipts, whoever made them. So at the end a book with which the receipts agree
//! has each of its events from the pass of a worker.
//!
//! A turn at a site takes locks round the calls of `site_turn` and the book's, and passes a gate; the
//! workers make turns at one site after another. `inside` has what a turn does as single calls on
//! plain values, which tests hold beside it.
#![tactic(auto)]

mod across;
mod closing;
mod crossing;
mod differs;
mod door;
mod gate;
mod here;
mod hold_gate;
pub mod inside;
mod lists;
mod locked;
mod mail;
mod net;
mod pass;
mod preparing;
mod receipt;
mod report;
mod run;
mod turning;
mod wide;
mod working;

pub use closing::Closed;
pub use differs::Differs;
pub use gate::{Gate, OpenGate, Phase};
pub use hold_gate::HoldGate;
pub use lists::{Mails, Sites};
pub use locked::Locked;
pub use net::SharedNet;
pub use pass::{Pass, Passes};
pub use preparing::Opened;
pub use receipt::{Receipt, Receipts, copy_receipts};
pub use report::{Report, Worked, WorkedList, copy_worked};
pub use run::Run;
pub use site_turn::{Chosen, Made, Turn};
