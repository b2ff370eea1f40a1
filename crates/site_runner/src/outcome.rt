// What a run answers.

use shared_net::Report;
use trace_history::Book;

/// How a run was made.
#[derive(Drop)]
pub enum How {
    /// On one thread, one event after another.
    Alone,
    /// In rounds, in each of which the sites are lent to workers.
    Rounds,
    /// By workers that turned freely at the sites: how many events they made, and what the pass of
    /// each worker held. What came after these events was made on one thread.
    Shared {
        events: u64,
        report: Report,
    },
    /// On one thread, since the receipts of the workers that turned freely didn't agree with their
    /// book. The report says why.
    Lone(Report),
    /// On one thread over links that lose, repeat and reorder: how many packets were sent, those
    /// that were sent again with them, and how many frames were lost, repeated and arrived. A count
    /// stays at 2^64 - 1 once it is there.
    Lossy {
        sent: u64,
        lost: u64,
        repeated: u64,
        arrived: u64,
    },
}

/// A run that has ended: its book, and how it was made.
#[derive(Drop)]
pub struct Done {
    pub book: Book,
    pub how: How,
}
