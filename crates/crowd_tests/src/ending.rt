// How the runs of texts end, in a book and in the plain program.

use crate::both::{End, Manner, both_of};
use join_base::Front;
use std::alloc::Global;

// How the run of a text ends, how many events there are then, whether both agree, and how many
// locations there are.
pub type Outcome = (End, usize, bool, usize);

// How a run with so many events at most ends.
pub fn outcome(alloc: Global, text: &[u8], manner: Manner, budget: u32) -> Result<Outcome, Front> {
    let mut both = both_of(alloc, text)?;
    let end = both.run(alloc, manner, budget)?;
    let agree = both.agree(alloc)?;
    let events = both.book.journal().len();
    Ok((end, events, agree, both.plain.places.len()))
}
