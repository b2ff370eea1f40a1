// Sets that fill more than one word. The expected values were worked out by hand.
use crate::crossing::crosses;
use chem_model::Memory;
use status_words::{Bits, Status};
use std::alloc::Global;
use std::process::Abort;

// What is done to a set, or what it is to be.
#[derive(Drop)]
enum Step {
    Set(u32),
    Clear(u32),
    // That it may hold so many numbers.
    Bits(u32),
    // Whether it holds each number of the mask.
    Covers(&'static [u64], bool),
}

// Puts a number into the set, where it may hold it.
fn set(status: &mut Status, bit: u32) -> bool {
    let is_bit = bit < status.bits();
    if is_bit {
        status.set(bit);
    }
    is_bit
}

// Takes a number out of the set, where it may hold it.
fn clear(status: &mut Status, bit: u32) -> bool {
    let is_bit = bit < status.bits();
    if is_bit {
        status.clear(bit);
    }
    is_bit
}

// Whether the set holds each number of the mask, or not, as it is wanted.
fn covers(status: &Status, mask: &[u64], want: bool) -> bool {
    mask.len() == (status.bits() as usize).div_ceil(64) && status.covers(mask) == want
}

// Takes a step. Whether all is as the step says.
fn is_taken(status: &mut Status, step: &Step) -> bool {
    match step {
        Step::Set(bit) => set(status, *bit),
        Step::Clear(bit) => clear(status, *bit),
        Step::Bits(want) => status.bits() == *want,
        Step::Covers(mask, want) => covers(status, *mask, *want),
    }
}

// That all is as each of these steps says.
fn expect_each(rt: &impl Abort, status: &mut Status, steps: &[Step]) {
    for (index, step) in steps.iter().enumerate() {
        let taken = is_taken(status, step);
        assert!(rt; taken, "step {index}");
    }
}

// That all is as each of these steps says, from an empty set on that may hold so many numbers.
fn expect_steps(rt: &impl Abort, alloc: Global, bits: u32, steps: &[Step]) {
    match Status::with_bits(alloc, bits) {
        Ok(mut status) => {
            crosses(&status);
            expect_each(rt, &mut status, steps);
        }
        Err(_) => assert!(rt; false, "no memory"),
    }
}

const IN_TWO_WORDS: &[Step] = &[
    Step::Bits(65),
    Step::Covers(&[0, 0], true),
    Step::Set(64),
    Step::Covers(&[0, 1], true),
    Step::Covers(&[1, 1], false),
    Step::Clear(64),
    Step::Covers(&[0, 1], false),
    Step::Set(0),
    Step::Set(63),
    Step::Covers(&[1 << 63 | 1, 0], true),
];

#[test]
fn sixty_five_bits(rt: HostRuntime) {
    expect_steps(&rt, rt.alloc(), 65, IN_TWO_WORDS);
}

// The words with these numbers, of which there are so many.
fn words_with(alloc: Global, count: usize, numbers: &[u32]) -> Result<Bits, Memory> {
    let mut words = Bits::zeros(alloc, count);
    for number in numbers {
        words.set(*number)?;
    }
    Ok(words)
}

// Whether these are the words.
fn are_words(words: &Bits, want: &[u64]) -> bool {
    for place in 0..want.len() {
        if words.word(place) != want[place] {
            return false;
        }
    }
    words.len() == want.len() && words.word(want.len()) == 0
}

// Numbers in any order, one of them twice, and one for which there is no word.
fn are_set(alloc: Global) -> Result<bool, Memory> {
    let words = words_with(alloc, 3, &[130, 1, 191, 0, 130, 192])?;
    let copy = words.copy(alloc)?;
    Ok(are_words(&words, &[3, 0, 1 << 63 | 4]) && are_words(&copy, &[3, 0, 1 << 63 | 4]))
}

// The order in which numbers are set doesn't matter, and one number or one word more does.
fn are_compared(alloc: Global) -> Result<bool, Memory> {
    let words = words_with(alloc, 3, &[130, 1, 64])?;
    let same = words_with(alloc, 3, &[64, 130, 1])?;
    let other = words_with(alloc, 3, &[64, 130, 2])?;
    let longer = words_with(alloc, 4, &[64, 130, 1])?;
    Ok(words.same(&same) && !words.same(&other) && !words.same(&longer))
}

// Whether the set holds each number of the mask.
fn covers_bits(status: &Status, mask: &Bits) -> bool {
    mask.len() == (status.bits() as usize).div_ceil(64) && status.covers_bits(mask)
}

// Whether a set of 130 numbers, with the first and the last of them, holds these.
fn is_held(alloc: Global, numbers: &[u32]) -> Result<bool, Memory> {
    let words = words_with(alloc, 3, numbers)?;
    let mut status = Status::with_bits(alloc, 130)?;
    let all_set = set(&mut status, 0) && set(&mut status, 129);
    Ok(all_set && covers_bits(&status, &words))
}

#[test]
fn words_that_have_numbers(rt: HostRuntime) {
    let alloc = rt.alloc();
    assert!(rt; are_set(alloc) == Ok(true));
    assert!(rt; are_compared(alloc) == Ok(true));
    assert!(rt; is_held(alloc, &[]) == Ok(true));
    assert!(rt; is_held(alloc, &[129, 0]) == Ok(true));
    assert!(rt; is_held(alloc, &[0, 128]) == Ok(false));
    assert!(rt; is_held(alloc, &[64]) == Ok(false));
}
