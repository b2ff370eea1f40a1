// That steps go as they say.

use std::alloc::Global;
use std::process::Abort;
use std::test::Fail;
use worked_sites::{Fault, Net, Step};

// That steps were all made.
fn expect_made(rt: &impl Abort, made: Result<(), Fault>) {
    assert_eq!(rt; made, Ok(()));
}

// Makes one step after another.
pub fn go(rt: &impl Abort, alloc: Global, net: &mut Net, steps: &[Step]) -> Result<(), Fail> {
    expect_made(rt, worked_sites::go(alloc, net, steps));
    Ok(())
}

// Makes one step after another with the opened sites of a text.
pub fn run(rt: &impl Abort, alloc: Global, text: &[u8], steps: &[Step]) -> Result<(), Fail> {
    expect_made(rt, worked_sites::run(alloc, text, steps));
    Ok(())
}

// Makes one step after another with a site of a text that hosts its root alone.
pub fn run_by_hand(
    rt: &impl Abort,
    alloc: Global,
    text: &[u8],
    steps: &[Step],
) -> Result<(), Fail> {
    expect_made(rt, worked_sites::run_by_hand(alloc, text, steps));
    Ok(())
}
