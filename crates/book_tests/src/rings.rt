// Rings whose texts were worked out from the rules by hand.

ghost use Rattle.std.specs.Prelude.{◌≤◌};

use crate::texts::expect_bytes;
use chem_model::Memory;
use ring_source::ring_text;
use std::alloc::Global;
use std::process::Abort;
use std::test::Fail;

const RING_OF_1: &[u8] =
    b"observe out/1;\nsite s0 [ w0() => 0 and m[ k0() => out(s0) : go(s0, k0) ] : w0() | w0() | \
        w0() | w0() | w0() | w0() | w0() | w0() ]\n";

const RING_OF_3: &[u8] =
    b"observe out/1;\nsite s0 [ w0() => 0 and m[ k0() => out(s0) and k1() => out(s1) | go(s2, \
        k2) and k2() => out(s2) | go(s0, k0) : go(s1, k1) ] : w0() | w0() | w0() | w0() | w0() \
        | w0() | w0() | w0() ]\nsite s1 [ w1() => 0 : w1() | w1() | w1() | w1() | w1() | w1() | \
        w1() | w1() ]\nsite s2 [ w2() => 0 : w2() | w2() | w2() | w2() | w2() | w2() | w2() | \
        w2() ]\n";

fn expect_text(rt: &impl Abort, alloc: Global, n: u32, want: &[u8]) -> Result<(), Fail>
    requires { (1 ≤ n) × (n ≤ 64) }
{
    let text = ring_text(alloc, n)?;
    expect_bytes(rt, text.as_slice(), want);
    Ok(())
}

#[test]
fn the_ring_of_1(rt: HostRuntime) -> Result<(), Fail> {
    expect_text(&rt, rt.alloc(), 1, RING_OF_1)
}

#[test]
fn the_ring_of_3(rt: HostRuntime) -> Result<(), Fail> {
    expect_text(&rt, rt.alloc(), 3, RING_OF_3)
}

// How many bytes the text of a ring has.
fn length_of(alloc: Global, n: u32) -> Result<usize, Memory>
    requires { (1 ≤ n) × (n ≤ 64) }
{
    let text = ring_text(alloc, n)?;
    Ok(text.len())
}

// 15 bytes for the declaration, 10 times 78 and 54 times 88 for the lines of sites of one digit
// and of two, 38 for the agent without its 63 rules, 29 for each of these without its numbers, and
// 4 times 117 for their digits.
#[test]
fn the_length_of_the_ring_of_64(rt: HostRuntime) {
    assert_eq!(rt; length_of(rt.alloc(), 64), Ok(7880));
}
