// The expected values were worked out by hand.

use crate::code::{Body, Fact, expect_code, has_top_names};
use chem_model::{Loc, Name};
use env_store::Slot;
use std::alloc::{AllocError, Global};

const ROOT: Loc = Loc { site: 0, k: 0 };

// The channel `x` of the first example.
const CHANNEL: Name = Name::Chan {
    site: 0,
    k: 1,
    home: ROOT,
};

// The root as an argument.
const AT_ROOT: Slot = Slot::Known(Name::Place(ROOT));

// The observed name of the first declaration.
const OBSERVED: Slot = Slot::Known(Name::Seen(0));

// The level of the first example and its guard, and the bodies of its rule and of its site.
fn first_example() -> &'static [Fact] {
    &[
        Fact::Sizes([1, 1, 1, 2, 1]),
        Fact::Level(0, [0, 0, 1], None),
        Fact::Counts(0, 1, 1),
        Fact::Guard(0, [0, 0, 1]),
        Fact::Mask(0, &[1]),
        Fact::Seen(&[1]),
        Fact::Tops(&[ROOT]),
        Fact::Send(Body::Rule(0), 0, OBSERVED, Some(Slot::Env(0))),
        Fact::Send(Body::Site, 0, Slot::Known(CHANNEL), Some(AT_ROOT)),
        Fact::Length(Body::Rule(0), 1),
        Fact::Length(Body::Site, 1),
    ]
}

#[test]
fn the_first_example(rt: HostRuntime) {
    let text = b"observe out/1; site s [ x(u) => out(u) : x(s) ]";
    expect_code(&rt, rt.alloc(), text, first_example());
    assert!(rt; has_top_names(rt.alloc(), text, &[Name::Place(ROOT), CHANNEL]));
}

// A location that the first site makes.
const MADE: Loc = Loc { site: 0, k: 1 };

// A channel of that location.
const AT_MADE: Name = Name::Chan {
    site: 0,
    k: 2,
    home: MADE,
};

const SECOND_ROOT: Loc = Loc { site: 1, k: 0 };

// The first site has level 0, the location in it level 1, and the second site level 2.
fn two_sites() -> &'static [Fact] {
    &[
        Fact::Sizes([3, 1, 2, 4, 2]),
        Fact::Level(1, [0, 0, 1], Some(0)),
        Fact::Counts(1, 1, 0),
        Fact::Block(0, &[0, 1], 2),
        Fact::Block(2, &[2], 0),
        Fact::Guard(0, [1, 0, 1]),
        Fact::Mask(0, &[1]),
        Fact::Send(
            Body::Rule(0),
            0,
            OBSERVED,
            Some(Slot::Known(Name::Place(MADE))),
        ),
    ]
}

#[test]
fn levels_of_two_sites(rt: HostRuntime) {
    let text = b"observe out/1; \
        site a [ m[ k() => out(m) : go(b, k) ] : 0 ] site b [ none : 0 ]";
    let names = &[
        Name::Place(ROOT),
        Name::Place(MADE),
        AT_MADE,
        Name::Place(SECOND_ROOT),
    ];
    expect_code(&rt, rt.alloc(), text, two_sites());
    assert!(rt; has_top_names(rt.alloc(), text, names));
}

// The rule receives `u`, and the block within names the inner `x`.
fn inner_name() -> &'static [Fact] {
    &[
        Fact::Sizes([2, 2, 2, 3, 1]),
        Fact::Level(1, [2, 1, 1], None),
        Fact::Enter(Body::Rule(0), 0, 1),
        Fact::Send(Body::Rule(0), 1, Slot::Env(1), Some(Slot::Env(0))),
        Fact::Leave(Body::Rule(0), 2, 1),
        Fact::Send(Body::Rule(1), 0, OBSERVED, Some(Slot::Env(2))),
    ]
}

#[test]
fn the_inner_name_hides_the_outer_one(rt: HostRuntime) {
    let text = b"observe out/1; site s [ x(u) => def x(v) => out(v) in x(u) : x(s) ]";
    expect_code(&rt, rt.alloc(), text, inner_name());
}

// A `def` within a rule within a `def`, two places, and 65 channels in the site's level: `a`, and
// `q1` to `q64` in one pattern.
fn nested() -> &'static [u8] {
    b"observe out/1; site s [ a() => def b(u) => def c() => out(u) in c() \
      and m[ k() => b(m) : k() ] and n[ none : b(n) ] in b(s) and \
      q1() | q2() | q3() | q4() | q5() | q6() | q7() | q8() | q9() | q10() | q11() | \
      q12() | q13() | q14() | q15() | q16() | q17() | q18() | q19() | q20() | q21() | \
      q22() | q23() | q24() | q25() | q26() | q27() | q28() | q29() | q30() | q31() | \
      q32() | q33() | q34() | q35() | q36() | q37() | q38() | q39() | q40() | q41() | \
      q42() | q43() | q44() | q45() | q46() | q47() | q48() | q49() | q50() | q51() | \
      q52() | q53() | q54() | q55() | q56() | q57() | q58() | q59() | q60() | q61() | \
      q62() | q63() | q64() \
      => 0 : a() ]"
}

// The levels are the site's, the outer `def`'s, the inner one's, and those of `m` and `n`. The
// names of the outer block are `b`, `m`, `k` and `n`, and the inner rule stands
// under these, `u` and `c`.
fn nested_levels() -> &'static [Fact] {
    &[
        Fact::Sizes([5, 5, 3, 8, 1]),
        Fact::Counts(0, 65, 0),
        Fact::Level(0, [0, 0, 2], None),
        Fact::Level(1, [4, 2, 1], None),
        Fact::Level(2, [6, 3, 1], None),
        Fact::Level(3, [4, 4, 1], Some(0)),
        Fact::Level(4, [4, 5, 0], Some(1)),
        Fact::Block(0, &[0], 65),
        Fact::Block(1, &[1, 3, 4], 4),
        Fact::Block(2, &[2], 1),
        Fact::Guard(0, [0, 2, 3]),
        Fact::Guard(2, [1, 0, 1]),
        Fact::Guard(3, [2, 0, 1]),
        Fact::Guard(4, [3, 0, 1]),
        Fact::Mask(0, &[1, 0]),
        Fact::Mask(1, &[u64::MAX - 1, 1]),
    ]
}

#[test]
fn levels_and_guards(rt: HostRuntime) {
    expect_code(&rt, rt.alloc(), nested(), nested_levels());
}

// The bodies of the rules of `a`, `b`, `c` and `k`, and of the places.
fn nested_bodies() -> &'static [Fact] {
    &[
        Fact::Enter(Body::Rule(0), 0, 4),
        Fact::Send(Body::Rule(0), 1, Slot::Env(0), Some(AT_ROOT)),
        Fact::Leave(Body::Rule(0), 2, 4),
        Fact::Enter(Body::Rule(2), 0, 1),
        Fact::Send(Body::Rule(2), 1, Slot::Env(5), None),
        Fact::Send(Body::Rule(3), 0, OBSERVED, Some(Slot::Env(4))),
        Fact::Send(Body::Rule(4), 0, Slot::Env(0), Some(Slot::Env(1))),
        Fact::Send(Body::Place(3), 0, Slot::Env(2), None),
        Fact::Send(Body::Place(4), 0, Slot::Env(0), Some(Slot::Env(3))),
    ]
}

#[test]
fn bodies_of_nested_levels(rt: HostRuntime) {
    expect_code(&rt, rt.alloc(), nested(), nested_bodies());
}

// One pattern of 65 channels, and a message on each.
fn wide() -> &'static [u8] {
    b"observe out/0; site s [ c0() | c1() | c2() | c3() | c4() | c5() | c6() | c7() | c8() | \
      c9() | c10() | c11() | c12() | c13() | c14() | c15() | c16() | c17() | c18() | c19() | \
      c20() | c21() | c22() | c23() | c24() | c25() | c26() | c27() | c28() | c29() | c30() | \
      c31() | c32() | c33() | c34() | c35() | c36() | c37() | c38() | c39() | c40() | c41() | \
      c42() | c43() | c44() | c45() | c46() | c47() | c48() | c49() | c50() | c51() | c52() | \
      c53() | c54() | c55() | c56() | c57() | c58() | c59() | c60() | c61() | c62() | c63() | \
      c64() => out() : c0() | c1() | c2() | c3() | c4() | c5() | c6() | c7() | c8() | c9() | \
      c10() | c11() | c12() | c13() | c14() | c15() | c16() | c17() | c18() | c19() | c20() | \
      c21() | c22() | c23() | c24() | c25() | c26() | c27() | c28() | c29() | c30() | c31() | \
      c32() | c33() | c34() | c35() | c36() | c37() | c38() | c39() | c40() | c41() | c42() | \
      c43() | c44() | c45() | c46() | c47() | c48() | c49() | c50() | c51() | c52() | c53() | \
      c54() | c55() | c56() | c57() | c58() | c59() | c60() | c61() | c62() | c63() | c64() ]"
}

// The mask has two words.
fn wide_level() -> &'static [Fact] {
    &[
        Fact::Sizes([1, 1, 1, 2, 1]),
        Fact::Level(0, [0, 0, 1], None),
        Fact::Counts(0, 65, 0),
        Fact::Guard(0, [0, 0, 1]),
        Fact::Mask(0, &[u64::MAX, 1]),
        Fact::Length(Body::Rule(0), 1),
        Fact::Length(Body::Site, 65),
    ]
}

#[test]
fn a_level_with_two_status_words(rt: HostRuntime) {
    expect_code(&rt, rt.alloc(), wide(), wide_level());
}

fn write_deep(text: &mut Vec<u8>, definitions: usize) -> Result<(), AllocError> {
    text.extend_from_slice(b"version 2; site s [ none : ")?;
    for _definition in 0..definitions {
        text.extend_from_slice(b"def a() => 0 in ")?;
    }
    text.extend_from_slice(b"a() ]")
}

// `def a() => 0 in def a() => 0 in .. a()`, so many of them, as the process of a site.
fn deep(alloc: Global, definitions: usize) -> Result<Vec<u8>, AllocError> {
    let mut text = Vec::new(alloc);
    write_deep(&mut text, definitions)?;
    Ok(text)
}

// The site opens the first of the 400 levels that a text of version 2 may have. Each has a block;
// each but the site's has a rule, and the bodies are those of the rules and of the site.
#[test]
fn four_hundred_levels_fit_the_stack(rt: HostRuntime) {
    match deep(rt.alloc(), 399) {
        Ok(text) => {
            let facts = &[Fact::Sizes([400, 399, 400, 400, 1])];
            expect_code(&rt, rt.alloc(), text.as_slice(), facts);
        }
        Err(_) => assert!(rt; false, "no memory"),
    }
}
