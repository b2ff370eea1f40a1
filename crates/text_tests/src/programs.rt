// Texts with their programs and faults, read from the first byte on. The expected values were
// worked out by hand.
use chem_model::{
    Defn, DefnNode, Name, Pat, Proc, ProcNode, Program, Ref, SeenDecl, SiteTerm, Text,
};
use join_base::{Front, Kind};
use std::alloc::{AllocError, Global};
use std::process::Abort;
use worked_programs::program_of;

// What comes of a text.
#[derive(Clone, Copy)]
enum End {
    // This fault.
    Fault(Kind, u32),
    // A program with so many site-level binders and so many binders in all.
    Binders(u32, usize),
}

fn ends_so(alloc: Global, text: &[u8], end: &End) -> bool {
    match (program_of(alloc, text), end) {
        (Err(fault), End::Fault(kind, place)) => {
            fault
                == Front::Refused {
                    kind: *kind,
                    place: *place,
                }
        }
        (Ok(p), End::Binders(tops, all)) => p.tops == *tops && p.spell.len() == *all,
        _ => false,
    }
}

// That each text ends as its row says.
fn expect_ends(rt: &impl Abort, alloc: Global, rows: &[(&[u8], End)]) {
    for (at, (text, end)) in rows.iter().enumerate() {
        assert!(rt; ends_so(alloc, *text, end), "text {at}");
    }
}

const NOWHERE: &[(&[u8], End)] = &[
    (b"site s [ none : q() ]", End::Fault(Kind::Scope1, 16)),
    (
        b"site s [ none : def m[ x() => 0 : 0 ] in 0 | x() ]",
        End::Binders(1, 3),
    ),
    (
        b"site s [ none : (def m[ x() => 0 : 0 ] in 0) | x() ]",
        End::Fault(Kind::Scope1, 47),
    ),
];

#[test]
fn a_name_that_is_nowhere(rt: HostRuntime) {
    expect_ends(&rt, rt.alloc(), NOWHERE);
}

const TWO_LOCATIONS: &[(&[u8], End)] = &[
    (
        b"site a [ x() => 0 and m[ x() => 0 : 0 ] : 0 ]",
        End::Fault(Kind::Scope2, 25),
    ),
    (
        b"site s [ none : def m[ x() => 0 : 0 ] and x() => 0 in 0 ]",
        End::Fault(Kind::Scope2, 42),
    ),
    (
        b"site a [ x() => 0 : 0 ] site b [ x() => 0 : 0 ]",
        End::Fault(Kind::Scope2, 33),
    ),
];

#[test]
fn one_channel_at_two_locations(rt: HostRuntime) {
    expect_ends(&rt, rt.alloc(), TWO_LOCATIONS);
}

// Two faults, the first of which is told.
const TWO_FAULTS: &[(&[u8], End)] = &[
    (
        b"site s [ x(u) => 0 : x() | q() ]",
        End::Fault(Kind::Arity1, 21),
    ),
    (
        b"site s [ x() | x(u) => 0 : 0 ]",
        End::Fault(Kind::Scope5, 15),
    ),
];

#[test]
fn the_least_place_comes_first(rt: HostRuntime) {
    expect_ends(&rt, rt.alloc(), TWO_FAULTS);
}

// What stands twice.
const TWICE: &[(&[u8], End)] = &[
    (b"site s [ s() => 0 : 0 ]", End::Fault(Kind::Scope3, 9)),
    (b"site s [ x(u, u) => 0 : 0 ]", End::Fault(Kind::Scope4, 14)),
    (
        b"site s [ x() | x() => 0 : 0 ]",
        End::Fault(Kind::Scope5, 15),
    ),
    (
        b"observe out/0; site s [ out() => 0 : 0 ]",
        End::Fault(Kind::Scope3, 24),
    ),
    (
        b"observe x/0; observe x/0; site s [ none : 0 ]",
        End::Fault(Kind::Scope3, 21),
    ),
];

#[test]
fn what_stands_twice(rt: HostRuntime) {
    expect_ends(&rt, rt.alloc(), TWICE);
}

// What is used wrongly.
const WRONG: &[(&[u8], End)] = &[
    (
        b"site s [ x() => 0 and x(u) => 0 : 0 ]",
        End::Fault(Kind::Arity2, 22),
    ),
    (b"site s [ none : s() ]", End::Fault(Kind::Arity3, 16)),
    (
        b"site s [ x() => 0 : go(x, x) ]",
        End::Fault(Kind::Arity4, 23),
    ),
    (
        b"site s [ x(u) => 0 : fail(s, x) ]",
        End::Fault(Kind::Arity1, 29),
    ),
    (
        b"site s [ x(u) => 0 : go(s, x) ]",
        End::Fault(Kind::Arity1, 27),
    ),
    (
        b"observe out/1; site s [ none : out() ]",
        End::Fault(Kind::Arity1, 31),
    ),
    (b"site s [ none : go(s, s) ]", End::Fault(Kind::Arity3, 22)),
    (
        b"site s [ none : fail(s, s) ]",
        End::Fault(Kind::Arity3, 24),
    ),
];

#[test]
fn what_is_used_wrongly(rt: HostRuntime) {
    expect_ends(&rt, rt.alloc(), WRONG);
}

// So many sites of 18 bytes each.
fn sites(alloc: Global, count: u8) -> Result<Vec<u8>, AllocError> {
    let mut text = Vec::new(alloc);
    for number in 0..count {
        text.extend_from_slice(b"site s")?;
        text.push(b'0' + number / 10 % 10)?;
        text.push(b'0' + number % 10)?;
        text.extend_from_slice(b" [none:0] ")?;
    }
    Ok(text)
}

// Whether the text of so many sites ends so.
fn sites_end_so(alloc: Global, count: u8, end: End) -> bool {
    match sites(alloc, count) {
        Ok(text) => ends_so(alloc, &text, &end),
        Err(_) => false,
    }
}

#[test]
fn the_sixty_fifth_site(rt: HostRuntime) {
    assert!(rt; sites_end_so(rt.alloc(), 64, End::Binders(64, 64)));
    assert!(rt; sites_end_so(rt.alloc(), 65, End::Fault(Kind::Scope6, 1152)));
}

// So many sites of 19 bytes each, in a text of the second version.
fn sites_of_second(alloc: Global, count: u16) -> Result<Vec<u8>, AllocError> {
    let mut text = Vec::new(alloc);
    text.extend_from_slice(b"version 2; ")?;
    for number in 0..count {
        text.extend_from_slice(b"site s")?;
        text.push(b'0' + (number / 100 % 10) as u8)?;
        text.push(b'0' + (number / 10 % 10) as u8)?;
        text.push(b'0' + (number % 10) as u8)?;
        text.extend_from_slice(b" [none:0] ")?;
    }
    Ok(text)
}

// Whether the text of so many sites of the second version ends so.
fn sites_of_second_end_so(alloc: Global, count: u16, end: End) -> bool {
    match sites_of_second(alloc, count) {
        Ok(text) => ends_so(alloc, &text, &end),
        Err(_) => false,
    }
}

#[test]
fn the_site_after_256(rt: HostRuntime) {
    assert!(rt; sites_of_second_end_so(rt.alloc(), 256, End::Binders(256, 256)));
    assert!(rt; sites_of_second_end_so(rt.alloc(), 257, End::Fault(Kind::Scope6, 4875)));
}

// Operations and their names.
const OPERATIONS: &[(&[u8], End)] = &[
    // `add` sends a message with one argument
    (
        b"version 2; site s [ x() => 0 : add(1, 2, x) ]",
        End::Fault(Kind::Arity1, 41),
    ),
    // `same` sends one without arguments, on one of two names
    (
        b"version 2; site s [ x(u) => 0 : same(1, 2, x, x) ]",
        End::Fault(Kind::Arity1, 43),
    ),
    (
        b"version 2; site s [ none : add(1, 2, s) ]",
        End::Fault(Kind::Arity3, 37),
    ),
    (
        b"version 2; site s [ x() => 0 : same(1, 2, x, s) ]",
        End::Fault(Kind::Arity3, 45),
    ),
    (
        b"version 2; site s [ none : add(1, q, s) ]",
        End::Fault(Kind::Scope1, 34),
    ),
    // a channel and a location may stand where numbers are wanted
    (
        b"version 2; site s [ x() => 0 : same(x, s, x, x) ]",
        End::Binders(2, 2),
    ),
];

#[test]
fn names_of_operations(rt: HostRuntime) {
    expect_ends(&rt, rt.alloc(), OPERATIONS);
}

const HIDDEN: &[(&[u8], End)] = &[
    // the inner channel takes two arguments, and the innermost none
    (
        b"site s [ x(u) => def x(v, w) => def x() => x() in x() in x(u, u) : x(s) ]",
        End::Binders(2, 7),
    ),
    (
        b"site s [ x(u) => def x(v, w) => 0 in x(u) : x(s) ]",
        End::Fault(Kind::Arity1, 37),
    ),
    // a parameter hides a channel of its spelling, and has no count
    (
        b"site s [ x(x) => x() | x(s, s) : x(s) ]",
        End::Binders(2, 3),
    ),
];

#[test]
fn inner_names_hide_outer_ones(rt: HostRuntime) {
    expect_ends(&rt, rt.alloc(), HIDDEN);
}

const USED_BEFORE: &[(&[u8], End)] = &[
    (
        b"site s [ x() => y(s) and m[ y(a) => 0 : 0 ] : 0 ] site t [ none : y(t) ]",
        End::Binders(5, 6),
    ),
    (
        b"site s [ x() => y() and m[ y(a) => 0 : 0 ] : 0 ]",
        End::Fault(Kind::Arity1, 16),
    ),
];

#[test]
fn a_use_before_the_definition(rt: HostRuntime) {
    expect_ends(&rt, rt.alloc(), USED_BEFORE);
}

// Whether these are the three names, `s`, `x` and `u`.
fn are_names(spell: &[Text]) -> bool {
    match spell {
        [s, x, u] => {
            s.as_slice() == b"s".as_slice()
                && x.as_slice() == b"x".as_slice()
                && u.as_slice() == b"u".as_slice()
        }
        _ => false,
    }
}

// Whether a process is a message with one argument.
fn is_message(p: &Proc, channel: Ref, argument: Ref) -> bool {
    match p.node() {
        ProcNode::Msg { on, args } => *on == channel && args.as_slice() == [argument].as_slice(),
        _ => false,
    }
}

// Whether a program's one site adds these two for the first observed name.
fn adds(p: &Program, left: Ref, right: Ref) -> bool {
    match p.sites.as_slice() {
        [site] => match site.body.node() {
            ProcNode::Msg { on, args } => {
                *on == Ref::Known(Name::Op(0))
                    && args.as_slice() == [left, right, Ref::Known(Name::Seen(0))].as_slice()
            }
            _ => false,
        },
        _ => false,
    }
}

#[test]
fn a_sum_as_a_message(rt: HostRuntime) {
    match program_of(
        rt.alloc(),
        b"version 2; observe out/1; site s [ none : add(007, s, out) ]",
    ) {
        Ok(p) => {
            assert!(&rt; p.version == 2);
            assert!(&rt; adds(&p, Ref::Known(Name::Num(7)), Ref::Binder(0)));
        }
        Err(_) => assert!(&rt; false),
    }
}

// Whether it is one pattern with one parameter.
fn is_pattern(pats: &[Pat], on: Ref, param: u32) -> bool {
    match pats {
        [pat] => pat.on == on && pat.params.as_slice() == [param].as_slice(),
        _ => false,
    }
}

// Whether it is one rule, `x(u) => out(u)`.
fn is_rule(defs: &[Defn]) -> bool {
    match defs {
        [rule] => match rule.node() {
            DefnNode::Rule { pats, body } => {
                is_pattern(pats.as_slice(), Ref::Binder(1), 2)
                    && is_message(body, Ref::Known(Name::Seen(0)), Ref::Binder(2))
            }
            DefnNode::Place { .. } => false,
        },
        _ => false,
    }
}

// Whether it is one declaration, `out/1`.
fn is_seen(seen: &[SeenDecl]) -> bool {
    match seen {
        [out] => out.count == 1 && out.spell.as_slice() == b"out".as_slice(),
        _ => false,
    }
}

// Whether it is one site, with that rule and `x(s)`.
fn is_site(sites: &[SiteTerm]) -> bool {
    match sites {
        [site] => {
            site.name == 0
                && is_rule(site.defs.as_slice())
                && is_message(&site.body, Ref::Binder(1), Ref::Binder(0))
        }
        _ => false,
    }
}

// Whether it is the program of the first example.
fn is_first(p: &Program) -> bool {
    p.tops == 2
        && are_names(p.spell.as_slice())
        && is_seen(p.seen.as_slice())
        && is_site(p.sites.as_slice())
}

// Whether the copy of a program is that of the first example.
fn is_first_copied(alloc: Global, p: &Program) -> bool {
    match p.copy(alloc) {
        Ok(copy) => {
            let is_same = is_first(&copy);
            drop(copy);
            is_same
        }
        Err(_) => false,
    }
}

#[test]
fn the_first_example(rt: HostRuntime) {
    match program_of(
        rt.alloc(),
        b"observe out/1; site s [ x(u) => out(u) : x(s) ]",
    ) {
        Ok(p) => {
            assert!(&rt; is_first(&p));
            assert!(&rt; is_first_copied(rt.alloc(), &p));
        }
        Err(_) => assert!(&rt; false),
    }
}
