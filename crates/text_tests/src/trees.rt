// Texts with their trees and faults. The expected values were worked out by hand.
use chem_model::Text;
use join_base::{Front, Kind};
use join_lex::lex;
use join_parse::{ProcNode, ProcTree, Tree, parse, print_tree};
use std::alloc::{AllocError, Global};
use std::process::Abort;

fn tree_of(alloc: Global, text: &[u8]) -> Result<Tree, Front> {
    let tokens = lex(alloc, text)?;
    parse(alloc, &tokens)
}

fn prints_as(alloc: Global, tree: &Tree, printed: &[u8]) -> bool {
    match print_tree(alloc, tree) {
        Ok(found) => found.as_slice() == printed,
        Err(_) => false,
    }
}

fn copy_prints_as(alloc: Global, tree: &Tree, printed: &[u8]) -> bool {
    match tree.copy(alloc) {
        Ok(copy) => prints_as(alloc, &copy, printed),
        Err(_) => false,
    }
}

// Whether a tree prints as the text, and its copy does so too.
fn prints_twice(alloc: Global, tree: &Tree, printed: &[u8]) -> bool {
    prints_as(alloc, tree, printed) && copy_prints_as(alloc, tree, printed)
}

// Whether a text has a tree, which prints as the other text, and whose copy does so too.
fn is_printed(alloc: Global, text: &[u8], printed: &[u8]) -> bool {
    match tree_of(alloc, text) {
        Ok(tree) => prints_twice(alloc, &tree, printed),
        Err(_) => false,
    }
}

// What a copy of a tree prints as.
fn copy_printed(alloc: Global, tree: &Tree) -> Option<Text> {
    match tree.copy(alloc) {
        Ok(copy) => print_tree(alloc, &copy).ok(),
        Err(_) => None,
    }
}

// What a copy of a text's tree prints as.
fn printed_of(alloc: Global, text: &[u8]) -> Option<Text> {
    match tree_of(alloc, text) {
        Ok(tree) => copy_printed(alloc, &tree),
        Err(_) => None,
    }
}

// Whether a text has a tree, and what it prints as has one that prints as the same text.
fn has_tree(alloc: Global, text: &[u8]) -> bool {
    match printed_of(alloc, text) {
        Some(printed) => is_printed(alloc, printed.as_slice(), printed.as_slice()),
        None => false,
    }
}

// Whether a text has this fault.
fn has_fault(alloc: Global, text: &[u8], kind: Kind, place: u32) -> bool {
    match tree_of(alloc, text) {
        Ok(_) => false,
        Err(fault) => fault == Front::Refused { kind, place },
    }
}

// The pieces, each so many times.
fn text_of(alloc: Global, pieces: &[(usize, &[u8])]) -> Result<Vec<u8>, AllocError> {
    let mut text = Vec::new(alloc);
    for (times, piece) in pieces {
        for _ in 0..*times {
            text.extend_from_slice(*piece)?;
        }
    }
    Ok(text)
}

// A site whose process has so many parentheses round `0`.
fn nested(alloc: Global, depth: usize) -> Result<Vec<u8>, AllocError> {
    let pieces: [(usize, &[u8]); 5] = [
        (1, b"site s [ none : "),
        (depth, b"("),
        (1, b"0"),
        (depth, b")"),
        (1, b" ]"),
    ];
    text_of(alloc, &pieces)
}

// A site whose process is a chain of so many `def`s.
fn defs(alloc: Global, depth: usize) -> Result<Vec<u8>, AllocError> {
    let pieces: [(usize, &[u8]); 3] = [
        (1, b"site s [ none : "),
        (depth, b"def none in "),
        (1, b"0 ]"),
    ];
    text_of(alloc, &pieces)
}

// A site whose process is a message of so many arguments.
fn arguments(alloc: Global, count: usize) -> Result<Vec<u8>, AllocError> {
    let pieces: [(usize, &[u8]); 3] = [
        (1, b"site s [ none : x(a"),
        (count.saturating_sub(1), b",a"),
        (1, b") ]"),
    ];
    text_of(alloc, &pieces)
}

// Texts, each with what its tree prints as.
const PRINTED: &[(&[u8], &[u8])] = &[
    (b"site s [ none : q() ]", b"site s [ none : q ( ) ]\n"),
    (
        b"observe out/007; site s [x(u)|y()=>000:halt()]",
        b"observe out / 7 ; site s [ x ( u ) | y ( ) => 0 : halt ( ) ]\n",
    ),
    (
        b"site a[m[none:go(b,k)]and d()=>fail(m,d):(0|0)]site b[none:0]",
        b"site a [ m [ none : go ( b , k ) ] and d ( ) => fail ( m , d ) : ( 0 | 0 ) ] site b [ \
            none : 0 ]\n",
    ),
    (
        b"observe out/255; site s [ none : 0 ]",
        b"observe out / 255 ; site s [ none : 0 ]\n",
    ),
    (
        b"# c\nsite s [ none : (0 | 0) ]",
        b"site s [ none : ( 0 | 0 ) ]\n",
    ),
];

#[test]
fn small_trees(rt: HostRuntime) {
    for (at, (text, printed)) in PRINTED.iter().enumerate() {
        assert!(rt; is_printed(rt.alloc(), *text, *printed), "text {at}");
    }
}

// Whether it is one process, a `def` whose own process has two members.
fn is_def_of_two(processes: &[ProcTree]) -> bool {
    match processes {
        [process] => match process.node() {
            ProcNode::Def { body, .. } => body.len() == 2,
            _ => false,
        },
        _ => false,
    }
}

// Whether the process of the first site is such a `def`.
fn begins_with_def(alloc: Global, text: &[u8]) -> bool {
    match tree_of(alloc, text) {
        Ok(tree) => match tree.sites.as_slice().first() {
            Some(site) => is_def_of_two(site.body.as_slice()),
            None => false,
        },
        Err(_) => false,
    }
}

#[test]
fn a_def_takes_all_to_its_right(rt: HostRuntime) {
    let text = b"observe out/0; site s [ none : def x() => out() in 0 | x() ]";
    let printed = b"observe out / 0 ; site s [ none : def x ( ) => out ( ) in 0 | x ( ) ]\n";
    assert!(rt; is_printed(rt.alloc(), text, printed));
    assert!(rt; begins_with_def(rt.alloc(), text));
}

// Texts that are refused, and where.
const REFUSED: &[(&[u8], Kind, u32)] = &[
    (b"", Kind::Grammar1, 0),
    (b"site s [ none : 0 ] x", Kind::Grammar1, 20),
    (b"site s [ none : 0", Kind::Grammar1, 17),
    (b"site s [ none : 1 ]", Kind::Grammar1, 16),
    (b"observe out/1;", Kind::Grammar1, 14),
    (b"observe out/1; observe site", Kind::Grammar1, 23),
    // a place within a place, and a `none` among definitions
    (
        b"site a [ m [ n [ none : 0 ] : 0 ] : 0 ]",
        Kind::Grammar1,
        15,
    ),
    (b"site a [ x() => 0 and none : 0 ]", Kind::Grammar1, 22),
    // the first of two faults
    (b"site s [ x( => 0 : ) ]", Kind::Grammar1, 12),
    // another kind goes before
    (b"site [ $", Kind::Lex2, 7),
    (b"observe out/256;", Kind::Lex3, 12),
];

#[test]
fn refused_texts(rt: HostRuntime) {
    for (at, (text, kind, place)) in REFUSED.iter().enumerate() {
        assert!(rt; has_fault(rt.alloc(), *text, *kind, *place), "text {at}");
    }
}

// Whether a text is made, and has this fault, or where none is named a tree.
fn ends_so(alloc: Global, text: Result<Vec<u8>, AllocError>, fault: Option<(Kind, u32)>) -> bool {
    match (text, fault) {
        (Ok(text), Some((kind, place))) => has_fault(alloc, &text, kind, place),
        (Ok(text), None) => has_tree(alloc, &text),
        (Err(_), _) => false,
    }
}

// The level of a `def` ends with its whole process.
#[test]
fn levels(rt: HostRuntime) {
    let alloc = rt.alloc();
    let too_deep = Some((Kind::Grammar2, 215));
    assert!(rt; ends_so(alloc, nested(alloc, 199), None));
    assert!(rt; ends_so(alloc, nested(alloc, 200), too_deep));
    assert!(rt; ends_so(alloc, nested(alloc, 1000), too_deep));
    let too_deep = Some((Kind::Grammar2, 16 + 199 * 12));
    assert!(rt; ends_so(alloc, defs(alloc, 199), None));
    assert!(rt; ends_so(alloc, defs(alloc, 200), too_deep));
}

// A place at level 201.
fn a_place_too_deep(alloc: Global) -> Result<Vec<u8>, AllocError> {
    let pieces: [(usize, &[u8]); 5] = [
        (1, b"site s [ none : "),
        (198, b"("),
        (1, b"def m [ none : 0 ] in 0"),
        (198, b")"),
        (1, b" ]"),
    ];
    text_of(alloc, &pieces)
}

// A place at level 201, where none may stand.
fn a_place_within_a_place(alloc: Global) -> Result<Vec<u8>, AllocError> {
    let pieces: [(usize, &[u8]); 3] = [
        (1, b"site s [ none : "),
        (197, b"("),
        (1, b"def m [ n [ none : 0 ] : 0 ] in 0"),
    ];
    text_of(alloc, &pieces)
}

#[test]
fn places_at_level_201(rt: HostRuntime) {
    let alloc = rt.alloc();
    let deep = Some((Kind::Grammar2, 16 + 198 + 6));
    assert!(rt; ends_so(alloc, a_place_too_deep(alloc), deep));
    let within = Some((Kind::Grammar1, 16 + 197 + 10));
    assert!(rt; ends_so(alloc, a_place_within_a_place(alloc), within));
}

#[test]
fn lists_of_identifiers(rt: HostRuntime) {
    let alloc = rt.alloc();
    assert!(rt; ends_so(alloc, arguments(alloc, 255), None));
    // the comma behind the 255th
    let comma = Some((Kind::Grammar1, 16 + 2 + 255 * 2 - 1));
    assert!(rt; ends_so(alloc, arguments(alloc, 256), comma));
}

#[test]
fn an_agent_asks_a_shop_for_a_price(rt: HostRuntime) {
    let text = b"observe log/2;\n# an agent asks a shop for a price and comes home\nsite home [\n  \
            agent [\n    start() => go(shop, ask) and\n    ask() => price(agent, got) and\n    \
            got(p) => log(shop, p) | go(home, back) and\n    back() => done(agent)\n    : \
            start()\n  ] and\n  done(a) => log(home, a)\n  : 0\n]\nsite shop [\n  cheap() => 0 \
            and\n  price(who, k) => k(cheap)\n  : 0\n]\n";
    let printed =
        b"observe log / 2 ; site home [ agent [ start ( ) => go ( shop , ask ) and ask ( ) => \
            price ( agent , got ) and got ( p ) => log ( shop , p ) | go ( home , back ) and \
            back ( ) => done ( agent ) : start ( ) ] and done ( a ) => log ( home , a ) : 0 ] \
            site shop [ cheap ( ) => 0 and price ( who , k ) => k ( cheap ) : 0 ]\n";
    assert!(rt; is_printed(rt.alloc(), text, printed));
    assert!(rt; is_printed(rt.alloc(), printed, printed));
}

// So many members of one process.
fn messages(alloc: Global, count: usize) -> Result<Vec<u8>, AllocError> {
    let pieces: [(usize, &[u8]); 3] = [
        (1, b"site s[none:x()"),
        (count.saturating_sub(1), b"|0"),
        (1, b"]"),
    ];
    text_of(alloc, &pieces)
}

// Whether the process of the first site has so many members.
fn has_members(alloc: Global, text: &[u8], count: usize) -> bool {
    match tree_of(alloc, text) {
        Ok(tree) => match tree.sites.as_slice().first() {
            Some(site) => site.body.len() == count,
            None => false,
        },
        Err(_) => false,
    }
}

#[test]
fn many_messages(rt: HostRuntime) {
    match messages(rt.alloc(), 300_000) {
        Ok(text) => assert!(rt; has_members(rt.alloc(), &text, 300_000)),
        Err(_) => assert!(rt; false, "no memory"),
    }
}
