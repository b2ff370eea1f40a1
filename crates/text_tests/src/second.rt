// Texts of the second version, and texts that only look like one. The expected values were worked
// out by hand.
use chem_model::Text;
use join_base::{Front, Kind};
use join_lex::lex;
use join_parse::{Arg, ProcNode, ProcTree, Tree, parse, print_tree};
use std::alloc::{AllocError, Global};
use std::process::Abort;

fn tree_of(alloc: Global, text: &[u8]) -> Result<Tree, Front> {
    let tokens = lex(alloc, text)?;
    parse(alloc, &tokens)
}

// Whether a text has this fault.
fn has_fault(alloc: Global, text: &[u8], kind: Kind, place: u32) -> bool {
    match tree_of(alloc, text) {
        Ok(_) => false,
        Err(fault) => fault == Front::Refused { kind, place },
    }
}

// What a copy of a tree prints as.
fn copy_printed(alloc: Global, tree: &Tree) -> Option<Text> {
    match tree.copy(alloc) {
        Ok(copy) => print_tree(alloc, &copy).ok(),
        Err(_) => None,
    }
}

// Whether a text has a tree of a version, whose copy prints as the other text.
fn is_printed(alloc: Global, text: &[u8], version: u32, printed: &[u8]) -> bool {
    match tree_of(alloc, text) {
        Ok(tree) => match copy_printed(alloc, &tree) {
            Some(found) => tree.version == version && found.as_slice() == printed,
            None => false,
        },
        Err(_) => false,
    }
}

// The pieces, each so many times.
fn text_of(alloc: Global, pieces: &[(usize, &[u8])]) -> Result<Vec<u8>, AllocError> {
    let mut text = Vec::new(alloc);
    for (times, piece) in pieces {
        for _ in 0..*times {
            text.extend_from_slice(*piece)?;
        }
    }
    Ok(text)
}

// Texts, each with its version and what its tree prints as.
const PRINTED: &[(&[u8], u32, &[u8])] = &[
    (
        b"version 2; site s[none:add(1,x,k)|same(007,18446744073709551615,y,n)|x(0,a,65536)|(0)]",
        2,
        b"version 2 ; site s [ none : add ( 1 , x , k ) | same ( 7 , 18446744073709551615 , y , n \
            ) | x ( 0 , a , 65536 ) | ( 0 ) ]\n",
    ),
    (
        b"# version 3;\nversion # 1\n 02\t;observe out/0255; site s [ none : out(7) ]",
        2,
        b"version 2 ; observe out / 255 ; site s [ none : out ( 7 ) ]\n",
    ),
    (
        b"version 2; site version [ version(u) => version(2) : 0 ]",
        2,
        b"version 2 ; site version [ version ( u ) => version ( 2 ) : 0 ]\n",
    ),
    (
        b"site version [ add(u) => same() and same() => version(add) : 0 ]",
        1,
        b"site version [ add ( u ) => same ( ) and same ( ) => version ( add ) : 0 ]\n",
    ),
];

#[test]
fn printed_trees(rt: HostRuntime) {
    for (at, (text, version, printed)) in PRINTED.iter().enumerate() {
        assert!(rt;
            is_printed(rt.alloc(), *text, *version, *printed),
            "text {at}"
        );
        assert!(rt;
            is_printed(rt.alloc(), *printed, *version, *printed),
            "printed {at}"
        );
    }
}

// Texts that are refused, and where.
const REFUSED: &[(&[u8], Kind, u32)] = &[
    // no text of the second version
    (b"version", Kind::Grammar1, 0),
    (b"version 2", Kind::Grammar1, 0),
    (b"version;", Kind::Grammar1, 0),
    (
        b"version 2 observe x/0; site s [ none : 0 ]",
        Kind::Grammar1,
        0,
    ),
    (b"version 3; site s [ none : 0 ]", Kind::Grammar1, 0),
    (
        b"# version 2;\nversion 1; site s [ none : 0 ]",
        Kind::Grammar1,
        13,
    ),
    (b"version 2, site s [ none : 0 ]", Kind::Grammar1, 0),
    (b"Version 2; site s [ none : 0 ]", Kind::Lex2, 0),
    (b"version 300", Kind::Lex3, 8),
    (b"version 3; x 256", Kind::Lex3, 13),
    (b"site s [ none : 0 ] version 2; x 256", Kind::Lex3, 33),
    // literals in the first version
    (
        b"observe out/1; site s [ x(u) => out(u) : x(7) ]",
        Kind::Grammar1,
        43,
    ),
    (b"site s [ none : x(256) ]", Kind::Lex3, 18),
    // numbers of the second version
    (
        b"version 2; observe out/1; site s [ x(u) => out(u) : x(18446744073709551616) ]",
        Kind::Lex3,
        54,
    ),
    (
        b"version 2; observe out/256; site s [none:0]",
        Kind::Grammar1,
        23,
    ),
    (b"version 2; site s [ none : 7(s) ]", Kind::Grammar1, 27),
    (b"version 2; site s [ none : 0(s) ]", Kind::Grammar1, 28),
    (b"version 2; site s [ none : go(7, k) ]", Kind::Grammar1, 30),
    (b"version 2; site s [ x(7) => 0 : 0 ]", Kind::Grammar1, 22),
    // operations
    (
        b"version 2; site s [ none : add(1, 2) ]",
        Kind::Grammar1,
        35,
    ),
    (
        b"version 2; site s [ none : add(1, 2, 3) ]",
        Kind::Grammar1,
        37,
    ),
    (
        b"version 2; site s [ none : same(1, 2, 3, k) ]",
        Kind::Grammar1,
        38,
    ),
    (
        b"version 2; site s [ none : same(1, 2, k) ]",
        Kind::Grammar1,
        39,
    ),
    (b"version 2; site s [ add(u) => 0 : 0 ]", Kind::Grammar1, 20),
    (b"version 2; site s [ none : x(same) ]", Kind::Grammar1, 29),
    (
        b"version 2; observe add/0; site s [ none : 0 ]",
        Kind::Grammar1,
        19,
    ),
    (b"version 2;", Kind::Grammar1, 10),
    (
        b"version 2; version 2; site s [ none : 0 ]",
        Kind::Grammar1,
        11,
    ),
];

#[test]
fn refused_texts(rt: HostRuntime) {
    for (at, (text, kind, place)) in REFUSED.iter().enumerate() {
        assert!(rt; has_fault(rt.alloc(), *text, *kind, *place), "text {at}");
    }
}

// A message whose argument is so many of a digit.
fn literal(alloc: Global, digit: &[u8], count: usize) -> Result<Vec<u8>, AllocError> {
    let pieces: [(usize, &[u8]); 3] = [
        (1, b"version 2; site s [ none : x("),
        (count, digit),
        (1, b"5) ]"),
    ];
    text_of(alloc, &pieces)
}

// A site whose process has so many parentheses round `0`.
fn nested(alloc: Global, depth: usize) -> Result<Vec<u8>, AllocError> {
    let pieces: [(usize, &[u8]); 5] = [
        (1, b"version 2; site s [ none : "),
        (depth, b"("),
        (1, b"0"),
        (depth, b")"),
        (1, b" ]"),
    ];
    text_of(alloc, &pieces)
}

// A site whose process is a chain of so many `def`s.
fn defs(alloc: Global, depth: usize) -> Result<Vec<u8>, AllocError> {
    let pieces: [(usize, &[u8]); 3] = [
        (1, b"version 2; site s [ none : "),
        (depth, b"def x() => 0 in "),
        (1, b"0 ]"),
    ];
    text_of(alloc, &pieces)
}

// A message of so many numbers.
fn numbers(alloc: Global, count: usize) -> Result<Vec<u8>, AllocError> {
    let pieces: [(usize, &[u8]); 3] = [
        (1, b"version 2; site s [ none : x(1"),
        (count.saturating_sub(1), b",1"),
        (1, b") ]"),
    ];
    text_of(alloc, &pieces)
}

// Whether a text has a tree whose copy can be printed.
fn has_tree(alloc: Global, text: &[u8]) -> bool {
    match tree_of(alloc, text) {
        Ok(tree) => copy_printed(alloc, &tree).is_some(),
        Err(_) => false,
    }
}

// Whether a text is made, and has this fault, or where none is named a tree.
fn ends_so(alloc: Global, text: Result<Vec<u8>, AllocError>, fault: Option<(Kind, u32)>) -> bool {
    match (text, fault) {
        (Ok(text), Some((kind, place))) => has_fault(alloc, &text, kind, place),
        (Ok(text), None) => has_tree(alloc, &text),
        (Err(_), _) => false,
    }
}

#[test]
fn a_literal_of_a_million_digits(rt: HostRuntime) {
    let alloc = rt.alloc();
    assert!(rt; ends_so(alloc, literal(alloc, b"0", 1_000_000), None));
    let large = Some((Kind::Lex3, 29));
    assert!(rt; ends_so(alloc, literal(alloc, b"1", 1_000_000), large));
}

#[test]
fn levels(rt: HostRuntime) {
    let alloc = rt.alloc();
    let deep = Some((Kind::Grammar2, 426));
    assert!(rt; ends_so(alloc, nested(alloc, 399), None));
    assert!(rt; ends_so(alloc, nested(alloc, 400), deep));
    let deep = Some((Kind::Grammar2, 27 + 399 * 16));
    assert!(rt; ends_so(alloc, defs(alloc, 399), None));
    assert!(rt; ends_so(alloc, defs(alloc, 400), deep));
}

#[test]
fn lists_of_numbers(rt: HostRuntime) {
    let alloc = rt.alloc();
    assert!(rt; ends_so(alloc, numbers(alloc, 255), None));
    // the comma behind the 255th
    let comma = Some((Kind::Grammar1, 27 + 2 + 255 * 2 - 1));
    assert!(rt; ends_so(alloc, numbers(alloc, 256), comma));
}

// Whether these are one number, which stands at this place.
fn is_number_at(args: &[Arg], number: u64, at: u32) -> bool {
    match args {
        [Arg::Num { value, place }] => *value == number && *place == at,
        _ => false,
    }
}

// Whether the last process is a message of this number, which stands at this place.
fn ends_with_number(processes: &[ProcTree], number: u64, at: u32) -> bool {
    match processes.last() {
        Some(process) => match process.node() {
            ProcNode::Msg { args, .. } => is_number_at(args.as_slice(), number, at),
            _ => false,
        },
        None => false,
    }
}

// Whether the process of the first site ends with such a message.
fn has_number(alloc: Global, text: &[u8], number: u64, at: u32) -> bool {
    match tree_of(alloc, text) {
        Ok(tree) => match tree.sites.as_slice().first() {
            Some(site) => ends_with_number(site.body.as_slice(), number, at),
            None => false,
        },
        Err(_) => false,
    }
}

#[test]
fn a_literal_keeps_its_place(rt: HostRuntime) {
    let text = b"version 2; site s [ none : (0) | 0 | x(  0005) ]";
    assert!(rt; has_number(rt.alloc(), text, 5, 41));
}
