// Texts with their tokens and faults. The expected values were worked out by hand.
use join_base::{Front, Kind};
use join_lex::{Key, Kind2, Sign, Token, Tokens, lex};
use std::alloc::{AllocError, Global};
use std::process::Abort;

// What a token is to be.
#[derive(Clone, Copy)]
enum Want {
    Key(Key),
    Sign(Sign),
    Number(u64),
    Name(&'static [u8]),
}

// A token: where it begins, where it ends, and what it is.
type Row = (u32, u32, Want);

// Whether a token is of the wanted kind.
fn is_wanted(kind: &Kind2, want: Want) -> bool {
    match (kind, want) {
        (Kind2::Key(found), Want::Key(key)) => *found == key,
        (Kind2::Sign(found), Want::Sign(sign)) => *found == sign,
        (Kind2::Number(found), Want::Number(value)) => *found == value,
        (Kind2::Ident(found), Want::Name(name)) => found.as_slice() == name,
        _ => false,
    }
}

// Whether a token is as its row says.
fn is_row(token: &Token, (from, upto, want): &Row) -> bool {
    token.span.from == *from && token.span.upto == *upto && is_wanted(&token.kind, *want)
}

// Whether a text has so many tokens and bytes.
fn has_size(tokens: &Tokens, count: usize, bytes: u32) -> bool {
    tokens.list.len() == count && tokens.length == bytes
}

// Whether it is the token at an index.
fn is_at(tokens: &Tokens, index: usize, row: &Row) -> bool {
    match tokens.list.as_slice().get(index) {
        Some(token) => is_row(token, row),
        None => false,
    }
}

// That there are these tokens and no others, of a text of so many bytes.
fn expect_each(rt: &impl Abort, tokens: &Tokens, rows: &[Row], bytes: u32) {
    assert!(rt; has_size(tokens, rows.len(), bytes));
    for (at, row) in rows.iter().enumerate() {
        assert!(rt; is_at(tokens, at, row), "token {at}");
    }
}

// That a text has these tokens and no others.
fn expect_tokens(rt: &impl Abort, alloc: Global, text: &[u8], rows: &[Row]) {
    match lex(alloc, text) {
        Ok(tokens) => expect_each(rt, &tokens, rows, text.len() as u32),
        Err(_) => assert!(rt; false),
    }
}

// Whether a text has this fault.
fn has_fault(alloc: Global, text: &[u8], kind: Kind, place: u32) -> bool {
    match lex(alloc, text) {
        Ok(_) => false,
        Err(fault) => fault == Front::Refused { kind, place },
    }
}

// So many of one byte.
fn many(alloc: Global, byte: u8, count: usize) -> Result<Vec<u8>, AllocError> {
    vec![in alloc; byte; count]
}

const LEAST_PROGRAM: &[Row] = &[
    (0, 4, Want::Key(Key::Site)),
    (5, 6, Want::Name(b"s")),
    (7, 8, Want::Sign(Sign::SquareLeft)),
    (9, 13, Want::Key(Key::Void)),
    (14, 15, Want::Sign(Sign::Colon)),
    (16, 17, Want::Number(0)),
    (18, 19, Want::Sign(Sign::SquareRight)),
];

#[test]
fn a_least_program(rt: HostRuntime) {
    expect_tokens(&rt, rt.alloc(), b"site s [ none : 0 ]", LEAST_PROGRAM);
}

const KEYWORDS: &[Row] = &[
    (0, 7, Want::Key(Key::Observe)),
    (8, 12, Want::Key(Key::Site)),
    (13, 16, Want::Key(Key::Def)),
    (17, 19, Want::Key(Key::Inside)),
    (20, 23, Want::Key(Key::And)),
    (24, 26, Want::Key(Key::Go)),
    (27, 31, Want::Key(Key::Fail)),
    (32, 36, Want::Key(Key::Halt)),
    (37, 41, Want::Key(Key::Void)),
];

#[test]
fn every_keyword(rt: HostRuntime) {
    let text = b"observe site def in and go fail halt none";
    expect_tokens(&rt, rt.alloc(), text, KEYWORDS);
}

const SECOND_KEYWORDS: &[Row] = &[
    (0, 7, Want::Name(b"version")),
    (8, 11, Want::Number(2)),
    (11, 12, Want::Sign(Sign::Semicolon)),
    (13, 16, Want::Key(Key::Add)),
    (17, 21, Want::Key(Key::Same)),
    (22, 29, Want::Name(b"version")),
    (30, 34, Want::Name(b"adds")),
];

const FIRST_NAMES: &[Row] = &[
    (0, 3, Want::Name(b"add")),
    (4, 8, Want::Name(b"same")),
    (9, 16, Want::Name(b"version")),
    (17, 18, Want::Number(2)),
    (18, 19, Want::Sign(Sign::Semicolon)),
];

// `add` and `same` are keywords where the text says first that it is of the second version.
#[test]
fn keywords_of_the_second_version(rt: HostRuntime) {
    let text = b"version 002; add same version adds";
    expect_tokens(&rt, rt.alloc(), text, SECOND_KEYWORDS);
    expect_tokens(&rt, rt.alloc(), b"add same version 2;", FIRST_NAMES);
}

const LARGEST: &[Row] = &[
    (0, 7, Want::Name(b"version")),
    (8, 9, Want::Number(2)),
    (9, 10, Want::Sign(Sign::Semicolon)),
    (11, 31, Want::Number(u64::MAX)),
    (32, 57, Want::Number(256)),
];

#[test]
fn large_numbers_of_the_second_version(rt: HostRuntime) {
    let text = b"version 2; 18446744073709551615 0000000000000000000000256";
    expect_tokens(&rt, rt.alloc(), text, LARGEST);
}

const SIGNS: &[Row] = &[
    (0, 2, Want::Sign(Sign::Arrow)),
    (2, 3, Want::Sign(Sign::Colon)),
    (3, 4, Want::Sign(Sign::Bar)),
    (4, 5, Want::Sign(Sign::ParenLeft)),
    (5, 6, Want::Sign(Sign::ParenRight)),
    (6, 7, Want::Sign(Sign::SquareLeft)),
    (7, 8, Want::Sign(Sign::SquareRight)),
    (8, 9, Want::Sign(Sign::Comma)),
    (9, 10, Want::Sign(Sign::Semicolon)),
    (10, 11, Want::Sign(Sign::Slash)),
];

#[test]
fn every_sign(rt: HostRuntime) {
    expect_tokens(&rt, rt.alloc(), b"=>:|()[],;/", SIGNS);
}

const RUNS: &[Row] = &[
    (0, 1, Want::Number(0)),
    (1, 4, Want::Key(Key::And)),
    (5, 10, Want::Name(b"inX_9")),
    (11, 14, Want::Number(7)),
    (15, 19, Want::Number(255)),
];

#[test]
fn runs_end_where_they_must(rt: HostRuntime) {
    expect_tokens(&rt, rt.alloc(), b"0and inX_9 007 0255", RUNS);
}

const BETWEEN_BLANKS: &[Row] = &[(1, 2, Want::Number(0)), (5, 6, Want::Number(1))];

#[test]
fn every_blank(rt: HostRuntime) {
    expect_tokens(&rt, rt.alloc(), b"\t0\r\n 1 ", BETWEEN_BLANKS);
}

const BEFORE_A_COMMENT: &[Row] = &[(0, 1, Want::Number(1))];

const BEHIND_A_COMMENT: &[Row] = &[(5, 6, Want::Number(1))];

const BEHIND_A_LINE: &[Row] = &[(7, 8, Want::Number(4))];

#[test]
fn comments(rt: HostRuntime) {
    expect_tokens(&rt, rt.alloc(), b"1 # 2", BEFORE_A_COMMENT);
    expect_tokens(&rt, rt.alloc(), b"#\xff\x80$\n1", BEHIND_A_COMMENT);
    expect_tokens(&rt, rt.alloc(), b"# 2\r;\n 4", BEHIND_A_LINE);
}

// Texts, and where the first byte stands that begins no token.
const NO_TOKENS: &[(&[u8], u32)] = &[
    (b"=", 0),
    (b"x = > y", 2),
    (b"site [ $", 7),
    (b"# a\nX", 4),
    (b"0 _ 256", 2),
];

#[test]
fn bytes_that_begin_no_token(rt: HostRuntime) {
    for (at, (text, place)) in NO_TOKENS.iter().enumerate() {
        assert!(rt;
            has_fault(rt.alloc(), *text, Kind::Lex2, *place),
            "text {at}"
        );
    }
}

const ONE_NUMBER: &[Row] = &[(0, 300_000, Want::Number(0))];

// Whether so many of one byte have this fault.
fn many_have_fault(alloc: Global, byte: u8, count: usize, kind: Kind, place: u32) -> bool {
    match many(alloc, byte, count) {
        Ok(text) => has_fault(alloc, &text, kind, place),
        Err(_) => false,
    }
}

// That so many of one byte have these tokens and no others.
fn expect_tokens_in_many(rt: &impl Abort, alloc: Global, byte: u8, count: usize, rows: &[Row]) {
    match many(alloc, byte, count) {
        Ok(text) => expect_tokens(rt, alloc, &text, rows),
        Err(_) => assert!(rt; false, "no memory"),
    }
}

#[test]
fn numbers_that_are_too_large(rt: HostRuntime) {
    assert!(rt; has_fault(rt.alloc(), b"x 0256 $", Kind::Lex3, 2));
    assert!(rt; many_have_fault(rt.alloc(), b'1', 300_000, Kind::Lex3, 0));
    expect_tokens_in_many(&rt, rt.alloc(), b'0', 300_000, ONE_NUMBER);
}

#[test]
fn the_longest_texts(rt: HostRuntime) {
    assert!(rt; many_have_fault(rt.alloc(), b' ', 1_048_577, Kind::Lex1, 1_048_576));
    expect_tokens_in_many(&rt, rt.alloc(), b' ', 1_048_576, &[]);
}

const LAST_BAR: Row = (1_048_575, 1_048_576, Want::Sign(Sign::Bar));

// Whether a text has as many tokens as it has bytes, the last of which is a bar.
fn has_bars(alloc: Global, text: &[u8]) -> bool {
    match lex(alloc, text) {
        Ok(tokens) => {
            has_size(&tokens, 1_048_576, 1_048_576) && is_at(&tokens, 1_048_575, &LAST_BAR)
        }
        Err(_) => false,
    }
}

#[test]
fn the_most_tokens(rt: HostRuntime) {
    match many(rt.alloc(), b'|', 1_048_576) {
        Ok(bars) => assert!(rt; has_bars(rt.alloc(), &bars)),
        Err(_) => assert!(rt; false, "no memory"),
    }
}

const COPIED: &[Row] = &[(0, 1, Want::Name(b"x")), (2, 3, Want::Number(7))];

// That a copy of the tokens has the rows.
fn expect_copy(rt: &impl Abort, alloc: Global, tokens: &Tokens) {
    match tokens.copy(alloc) {
        Ok(copy) => expect_each(rt, &copy, COPIED, 3),
        Err(_) => assert!(rt; false, "no memory"),
    }
}

#[test]
fn copies(rt: HostRuntime) {
    match lex(rt.alloc(), b"x 7") {
        Ok(tokens) => expect_copy(&rt, rt.alloc(), &tokens),
        Err(_) => assert!(rt; false),
    }
}
