// The text of a tree.
ghost use Rattle.std.specs.Prelude.{◌≡◌, ◌∷◌, ◌++◌, ◌≤◌, length, IfOk, OnOk};
ghost use Rattle.join_parse.specs.Terminals.{a_key, a_site, a_sign, named, argument};
ghost use Rattle.join_parse.specs.Terminals.{key_terminal};
ghost use Rattle.join_parse.specs.Source.{Halt, Add, Same, processes, definitions};
ghost use Rattle.join_parse.specs.Grammar.{names, applied, arguments, of_message, operands, pair};
ghost use Rattle.join_parse.specs.Grammar.{patterns, closing_name, nowhere, unplaced, opening};
ghost use Rattle.join_parse.specs.Grammar.{is_second};
ghost use Rattle.join_parse.specs.Grammar.{of_process};
ghost use Rattle.join_parse.specs.Grammar.{of_processes, of_definition, of_definitions};
ghost use Rattle.join_parse.specs.Grammar.{of_declarations, of_sites, sentence};
ghost use Rattle.join_parse.specs.TreeFacts.{IsTree};
ghost use Rattle.join_parse.specs.Bare.{ReadsAs};
ghost use Rattle.join_parse.specs.Printed.{printed};
ghost use Rattle.join_parse.specs.inside.Printed.{gap, between};
ghost use Rattle.join_parse.specs.inside.Printed.{one_declaration, of_place, Prints};
ghost use Rattle.join_lex.specs.declared.token.Key.TheVariants as word;
ghost use Rattle.join_lex.specs.Spelling.{key_bytes, sign_bytes};

use crate::text::Tree;
use crate::tree::{
    DefNode, DefTree, DefTrees, PlaceTree, PlaceTrees, ProcNode, ProcTree, ProcTrees,
};
use crate::word::{Arg, Args, PatTrees, SeenTree, SeenTrees, Word, Words};
use chem_model::{Memory, Text};
use join_lex::{Key, Sign};
use std::alloc::Global;

// Appends a word, behind a space where it isn't the first.
fn put(out: &mut Text, word: &[u8]) -> Result<(), Memory>
    ensures { OnOk result (out.new ≡ out.old ++ gap out.old ++ word.now) }
{
    if out.is_empty() {
        return out.extend_from_slice(word);
    }
    out.push(b' ')?;
    out.extend_from_slice(word)
}

fn key_text(key: Key) -> &'static [u8]
    ensures { result.now ≡ key_bytes key }
{
    match key {
        Key::Observe => b"observe",
        Key::Site => b"site",
        Key::Def => b"def",
        Key::Inside => b"in",
        Key::And => b"and",
        Key::Go => b"go",
        Key::Fail => b"fail",
        Key::Halt => b"halt",
        Key::Void => b"none",
        Key::Add => b"add",
        Key::Same => b"same",
    }
}

fn sign_text(sign: Sign) -> &'static [u8]
    ensures { result.now ≡ sign_bytes sign }
{
    match sign {
        Sign::Arrow => b"=>",
        Sign::Colon => b":",
        Sign::Bar => b"|",
        Sign::ParenLeft => b"(",
        Sign::ParenRight => b")",
        Sign::SquareLeft => b"[",
        Sign::SquareRight => b"]",
        Sign::Comma => b",",
        Sign::Semicolon => b";",
        Sign::Slash => b"/",
    }
}

fn put_key(out: &mut Text, key: Key) -> Result<(), Memory>
    ensures { OnOk result (Prints out.old out.new (λ rest. key_terminal key 0 ∷ rest)) }
{
    put(out, key_text(key))
}

fn put_sign(out: &mut Text, sign: Sign) -> Result<(), Memory>
    ensures { OnOk result (Prints out.old out.new (λ rest. a_sign sign ∷ rest)) }
{
    put(out, sign_text(sign))
}

fn put_word(out: &mut Text, word: &Word) -> Result<(), Memory>
    ensures { OnOk result (Prints out.old out.new (λ rest. named word.now ∷ rest)) }
{
    put(out, word.text.as_slice())
}

fn put_number(alloc: Global, out: &mut Text, value: u64) -> Result<(), Memory>
    ensures { OnOk result (Prints out.old out.new (unplaced nowhere value)) }
{
    let digits = format!(in alloc; "{value}")?;
    put(out, digits.as_bytes())
}

// A sign that stands before each member of a list but the first.
fn put_sign_between(out: &mut Text, first: bool, sign: Sign) -> Result<(), Memory>
    ensures { OnOk result (Prints out.old out.new (between first (a_sign sign))) }
{
    if first {
        return Ok(());
    }
    put_sign(out, sign)
}

// `and` before each member of a list but the first.
fn put_and_between(out: &mut Text, first: bool) -> Result<(), Memory>
    ensures { OnOk result (Prints out.old out.new (between first (a_key word.And))) }
{
    if first {
        return Ok(());
    }
    put_key(out, Key::And)
}

// Identifiers with commas between them, and `)`.
fn put_names(out: &mut Text, list: &Words) -> Result<(), Memory>
    ensures { OnOk result (Prints out.old out.new (names list.now)) }
{
    let mut first = true;
    for word in list.as_slice() {
        put_sign_between(out, first, Sign::Comma)?;
        put_word(out, word)?;
        first = false;
    }
    put_sign(out, Sign::ParenRight)
}

// A channel, and identifiers in parentheses behind it.
fn put_applied(out: &mut Text, on: &Word, list: &Words) -> Result<(), Memory>
    ensures { OnOk result (Prints out.old out.new (applied on.now list.now)) }
{
    put_word(out, on)?;
    put_sign(out, Sign::ParenLeft)?;
    put_names(out, list)
}

fn put_arg(alloc: Global, out: &mut Text, arg: &Arg) -> Result<(), Memory>
    ensures { OnOk result (Prints out.old out.new (λ rest. argument arg.now ∷ rest)) }
{
    match arg {
        Arg::Word(word) => put_word(out, word),
        Arg::Num { value, .. } => put_number(alloc, out, *value),
    }
}

// Arguments with commas between them, and `)`.
fn put_args(alloc: Global, out: &mut Text, list: &Args) -> Result<(), Memory>
    ensures { OnOk result (Prints out.old out.new (arguments list.now)) }
{
    let mut first = true;
    for arg in list.as_slice() {
        put_sign_between(out, first, Sign::Comma)?;
        put_arg(alloc, out, arg)?;
        first = false;
    }
    put_sign(out, Sign::ParenRight)
}

// A name, and arguments in parentheses behind it.
fn put_message(alloc: Global, out: &mut Text, on: &Word, list: &Args) -> Result<(), Memory>
    ensures { OnOk result (Prints out.old out.new (of_message on.now list.now)) }
{
    put_word(out, on)?;
    put_sign(out, Sign::ParenLeft)?;
    put_args(alloc, out, list)
}

// `(`, and two arguments with a comma between them.
fn put_operands(alloc: Global, out: &mut Text, left: &Arg, right: &Arg) -> Result<(), Memory>
    ensures { OnOk result (Prints out.old out.new (operands left.now right.now)) }
{
    put_sign(out, Sign::ParenLeft)?;
    put_arg(alloc, out, left)?;
    put_sign(out, Sign::Comma)?;
    put_arg(alloc, out, right)
}

// A comma, a name, and `)`.
fn put_closing_name(out: &mut Text, name: &Word) -> Result<(), Memory>
    ensures { OnOk result (Prints out.old out.new (closing_name name.now)) }
{
    put_sign(out, Sign::Comma)?;
    put_word(out, name)?;
    put_sign(out, Sign::ParenRight)
}

// The sum of two numbers, sent on a channel.
fn put_addition(
    alloc: Global,
    out: &mut Text,
    left: &Arg,
    right: &Arg,
    cont: &Word,
) -> Result<(), Memory>
    ensures { OnOk result (Prints out.old out.new
        (of_process nowhere (Add left.now right.now cont.now))) }
{
    put_key(out, Key::Add)?;
    put_operands(alloc, out, left, right)?;
    put_closing_name(out, cont)
}

// A message on one of two channels, by a comparison of two numbers.
fn put_comparison(
    alloc: Global,
    out: &mut Text,
    left: &Arg,
    right: &Arg,
    yes: &Word,
    no: &Word,
) -> Result<(), Memory>
    ensures { OnOk result (Prints out.old out.new
        (of_process nowhere (Same left.now right.now yes.now no.now))) }
{
    put_key(out, Key::Same)?;
    put_operands(alloc, out, left, right)?;
    put_sign(out, Sign::Comma)?;
    put_word(out, yes)?;
    put_closing_name(out, no)
}

// Message patterns with `|` between them, and `=>`.
fn put_patterns(out: &mut Text, list: &PatTrees) -> Result<(), Memory>
    ensures { OnOk result (Prints out.old out.new (patterns list.now)) }
{
    let mut first = true;
    for pattern in list.as_slice() {
        put_sign_between(out, first, Sign::Bar)?;
        put_applied(out, &pattern.on, &pattern.params)?;
        first = false;
    }
    put_sign(out, Sign::Arrow)
}

// `(`, two names with a comma between them, and `)`.
fn put_pair(out: &mut Text, one: &Word, other: &Word) -> Result<(), Memory>
    ensures { OnOk result (Prints out.old out.new (pair one.now other.now)) }
{
    put_sign(out, Sign::ParenLeft)?;
    put_word(out, one)?;
    put_sign(out, Sign::Comma)?;
    put_word(out, other)?;
    put_sign(out, Sign::ParenRight)
}

// A keyword, and the two names of a request.
fn put_request(out: &mut Text, key: Key, one: &Word, other: &Word) -> Result<(), Memory>
    ensures { OnOk result (Prints out.old out.new (λ rest.
        key_terminal key 0 ∷ pair one.now other.now rest)) }
{
    put_key(out, key)?;
    put_pair(out, one, other)
}

// The request to halt.
fn put_halt(out: &mut Text) -> Result<(), Memory>
    ensures { OnOk result (Prints out.old out.new (of_process nowhere Halt)) }
{
    put_key(out, Key::Halt)?;
    put_sign(out, Sign::ParenLeft)?;
    put_sign(out, Sign::ParenRight)
}

#[cycle(print)]
fn put_processes(alloc: Global, out: &mut Text, list: &ProcTrees) -> Result<(), Memory>
    ensures { OnOk result (Prints out.old out.new (of_processes nowhere (processes list.now))) }
{
    let mut first = true;
    for member in list.as_slice() {
        put_sign_between(out, first, Sign::Bar)?;
        put_process(alloc, out, member)?;
        first = false;
    }
    Ok(())
}

#[cycle(print)]
fn put_process(alloc: Global, out: &mut Text, process: &ProcTree) -> Result<(), Memory>
    ensures { OnOk result (Prints out.old out.new (of_process nowhere process.now)) }
{
    match process.node() {
        ProcNode::Zero => put_number(alloc, out, 0),
        ProcNode::Msg { on, args } => put_message(alloc, out, on, args),
        ProcNode::Go { target, cont } => put_request(out, Key::Go, target, cont),
        ProcNode::Fail { target, cont } => put_request(out, Key::Fail, target, cont),
        ProcNode::Halt => put_halt(out),
        ProcNode::Add { left, right, cont } => put_addition(alloc, out, left, right, cont),
        ProcNode::Same {
            left,
            right,
            yes,
            no,
        } => put_comparison(alloc, out, left, right, yes, no),
        ProcNode::Group(members) => {
            put_sign(out, Sign::ParenLeft)?;
            put_processes(alloc, out, members)?;
            put_sign(out, Sign::ParenRight)
        }
        ProcNode::Def { defs, body } => {
            put_key(out, Key::Def)?;
            put_definitions(alloc, out, defs)?;
            put_key(out, Key::Inside)?;
            put_processes(alloc, out, body)
        }
    }
}

#[cycle(print)]
fn put_definitions(alloc: Global, out: &mut Text, list: &DefTrees) -> Result<(), Memory>
    ensures { OnOk result (Prints out.old out.new (of_definitions nowhere (definitions list.now))) }
{
    if list.is_empty() {
        return put_key(out, Key::Void);
    }
    let mut first = true;
    for member in list.as_slice() {
        put_and_between(out, first)?;
        put_definition(alloc, out, member)?;
        first = false;
    }
    Ok(())
}

#[cycle(print)]
fn put_definition(alloc: Global, out: &mut Text, definition: &DefTree) -> Result<(), Memory>
    ensures { OnOk result (Prints out.old out.new (of_definition nowhere definition.now)) }
{
    match definition.node() {
        DefNode::Rule { pats, body } => {
            put_patterns(out, pats)?;
            put_processes(alloc, out, body)
        }
        DefNode::Place(place) => put_place(alloc, out, place),
    }
}

// A site or place behind its opener.
#[cycle(print)]
fn put_place(alloc: Global, out: &mut Text, place: &PlaceTree) -> Result<(), Memory>
    ensures { OnOk result (Prints out.old out.new (of_place place.now)) }
{
    put_word(out, &place.name)?;
    put_sign(out, Sign::SquareLeft)?;
    put_definitions(alloc, out, &place.defs)?;
    put_sign(out, Sign::Colon)?;
    put_processes(alloc, out, &place.body)?;
    put_sign(out, Sign::SquareRight)
}

fn put_declaration(alloc: Global, out: &mut Text, declaration: &SeenTree) -> Result<(), Memory>
    ensures { OnOk result (Prints out.old out.new (one_declaration declaration.now)) }
{
    put_key(out, Key::Observe)?;
    put_word(out, &declaration.name)?;
    put_sign(out, Sign::Slash)?;
    put_number(alloc, out, u64::from(declaration.count))?;
    put_sign(out, Sign::Semicolon)
}

fn put_declarations(alloc: Global, out: &mut Text, list: &SeenTrees) -> Result<(), Memory>
    ensures { OnOk result (Prints out.old out.new (of_declarations nowhere list.now)) }
{
    for declaration in list.as_slice() {
        put_declaration(alloc, out, declaration)?;
    }
    Ok(())
}

fn put_site(alloc: Global, out: &mut Text, site: &PlaceTree) -> Result<(), Memory>
    ensures { OnOk result (Prints out.old out.new (λ rest.
        a_site site.now.opener ∷ of_place site.now rest)) }
{
    put_key(out, Key::Site)?;
    put_place(alloc, out, site)
}

fn put_sites(alloc: Global, out: &mut Text, list: &PlaceTrees) -> Result<(), Memory>
    ensures { OnOk result (Prints out.old out.new (of_sites nowhere list.now)) }
{
    for site in list.as_slice() {
        put_site(alloc, out, site)?;
    }
    Ok(())
}

// What says that a text is of the second version.
fn put_opening(alloc: Global, out: &mut Text, version: u32) -> Result<(), Memory>
    ensures { OnOk result (Prints out.old out.new (opening nowhere (is_second version))) }
{
    if version != 2 {
        return Ok(());
    }
    put(out, b"version")?;
    put_number(alloc, out, 2)?;
    put_sign(out, Sign::Semicolon)
}

// The text of a tree.
fn text_of(alloc: Global, tree: &Tree) -> Result<Text, Memory>
    ensures text { IfOk result (λ text. text ≡ printed (sentence nowhere tree.now)) }
    ensures kept { IfOk result (λ _. IsTree tree.now) }
{
    let mut text = Text::new(alloc);
    put_opening(alloc, &mut text, tree.version)?;
    put_declarations(alloc, &mut text, &tree.seen)?;
    put_sites(alloc, &mut text, &tree.sites)?;
    text.push(b'\n')?;
    Ok(text)
}

/// The tokens of a tree in order, joined by single spaces and followed by a line feed. A text of
/// the second version begins with `version 2 ;`. An empty list of definitions prints `none`, the
/// inert process `0`, and numbers without leading zeros. A text of at most 1,048,576 bytes reads as
/// the same tree again, its places put aside.
pub fn print_tree(alloc: Global, tree: &Tree) -> Result<Text, Memory>
    ensures text { IfOk result (λ text. text ≡ printed (sentence nowhere tree.now)) }
    ensures again { IfOk result (λ text. length text ≤ 1048576 → ReadsAs text tree.now) }
{
    text_of(alloc, tree)
}
