// The texts that the words of a line give.
ghost use Rattle.std.specs.Prelude.{◌≡◌, IfOk, codes, false, map, string_bytes};
ghost use Rattle.std.specs.List.{All};
ghost use Rattle.std.specs.Str.{IsUtf8};
ghost use Rattle.clap.specs.Words.{app_of, found_of, kind_of, rule_of};
ghost use Rattle.join_words.specs.inside.Command.{Gives, Shows, bare, flagged, line_app};
ghost use Rattle.join_words.specs.inside.Command.{optional, options_app, plain_app};

use crate::answer::WordEnd;
use clap::error::ErrorKind;
use clap::{Arg, ArgAction, ArgMatches, Command, Error};
use std::alloc::{AllocError, Global};

// The text of each part of a line that was given.
#[derive(Clone, Copy)]
pub struct LineTexts<'a> {
    pub mode: Option<&'a str>,
    pub ring: Option<&'a str>,
    pub budget: Option<&'a str>,
    pub workers: Option<&'a str>,
    pub by: Option<&'a str>,
    pub loss: Option<&'a str>,
    pub log: bool,
}

// An option that takes a value, read back by its name.
fn valued_option<'a>(alloc: Global, name: &'a str) -> Arg<'a>
    ensures rule { rule_of result ≡ optional name.entry.now }
    ensures local { result.global ≡ false }
{
    Arg::new(alloc, name).long(name)
}

// The flag of the log.
fn log_flag<'a>(alloc: Global) -> Arg<'a>
    ensures rule { rule_of result ≡ flagged (codes "log") }
    ensures local { result.global ≡ false }
{
    Arg::new(alloc, "log")
        .long("log")
        .action(ArgAction::SetTrue)
}

// A command without parts.
fn bare_command<'a>(alloc: Global) -> Command<'a>
    ensures { app_of result ≡ bare }
{
    Command::new(alloc, "join")
        .no_binary_name(true)
        .disable_help_flag(true)
}

// A command of the two plain words.
fn plain_command<'a>(alloc: Global) -> Result<Command<'a>, AllocError>
    ensures { IfOk result (λ command. app_of command ≡ plain_app) }
{
    bare_command(alloc)
        .arg(Arg::new(alloc, "mode"))?
        .arg(Arg::new(alloc, "ring"))
}

// This command with the options that take a value.
fn with_options<'a>(alloc: Global, command: Command<'a>) -> Result<Command<'a>, AllocError>
    ensures { IfOk result (λ c. app_of c ≡ options_app (app_of command.entry)) }
{
    command
        .arg(valued_option(alloc, "budget"))?
        .arg(valued_option(alloc, "workers"))?
        .arg(valued_option(alloc, "by"))?
        .arg(valued_option(alloc, "loss"))
}

// The parts of a line: the first plain word, the second, the options and the flag.
fn line_command<'a>(alloc: Global) -> Result<Command<'a>, AllocError>
    ensures { IfOk result (λ command. app_of command ≡ line_app) }
{
    with_options(alloc, plain_command(alloc)?)?.arg(log_flag(alloc))
}

fn end_of(error: &Error) -> WordEnd
    ensures form { result ≡ WordEnd.Form → kind_of error.now ≡ ErrorKind.OutOfMemory → ⊥ }
    ensures memory { kind_of error.now ≡ ErrorKind.OutOfMemory → result ≡ WordEnd.Memory }
    ensures only { result ≡ WordEnd.Memory → kind_of error.now ≡ ErrorKind.OutOfMemory }
{
    match error.kind() {
        ErrorKind::OutOfMemory => WordEnd::Memory,
        _ => WordEnd::Form,
    }
}

// The words as texts, in their order.
pub fn texts_of<'a>(alloc: Global, words: &'a [String]) -> Result<Vec<&'a str>, AllocError>
    ensures same { IfOk result (λ texts.
        map (λ s. s.now) texts.items ≡ map string_bytes words.entry.now) }
    ensures utf8 { IfOk result (λ texts. All IsUtf8 (map (λ s. s.now) texts.items)) }
{
    let mut texts = Vec::new(alloc);
    for word in words {
        texts.push(word.as_str())?;
    }
    Ok(texts)
}

// The texts of the line that these matches have.
fn line_texts<'a>(matches: &ArgMatches<'a>) -> LineTexts<'a>
    ensures { Shows (found_of matches.now) result }
{
    LineTexts {
        mode: matches.get_str("mode"),
        ring: matches.get_str("ring"),
        budget: matches.get_str("budget"),
        workers: matches.get_str("workers"),
        by: matches.get_str("by"),
        loss: matches.get_str("loss"),
        log: matches.get_flag("log"),
    }
}

// The texts of the line that these words write. `Form` comes only where the words ask for nothing.
pub fn texts_given<'a>(alloc: Global, words: &'a [&'a str]) -> Result<LineTexts<'a>, WordEnd>
    requires { All IsUtf8 (map (λ s. s.now) words.now) }
    ensures { Gives (map (λ s. s.now) words.entry.now) result }
{
    let command = line_command(alloc)?;
    match command.try_get_matches_from(words) {
        Ok(matches) => {
            let texts = line_texts(&matches);
            drop(matches);
            Ok(texts)
        }
        Err(error) => {
            let end = end_of(&error);
            drop(error);
            Err(end)
        }
    }
}
