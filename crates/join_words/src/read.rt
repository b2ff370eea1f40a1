// From the texts of a line to what it asks for.
ghost use Rattle.std.specs.Prelude.{◌≡◌, ◌≤◌, map, not, option_map, string_bytes, IfOk, IfSome};
ghost use Rattle.join_words.specs.Asks.{Answers, IsWithin, asked, by_named, by_or_alone, judged};
ghost use Rattle.join_words.specs.Asks.{bare, bare_job, is_bare, lossy_as, run_as};
ghost use Rattle.join_words.specs.inside.Command.{line_given};
ghost use Rattle.join_words.specs.inside.Modes.{AreNumbers, with_gen, without_gen};

use crate::answer::{Asked, By, Job, WordEnd};
use crate::line::{LineTexts, texts_given, texts_of};
use crate::number::{number, number_unless};
use std::alloc::Global;

// The budget of events where none is given.
const DEFAULT_BUDGET: u32 = 100_000;

// The largest budget of events.
const MOST_EVENTS: u32 = 4_000_000;

// The number of threads where none is given.
const DEFAULT_WORKERS: u32 = 4;

// The most threads.
const MOST_WORKERS: u32 = 16;

// The most sites of a ring.
const MOST_SITES: u32 = 64;

// The loss where none is given.
const DEFAULT_LOSS: u32 = 0;

// The largest loss.
const MOST_LOSS: u32 = 3;

fn named(text: &str) -> Option<By>
    ensures { result ≡ by_named text.now }
{
    match text {
        "alone" => Some(By::Alone),
        "rounds" => Some(By::Rounds),
        "run" => Some(By::Run),
        _ => None,
    }
}

fn named_unless(text: Option<&str>) -> Option<By>
    ensures { result ≡ by_or_alone (option_map (λ s. s.now) text.entry) }
{
    match text {
        None => Some(By::Alone),
        Some(text) => named(text),
    }
}

// What a line asks for whose mode is `gen`.
fn ring_asked(given: &LineTexts, budget: u32, workers: u32) -> Option<Asked>
    requires { AreNumbers budget workers }
    ensures asked { result ≡ with_gen (line_given given.now)
        (option_map (λ s. s.now) given.now.ring) budget workers }
    ensures within { IfSome result IsWithin }
{
    let sites = number(given.ring?, 1, MOST_SITES)?;
    if given.loss.is_some() || given.log {
        return None;
    }
    let by = named_unless(given.by)?;
    Some(Asked {
        job: Job::Run,
        by,
        ring: Some(sites),
        budget,
        workers,
        log: false,
        loss: DEFAULT_LOSS,
    })
}

// The command of this name that takes no size and no option.
fn bare_job(text: &str) -> Option<Job>
    ensures { result ≡ bare_job text.now }
{
    match text {
        "check" => Some(Job::Check),
        "explain" => Some(Job::Explain),
        "sorts" => Some(Job::Sorts),
        _ => None,
    }
}

// Whether a line has any option.
fn has_options(given: &LineTexts) -> bool
    ensures { is_bare (line_given given.now) ≡ not result }
{
    given.budget.is_some()
        || given.workers.is_some()
        || given.by.is_some()
        || given.loss.is_some()
        || given.log
}

// What a line asks for whose mode is such a command.
fn bare_asked(given: &LineTexts, job: Job) -> Option<Asked>
    ensures asked { result ≡ bare (line_given given.now) job }
    ensures within { IfSome result IsWithin }
{
    if has_options(given) {
        return None;
    }
    Some(Asked {
        job,
        by: By::Alone,
        ring: None,
        budget: DEFAULT_BUDGET,
        workers: DEFAULT_WORKERS,
        log: false,
        loss: DEFAULT_LOSS,
    })
}

// What a line asks for whose mode is a run's, but for the run over links.
fn run_asked(given: &LineTexts, mode: &str, budget: u32, workers: u32) -> Option<Asked>
    requires { AreNumbers budget workers }
    ensures asked { result ≡ run_as (line_given given.now) mode.now budget workers }
    ensures within { IfSome result IsWithin }
{
    if given.by.is_some() || given.loss.is_some() {
        return None;
    }
    let by = named(mode)?;
    Some(Asked {
        job: Job::Run,
        by,
        ring: None,
        budget,
        workers,
        log: given.log,
        loss: DEFAULT_LOSS,
    })
}

// What a line asks for whose mode is the run over links.
fn lossy_asked(given: &LineTexts, budget: u32) -> Option<Asked>
    requires { budget ≤ 4000000 }
    ensures asked { result ≡ lossy_as (line_given given.now) budget }
    ensures within { IfSome result IsWithin }
{
    if given.workers.is_some() || given.by.is_some() || given.log {
        return None;
    }
    let loss = number_unless(given.loss, DEFAULT_LOSS, 0, MOST_LOSS)?;
    Some(Asked {
        job: Job::Run,
        by: By::Lossy,
        ring: None,
        budget,
        workers: DEFAULT_WORKERS,
        log: false,
        loss,
    })
}

// What a line asks for that has another mode than `gen`.
fn program_asked(given: &LineTexts, mode: &str, budget: u32, workers: u32) -> Option<Asked>
    requires { AreNumbers budget workers }
    ensures asked { result ≡ without_gen (line_given given.now)
        (option_map (λ s. s.now) given.now.ring) mode.now budget workers }
    ensures within { IfSome result IsWithin }
{
    if given.ring.is_some() {
        return None;
    }
    match bare_job(mode) {
        Some(job) => bare_asked(given, job),
        None if mode == "lossy" => lossy_asked(given, budget),
        None => run_asked(given, mode, budget, workers),
    }
}

// What a line of these texts asks for.
fn asked_of(given: &LineTexts) -> Option<Asked>
    ensures asked { result ≡ judged (line_given given.now) }
    ensures within { IfSome result IsWithin }
{
    let budget = number_unless(given.budget, DEFAULT_BUDGET, 0, MOST_EVENTS)?;
    let workers = number_unless(given.workers, DEFAULT_WORKERS, 1, MOST_WORKERS)?;
    let mode = given.mode?;
    if mode == "gen" {
        ring_asked(given, budget, workers)
    } else {
        program_asked(given, mode, budget, workers)
    }
}

/// What the words after the program's name ask for:
///
/// ```text
/// alone|rounds|run [--budget B] [--workers W] [--log]
/// lossy [--budget B] [--loss L]
/// gen N [--by alone|rounds|run] [--budget B] [--workers W]
/// check
/// explain
/// sorts
/// ```
///
/// The options stand anywhere, each at most once, and with their value in the next word or after
/// `=` in the same one. After the word `--` every word is a plain word. A number is 1 to 7 decimal
/// digits. B is 0 to 4,000,000, and 100,000 where it isn't given; W is 1 to 16, and 4 where it
/// isn't given; L is 0 to 3, and 0 where it isn't given; N is 1 to 64. `--by` is `alone` where it
/// isn't given.
///
/// `Form` comes exactly where the words aren't of this form, and `Memory` only for want of memory.
pub fn read_words(alloc: Global, words: &[String]) -> Result<Asked, WordEnd>
    ensures asked { Answers (asked (map string_bytes words.now)) result }
    ensures within { IfOk result IsWithin }
{
    let texts = texts_of(alloc, words)?;
    let given = texts_given(alloc, texts.as_slice())?;
    asked_of(&given).ok_or(WordEnd::Form)
}
