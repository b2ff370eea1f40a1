// The ways to run a text: each command that runs one, with each number of workers and each loss.

use std::alloc::{AllocError, Global};
use worked_texts::Case;

// The words of each way, command by command.
const WAYS: &[&[&[&str]]] = &[
    &[&["alone"]],
    &[
        &["rounds", "--workers", "1"],
        &["rounds", "--workers", "2"],
        &["rounds", "--workers", "16"],
    ],
    &[
        &["run", "--workers", "1"],
        &["run", "--workers", "2"],
        &["run", "--workers", "16"],
    ],
    &[
        &["lossy", "--loss", "0"],
        &["lossy", "--loss", "1"],
        &["lossy", "--loss", "2"],
        &["lossy", "--loss", "3"],
    ],
];

pub fn commands() -> &'static [&'static [&'static [&'static str]]] {
    WAYS
}

// The command of some words.
pub fn command_of(words: &[&'static str]) -> &'static str {
    words.first().copied().unwrap_or("")
}

// Whether the words of a case have this one.
pub fn has_word(case: &Case, wanted: &str) -> bool {
    case.words.iter().any(|word| *word == wanted)
}

// The budget that the words of a case name.
pub fn budget_in(case: &Case) -> Option<&'static str> {
    for (at, word) in case.words.iter().enumerate() {
        if *word == "--budget" {
            return case.words.get(at.wrapping_add(1)).copied();
        }
    }
    None
}

// The words of a way, for the text of a case and with the budget that it names.
fn words_by(
    alloc: Global,
    way: &[&'static str],
    case: &Case,
) -> Result<Vec<&'static str>, AllocError> {
    let mut words = Vec::new(alloc);
    for word in way {
        words.push(*word)?;
    }
    if let Some(budget) = budget_in(case) {
        words.push("--budget")?;
        words.push(budget)?;
    }
    Ok(words)
}

// The same, which ask for the log where that is wanted.
pub fn words_for(
    alloc: Global,
    way: &[&'static str],
    case: &Case,
    with_log: bool,
) -> Result<Vec<&'static str>, AllocError> {
    let mut words = words_by(alloc, way, case)?;
    if with_log {
        words.push("--log")?;
    }
    Ok(words)
}
