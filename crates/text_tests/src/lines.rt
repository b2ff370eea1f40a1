// Lines as they are read. The expected values were worked out by hand from the rules of the line.
use join_words::{Asked, By, Job, WordEnd, read_words};
use std::alloc::{AllocError, Global};
use std::process::Abort;

// What a line without options asks for.
const PLAIN: Asked = Asked {
    job: Job::Run,
    by: By::Alone,
    ring: None,
    budget: 100_000,
    workers: 4,
    log: false,
    loss: 0,
};

// The words, each with its own bytes.
fn owned(alloc: Global, words: &[&str]) -> Result<Vec<String>, AllocError> {
    let mut owned = Vec::new(alloc);
    for word in words {
        owned.push(String::from_str(alloc, *word)?)?;
    }
    Ok(owned)
}

// What the words ask for.
fn read(alloc: Global, words: &[&str]) -> Result<Asked, WordEnd> {
    let owned = owned(alloc, words)?;
    read_words(alloc, owned.as_slice())
}

// That these words ask for this.
fn asks(rt: &impl Abort, alloc: Global, words: &[&str], asked: &Asked) {
    assert!(rt;
        matches!(read(alloc, words), Ok(found) if found == *asked),
        "{words:?}"
    );
}

// That these words are not of the line's form.
fn refuses(rt: &impl Abort, alloc: Global, words: &[&str]) {
    assert!(rt; read(alloc, words) == Err(WordEnd::Form), "{words:?}");
}

// Lines, each with what it asks for.
const LINES: &[(&[&str], Asked)] = &[
    (&["alone"], PLAIN),
    (&["--", "alone"], PLAIN),
    (
        &["--budget", "4000000", "alone"],
        Asked {
            budget: 4_000_000,
            ..PLAIN
        },
    ),
    (
        &["run", "--workers=2", "--log"],
        Asked {
            by: By::Run,
            workers: 2,
            log: true,
            ..PLAIN
        },
    ),
    (&["gen", "5", "--by", "rounds"], FIVE),
    (&["check"], CHECK),
    (&["--", "explain"], EXPLAIN),
    (&["sorts"], SORTS),
    (&["--", "sorts"], SORTS),
    (&["--by=rounds", "gen", "--", "0000005"], FIVE),
    (
        &["lossy"],
        Asked {
            by: By::Lossy,
            ..PLAIN
        },
    ),
    (
        &["--loss=3", "lossy", "--budget", "7"],
        Asked {
            by: By::Lossy,
            budget: 7,
            loss: 3,
            ..PLAIN
        },
    ),
];

// What asks for the verdict on a log.
const CHECK: Asked = Asked {
    job: Job::Check,
    ..PLAIN
};

// What asks why what a log's run left is left.
const EXPLAIN: Asked = Asked {
    job: Job::Explain,
    ..PLAIN
};

// What asks whether a source keeps the sorts that it declares.
const SORTS: Asked = Asked {
    job: Job::Sorts,
    ..PLAIN
};

// What asks for a ring of five in rounds.
const FIVE: Asked = Asked {
    by: By::Rounds,
    ring: Some(5),
    ..PLAIN
};

#[test]
fn lines_that_are_read(rt: HostRuntime) {
    for (words, asked) in LINES {
        asks(&rt, rt.alloc(), *words, asked);
    }
}

// Modes, plain words and options that don't go together.
const NO_LINES: &[&[&str]] = &[
    &[],
    &["fly"],
    &["-"],
    &["gen"],
    &["gen", "65"],
    &["alone", "5"],
    &["gen", "5", "6"],
    &["gen", "5", "--log"],
    &["run", "--by", "run"],
    &["--help"],
    &["run", "--", "--log"],
    &["check", "5"],
    &["explain", "check"],
    &["sorts", "5"],
    &["sorts", "check"],
    &["gen", "5", "--by", "check"],
    &["gen", "5", "--by", "lossy"],
    &["lossy", "5"],
    &["lossy", "--log"],
    &["lossy", "--", "--loss"],
];

#[test]
fn words_that_are_no_line(rt: HostRuntime) {
    for words in NO_LINES {
        refuses(&rt, rt.alloc(), *words);
    }
}

// Options that are given twice, and values that are none.
const NO_OPTIONS: &[&[&str]] = &[
    &["alone", "--budget", "5", "--budget=5"],
    &["alone", "--log", "--log"],
    &["alone", "--workers", "2", "--workers", "2"],
    &["gen", "5", "--by", "run", "--by=run"],
    &["alone", "--log="],
    &["alone", "--budget", "4000001"],
    &["alone", "--budget", "00000001"],
    &["alone", "--budget="],
    &["alone", "--budget", "-1"],
    &["alone", "--budget"],
    &["run", "--workers=0"],
    &["gen", "5", "--by=gen"],
    &["check", "--log"],
    &["check", "--by", "alone"],
    &["explain", "--budget", "100000"],
    &["explain", "--workers=4"],
    &["sorts", "--log"],
    &["--budget", "10", "sorts"],
    &["lossy", "--workers", "4"],
    &["lossy", "--by", "alone"],
    &["lossy", "--loss", "4"],
    &["lossy", "--loss", "1", "--loss", "1"],
    &["lossy", "--loss="],
    &["alone", "--loss", "0"],
    &["gen", "5", "--loss", "0"],
    &["check", "--loss", "0"],
];

#[test]
fn options_that_are_refused(rt: HostRuntime) {
    for words in NO_OPTIONS {
        refuses(&rt, rt.alloc(), *words);
    }
}

// Copies are equal.
#[test]
fn copies(rt: HostRuntime) {
    let alloc = rt.alloc();
    assert!(rt; PLAIN.copy(alloc) == Ok(PLAIN));
    assert!(rt; By::Run.copy(alloc) == Ok(By::Run));
    assert!(rt; Job::Explain.copy(alloc) == Ok(Job::Explain));
    assert!(rt; WordEnd::Form.copy(alloc) == Ok(WordEnd::Form));
}
