// Sites that stand beside those of another text, so that a book sets messages apart: it does so
// where eight and more came since it did last, and looks at each rule where there are fewer than
// four.

// Twenty messages that wait, beside three rules.
const CROWD: &[(u32, &str)] = &[
    (
        1,
        "\nsite crowd_here [ idle_here() | never_here() => 0 and far_here() | never_here() => 0 \
        and farther_here() | never_here() => 0 : 0",
    ),
    (20, " | idle_here()"),
    (1, " ]"),
];

// Twelve times two events: the second makes sixteen more messages that wait.
const GROWING: &[(u32, &str)] = &[
    (
        1,
        "\nsite crowd_here [ idle_here() | never_here() => 0 and step_here012() | never_here() => \
        0 and fill_here() => 0",
    ),
    (16, " | idle_here()"),
    (12, " and step_here#() => step_here$() | fill_here()"),
    (1, " : step_here000()"),
    (16, " | idle_here()"),
    (1, " ]"),
];

pub fn crowd() -> &'static [(u32, &'static str)] {
    CROWD
}

pub fn growing() -> &'static [(u32, &'static str)] {
    GROWING
}
