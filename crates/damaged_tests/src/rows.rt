// Packets, frames and logs that are damaged, as data: the bytes, and where they are wrong first.
// The places were counted by hand.

const PACKETS: &[(&[u8], usize)] = &[
    // It ends behind the site of its location.
    (&[2, 0, 0, 0, 0], 5),
    // The worked parcel without its last byte.
    (
        &[
            2, 0, 0, 0, 0, 0, 0, 0, 0, 0, 0, 0, 1, 0, 0, 0, 1, 0, 0, 0, 1, 0, 0, 0, 0, 0, 0, 0, 0,
            0, 0, 0, 2, 0, 0, 0, 0, 0, 0, 0, 0, 0, 0, 0, 3, 0, 0, 0, 0, 0, 0, 0, 0, 0, 0, 0,
        ],
        53,
    ),
    // With an environment of one name.
    (
        &[
            2, 0, 0, 0, 0, 0, 0, 0, 0, 0, 0, 0, 1, 0, 0, 0, 1, 0, 0, 0, 1, 0, 0, 0, 0, 0, 0, 0, 0,
            0, 0, 0, 2, 0, 0, 0, 0, 0, 0, 0, 0, 0, 0, 0, 3, 0, 0, 0, 1, 0, 0, 0, 0, 0, 0, 0, 0,
        ],
        54,
    ),
    // With an environment of 4,294,967,295 names.
    (
        &[
            2, 0, 0, 0, 0, 0, 0, 0, 0, 0, 0, 0, 1, 0, 0, 0, 1, 0, 0, 0, 1, 0, 0, 0, 0, 0, 0, 0, 0,
            0, 0, 0, 2, 0, 0, 0, 0, 0, 0, 0, 0, 0, 0, 0, 3, 255, 255, 255, 255, 0, 0, 0, 0, 0, 0,
            0, 0,
        ],
        55,
    ),
    // With 4,294,967,295 groups, waiting messages and requests.
    (
        &[
            2, 0, 0, 0, 0, 0, 0, 0, 0, 0, 0, 0, 1, 255, 255, 255, 255, 0, 0, 0, 1,
        ],
        21,
    ),
    (
        &[
            2, 0, 0, 0, 0, 0, 0, 0, 0, 0, 0, 0, 1, 0, 0, 0, 0, 255, 255, 255, 255, 0, 0, 0, 1,
        ],
        25,
    ),
    (
        &[
            2, 0, 0, 0, 0, 0, 0, 0, 0, 0, 0, 0, 1, 0, 0, 0, 0, 0, 0, 0, 0, 255, 255, 255, 255, 0,
            0, 0, 1,
        ],
        29,
    ),
    // A message that claims 255 arguments, and has one.
    (
        &[
            1, 0, 0, 0, 0, 0, 0, 0, 0, 0, 0, 0, 5, 0, 0, 0, 0, 0, 255, 0, 0, 0, 0, 7,
        ],
        24,
    ),
    // No packet, and of no kind.
    (&[], 0),
    (&[3], 0),
];

// Packets, each with the place of its first wrong field.
pub fn packets() -> &'static [(&'static [u8], usize)] {
    PACKETS
}

const FRAMES: &[(&[u8], usize)] = &[
    // No frame, and of no kind.
    (&[], 0),
    (&[0], 0),
    (&[3], 0),
    // They end within the first site, the second one and the number.
    (&[2, 0, 0, 0], 1),
    (&[1, 0, 0, 0, 1, 0, 0, 0], 5),
    (&[2, 0, 0, 0, 1, 0, 0, 0, 0, 0, 0, 0, 0, 0, 0, 0], 9),
    // An acknowledgement with one byte more.
    (&[2, 0, 0, 0, 1, 0, 0, 0, 0, 0, 0, 0, 0, 0, 0, 0, 1, 0], 17),
    // No packet behind the head, one of no kind, and a parcel.
    (&[1, 0, 0, 0, 1, 0, 0, 0, 0, 0, 0, 0, 0, 0, 0, 0, 0], 17),
    (&[1, 0, 0, 0, 1, 0, 0, 0, 0, 0, 0, 0, 0, 0, 0, 0, 0, 0], 17),
    (
        &[
            1, 0, 0, 0, 1, 0, 0, 0, 0, 0, 0, 0, 0, 0, 0, 0, 0, 2, 0, 0, 0, 0, 0, 0, 0, 0, 0, 0, 0,
            1, 0, 0, 0, 1, 0, 0, 0, 1, 0, 0, 0, 0, 0, 0, 0, 0, 0, 0, 0, 2, 0, 0, 0, 0, 0, 0, 0, 0,
            0, 0, 0, 3, 0, 0, 0, 0, 0, 0, 0, 0, 0, 0, 0, 0,
        ],
        17,
    ),
    // A message on an operation that there isn't, and one with a count that isn't the sum's.
    (
        &[
            1, 0, 0, 0, 1, 0, 0, 0, 0, 0, 0, 0, 0, 0, 0, 0, 0, 1, 0, 0, 0, 0, 0, 0, 0, 0, 0, 0, 0,
            5, 4, 0, 0, 0, 2, 3,
        ],
        31,
    ),
    (
        &[
            1, 0, 0, 0, 1, 0, 0, 0, 0, 0, 0, 0, 0, 0, 0, 0, 0, 1, 0, 0, 0, 0, 0, 0, 0, 0, 0, 0, 0,
            5, 4, 0, 0, 0, 0, 4,
        ],
        35,
    ),
    // A message that claims 255 arguments, and has one.
    (
        &[
            1, 0, 0, 0, 1, 0, 0, 0, 0, 0, 0, 0, 0, 0, 0, 0, 0, 1, 0, 0, 0, 0, 0, 0, 0, 0, 0, 0, 0,
            5, 0, 0, 0, 0, 0, 255, 0, 0, 0, 0, 7,
        ],
        41,
    ),
    // A message with one byte more.
    (
        &[
            1, 0, 0, 0, 1, 0, 0, 0, 0, 0, 0, 0, 0, 0, 0, 0, 0, 1, 0, 0, 0, 0, 0, 0, 0, 0, 0, 0, 0,
            5, 2, 0, 0, 0, 0, 0, 0, 0, 0, 0, 0, 0, 1, 0, 0, 0, 0, 0, 0, 0, 0, 0, 0, 0, 0, 1, 1, 0,
            0, 0, 1, 0, 0, 0, 0, 0, 0, 0, 0, 0,
        ],
        69,
    ),
];

// Frames, each with the place of its first wrong field.
pub fn frames() -> &'static [(&'static [u8], usize)] {
    FRAMES
}

const LOGS: &[(&[u8], usize)] = &[
    (b"", 0),
    // The second byte of a literal is another: the literal is wrong, from its first byte on.
    (b"jOinlog 1\nsource 0\n\nbudget 0\nevents 0\ntrace 0\n", 0),
    (b"joinlog 1\nsource 0\n\nbUdget 0\nevents 0\ntrace 0\n", 19),
    // A leading zero.
    (b"joinlog 1\nsource 00\n\nbudget 0\nevents 0\ntrace 0\n", 17),
    // Budgets of the other kind of log.
    (
        b"joinlog 1\nsource 0\n\nbudget 1000001\nevents 0\ntrace 0\n",
        27,
    ),
    (
        b"joinlog 2\nsource 0\n\nbudget 1000000\nevents 0\ntrace 0\n",
        27,
    ),
    // More events than the budget.
    (
        b"joinlog 1\nsource 0\n\nbudget 0\nevents 1\nhalt 0.1\ntrace 0\n",
        36,
    ),
    // A source and a trace of more bytes than there are.
    (b"joinlog 1\nsource 1048576\n", 25),
    (
        b"joinlog 1\nsource 0\n\nbudget 0\nevents 0\ntrace 18446744073709551615\n",
        65,
    ),
    // A million events claimed, and none there.
    (
        b"joinlog 1\nsource 0\n\nbudget 1000000\nevents 1000000\ntrace 0\n",
        50,
    ),
    // A byte too many.
    (
        b"joinlog 1\nsource 0\n\nbudget 0\nevents 0\ntrace 0\n\n",
        46,
    ),
];

// Logs, each with the place of its first wrong field.
pub fn logs() -> &'static [(&'static [u8], usize)] {
    LOGS
}
