//! Texts from outside, and the answers that broken texts get. Each table was made by a script apart from
//! this crate, which judges a text line by line with regular expressions for the lines' forms; its
//! entries are (end, line, code): broken before `end`, and from the entry before on, a text gets that
//! fault, where line and code 0 mean that it is read.

use crate::pieces::Text;

pub(crate) type Answers = &'static [(usize, usize, u8)];

/// A text, and what it gets when it is cut at each length, and when each byte is set to 00, or to ff.
pub(crate) struct Broken {
    pub text: Text,
    pub cut: Answers,
    pub changed: Answers,
}

/// The beginning of a trace of one hart.
const HEAD: &str = "rvtl-trace 1\nT 1 4 0x80000000\n";

/// The image of `li a0, 5` and `ecall`.
const IMAGE: &str = "I 0x80000000 13055000730000000000000000000000\n";

/// Its `li`.
const FIRST: &str = "R 0 0x80000000 0x00500513 - -\n";

/// Its `ecall`.
const SECOND: &str = "R 0 0x80000004 0x00000073 - -\n";

const EXIT: &str = "H 0 exit 5\n";

/// Row 18's trace with lines of 64 bytes, in three pieces.
const WIDE: Text = &[WIDE_HEAD, WIDE_IMAGE, WIDE_REST];

const WIDE_HEAD: &str = "rvtl-trace 2\nT 1 4 0x80000000 64\n";

const WIDE_IMAGE: &str =
    "I 0x80000000 37060080032706000000000000000000000000000000000000000000000000000000000000000000000000000000000000000000000000000000000000000000\n";

const WIDE_REST: &str =
    "R 0 0x80000000 0x80000637 - -\nR 0 0x80000004 0x00062703 0x80000637 -\nP 0 1\nM s A 0 AcquireBlock 0x80000000 NtoB\nM t A 0 AcquireBlock 0x80000000 NtoB\nM s D 0 GrantData 0x80000000 toB 37060080032706000000000000000000000000000000000000000000000000000000000000000000000000000000000000000000000000000000000000000000\nM t D 0 GrantData 0x80000000 toB 37060080032706000000000000000000000000000000000000000000000000000000000000000000000000000000000000000000000000000000000000000000\nM s E 0 GrantAck 0x80000000\nM t E 0 GrantAck 0x80000000\nH 0 run\n";

/// Scripts of both versions, broken.
pub(crate) static BROKEN_SCRIPTS: [Broken; 2] = [
    Broken {
        text: &[
            "rvtl-script 1 2 4 4 2\nstep 0\ndrain 1 0x80000100\nevict 0 0x80000200\ndeliver C 1\nlocal 0 4294967295\n",
        ],
        cut: &[
            (22, 1, 5),
            (23, 0, 0),
            (29, 2, 5),
            (30, 0, 0),
            (48, 3, 5),
            (49, 0, 0),
            (67, 4, 5),
            (68, 0, 0),
            (79, 5, 5),
            (80, 0, 0),
            (98, 6, 5),
            (99, 0, 0),
        ],
        changed: &[
            (22, 1, 1),
            (27, 2, 2),
            (29, 2, 3),
            (35, 3, 2),
            (48, 3, 3),
            (54, 4, 2),
            (67, 4, 3),
            (75, 5, 2),
            (79, 5, 3),
            (85, 6, 2),
            (97, 6, 3),
            (98, 6, 5),
        ],
    },
    Broken {
        text: &["rvtl-script 2 5 4 4 2 16\nstep 255\ndeliver E 4\n"],
        cut: &[
            (25, 1, 5),
            (26, 0, 0),
            (34, 2, 5),
            (35, 0, 0),
            (46, 3, 5),
            (47, 0, 0),
        ],
        changed: &[
            (25, 1, 1),
            (30, 2, 2),
            (34, 2, 3),
            (42, 3, 2),
            (45, 3, 3),
            (46, 3, 5),
        ],
    },
];

/// Traces of both versions, broken.
pub(crate) static BROKEN_TRACES: [Broken; 3] = [
    Broken {
        text: &[HEAD, IMAGE, FIRST, SECOND, EXIT],
        cut: &[
            (13, 1, 5),
            (30, 2, 5),
            (76, 3, 5),
            (106, 4, 5),
            (136, 5, 5),
            (147, 6, 5),
            (148, 0, 0),
        ],
        changed: &[
            (13, 1, 1),
            (30, 2, 1),
            (32, 3, 2),
            (76, 3, 3),
            (78, 4, 2),
            (106, 4, 3),
            (108, 5, 2),
            (136, 5, 3),
            (138, 6, 2),
            (146, 6, 3),
            (147, 6, 5),
        ],
    },
    Broken {
        text: &[ROW_18],
        cut: &[
            (13, 1, 5),
            (30, 2, 5),
            (76, 3, 5),
            (106, 4, 5),
            (145, 5, 5),
            (151, 6, 5),
            (188, 7, 5),
            (225, 8, 5),
            (291, 9, 5),
            (357, 10, 5),
            (385, 11, 5),
            (413, 12, 5),
            (421, 13, 5),
            (422, 0, 0),
        ],
        changed: &[
            (13, 1, 1),
            (30, 2, 1),
            (32, 3, 2),
            (76, 3, 3),
            (78, 4, 2),
            (106, 4, 3),
            (108, 5, 2),
            (145, 5, 3),
            (147, 6, 2),
            (151, 6, 3),
            (153, 7, 2),
            (188, 7, 3),
            (190, 8, 2),
            (225, 8, 3),
            (227, 9, 2),
            (291, 9, 3),
            (293, 10, 2),
            (357, 10, 3),
            (359, 11, 2),
            (385, 11, 3),
            (387, 12, 2),
            (413, 12, 3),
            (415, 13, 2),
            (420, 13, 3),
            (421, 13, 5),
        ],
    },
    Broken {
        text: WIDE,
        cut: &[
            (13, 1, 5),
            (33, 2, 5),
            (175, 3, 5),
            (205, 4, 5),
            (244, 5, 5),
            (250, 6, 5),
            (287, 7, 5),
            (324, 8, 5),
            (486, 9, 5),
            (648, 10, 5),
            (676, 11, 5),
            (704, 12, 5),
            (712, 13, 5),
            (713, 0, 0),
        ],
        changed: &[
            (13, 1, 1),
            (33, 2, 1),
            (35, 3, 2),
            (175, 3, 3),
            (177, 4, 2),
            (205, 4, 3),
            (207, 5, 2),
            (244, 5, 3),
            (246, 6, 2),
            (250, 6, 3),
            (252, 7, 2),
            (287, 7, 3),
            (289, 8, 2),
            (324, 8, 3),
            (326, 9, 2),
            (486, 9, 3),
            (488, 10, 2),
            (648, 10, 3),
            (650, 11, 2),
            (676, 11, 3),
            (678, 12, 2),
            (704, 12, 3),
            (706, 13, 2),
            (711, 13, 3),
            (712, 13, 5),
        ],
    },
];

/// Rows 23, 42 and 52 and some more: a script, and the line and code of its fault.
pub(crate) const SCRIPT_FAULTS: [(&[u8], usize, u8); 14] = [
    (b"rvtl-script 1 1 4 4 2\nstep 00\n", 2, 3),
    (b"", 1, 5),
    (b"rvtl-script 1 1 4 4 2\ndeliver F 0\n", 2, 3),
    (b"rvtl-script 1 1 4 4 2\nstep 256\n", 2, 3),
    (b"rvtl-script 1 1 4 4 2\nlocal 0 4294967296\n", 2, 3),
    (b"rvtl-script 1 1 4 4 2\nstep 0 \n", 2, 3),
    (b"rvtl-script 1 1 4 4 2\n\n", 2, 2),
    (b"rvtl-script 1 1 4 4 2\nstep 9\n", 0, 0),
    (b"rvtl-script 1 1 6 4 2\n", 1, 1),
    (b"rvtl-script 2 4 4 4 2 16\n", 1, 1),
    (b"rvtl-script 2 5 4 4 2 16\n", 0, 0),
    (b"rvtl-script 1 5 4 4 2\n", 1, 1),
    (b"rvtl-script 1 1 4 4 2\nrvtl-script 1 1 4 4 2\n", 2, 2),
    (b"rvtl-script 2 1 4 4 2 32\n", 1, 1),
];

/// Rows 41 and 52 and some more: a trace, and the line and code of its fault.
pub(crate) static TRACE_FAULTS: [(Text, usize, u8); 24] = [
    (&["rvtl-trace 1\n"], 2, 5),
    (&["rvtl-trace 1"], 1, 5),
    (&[HEAD, IMAGE, FIRST, SECOND], 6, 5),
    (
        &[
            "rvtl-trace 1\r\nT 1 4 0x80000000\n",
            IMAGE,
            FIRST,
            SECOND,
            EXIT,
        ],
        1,
        1,
    ),
    (
        &[HEAD, IMAGE, "R 1 0x80000000 0x00500513 - -\n", SECOND, EXIT],
        4,
        3,
    ),
    (&[HEAD, IMAGE, "P 0 0\n", FIRST, SECOND, EXIT], 5, 4),
    (
        &[
            HEAD,
            IMAGE,
            FIRST,
            SECOND,
            "M s A 0 GrantAck 0x80000100\n",
            EXIT,
        ],
        6,
        3,
    ),
    (&["rvtl-trace 2\nT 4 4 0x80000000 16\n"], 2, 1),
    (&[HEAD, IMAGE, FIRST, SECOND, "rvtl-trace 1\n", EXIT], 6, 4),
    (
        &[HEAD, IMAGE, FIRST, SECOND, "T 1 4 0x80000000\n", EXIT],
        6,
        4,
    ),
    (
        &[HEAD, IMAGE, FIRST, SECOND, "T 1 6 0x80000000\n", EXIT],
        6,
        3,
    ),
    (&[HEAD, IMAGE, FIRST, SECOND, "rvtl-trace 3\n", EXIT], 6, 3),
    (
        &[
            HEAD,
            "I 0x80000000 00000000000000000000000000000000\n",
            FIRST,
            SECOND,
            EXIT,
        ],
        3,
        3,
    ),
    (&[HEAD, IMAGE, IMAGE, FIRST, SECOND, EXIT], 4, 4),
    (
        &[
            HEAD,
            "I 0x80000008 13055000730000000000000000000000\n",
            FIRST,
            SECOND,
            EXIT,
        ],
        3,
        3,
    ),
    (
        &[
            HEAD,
            "I 0x80001000 13055000730000000000000000000000\n",
            FIRST,
            SECOND,
            EXIT,
        ],
        3,
        3,
    ),
    (&[HEAD, IMAGE, FIRST, SECOND, "H 0 exit 256\n"], 6, 3),
    (&[HEAD, IMAGE, FIRST, SECOND, "H 0 stop 9\n"], 6, 3),
    (
        &[HEAD, IMAGE, "R 0 0x80000000 0x0050051A - -\n", SECOND, EXIT],
        4,
        3,
    ),
    (&[HEAD, IMAGE, FIRST, SECOND, "H 00 exit 5\n"], 6, 3),
    (
        &[
            WIDE_HEAD,
            "I 0x80000000 00000000000000000000000000000000000000000000000000000000000000000000000000000000000000000000000000000000000000000000000000000000\n",
            WIDE_REST,
        ],
        3,
        3,
    ),
    (
        &[
            HEAD,
            IMAGE,
            "R 0 0x80000000 0x00500513 -  -\n",
            SECOND,
            EXIT,
        ],
        4,
        3,
    ),
    (&[HEAD, IMAGE, FIRST, SECOND, "P 0 1000000\n", EXIT], 6, 3),
    (&[HEAD, IMAGE, FIRST, SECOND, "P 0 999999\n", EXIT], 0, 0),
];

/// Traces of other machines: every form of a line that a machine writes, in both versions.
pub(crate) static TRACES: [Text; 13] = [
    &["rvtl-trace 1\nT 1 4 0x80000000\nI 0x80000000 13055000730000000000000000000000\nH 0 run\n"],
    &[
        "rvtl-trace 1\nT 1 4 0x80000000\nI 0x80000000 371600800327c6ff0327060000000000\nR 0 0x80000000 0x80001637 - -\nR 0 0x80000004 0xffc62703 0x00000000 -\nP 0 1\nM s A 0 AcquireBlock 0x80000ff0 NtoB\nM t A 0 AcquireBlock 0x80000ff0 NtoB\nM s D 0 GrantData 0x80000ff0 toB 00000000000000000000000000000000\nM t D 0 GrantData 0x80000ff0 toB 00000000000000000000000000000000\nM s E 0 GrantAck 0x80000ff0\nH 0 stop 5\n",
    ],
    &[
        "rvtl-trace 1\nT 1 4 0x80000000\nI 0x80000000 37060080930610002320d620af27d600\nR 0 0x80000000 0x80000637 - -\nR 0 0x80000004 0x00100693 - -\nR 0 0x80000008 0x20d62023 - -\nM s A 0 AcquireBlock 0x80000000 NtoT\nH 0 run\n",
    ],
    &[
        "rvtl-trace 1\nT 1 4 0x80000000\nI 0x80000000 67002000000000000000000000000000\nH 0 stop 0\n",
    ],
    &[
        "rvtl-trace 1\nT 1 4 0x80000000\nI 0x80000000 73000000130000000000000000000000\nR 0 0x80000000 0x00000073 - -\nH 0 exit 0\n",
    ],
    &[
        "rvtl-trace 1\nT 1 4 0x80000000\nI 0x80000000 b7050080938505102fa50510afa6c518\nR 0 0x80000000 0x800005b7 - -\nR 0 0x80000004 0x10058593 - -\nR 0 0x80000008 0x1005a52f 0x00000000 -\nR 0 0x8000000c 0x18c5a6af - fail\nP 0 2\nM s A 0 AcquireBlock 0x80000100 NtoT\nM t A 0 AcquireBlock 0x80000100 NtoT\nM s D 0 GrantData 0x80000100 toT 00000000000000000000000000000000\nM t D 0 GrantData 0x80000100 toT 00000000000000000000000000000000\nM s E 0 GrantAck 0x80000100\nM s C 0 Release 0x80000100 TtoN\nH 0 run\n",
    ],
    &[
        "rvtl-trace 1\nT 1 4 0x80000000\nI 0x80000000 37060080032706108327062000000000\nR 0 0x80000000 0x80000637 - -\nR 0 0x80000004 0x10062703 0x00000000 -\nP 0 1\nM s A 0 AcquireBlock 0x80000100 NtoB\nM t A 0 AcquireBlock 0x80000100 NtoB\nM s D 0 GrantData 0x80000100 toB 00000000000000000000000000000000\nM t D 0 GrantData 0x80000100 toB 00000000000000000000000000000000\nM s E 0 GrantAck 0x80000100\nM s C 0 Release 0x80000100 BtoN\nM s A 0 AcquireBlock 0x80000200 NtoB\nH 0 run\n",
    ],
    &[
        "rvtl-trace 1\nT 2 4 0x80000000\nI 0x80000000 3706008093061000631805002320d610\nI 0x80000010 130000002320d6200327062083270610\nR 0 0x80000000 0x80000637 - -\nR 0 0x80000004 0x00100693 - -\nR 0 0x80000008 0x00051863 - -\nR 0 0x8000000c 0x10d62023 - -\nR 0 0x80000010 0x00000013 - -\nR 0 0x80000014 0x20d62023 - -\nR 1 0x80000000 0x80000637 - -\nR 1 0x80000004 0x00100693 - -\nR 1 0x80000008 0x00051863 - -\nP 0 5\nM s A 0 AcquireBlock 0x80000200 NtoT\nM t A 0 AcquireBlock 0x80000200 NtoT\nM s D 0 GrantData 0x80000200 toT 00000000000000000000000000000000\nM t D 0 GrantData 0x80000200 toT 00000000000000000000000000000000\nM s E 0 GrantAck 0x80000200\nM s C 0 ReleaseData 0x80000200 TtoN 01000000000000000000000000000000\nM t C 0 ReleaseData 0x80000200 TtoN 01000000000000000000000000000000\nM s D 0 ReleaseAck 0x80000200\nM s A 1 AcquireBlock 0x80000200 NtoB\nM t E 0 GrantAck 0x80000200\nM t A 1 AcquireBlock 0x80000200 NtoB\nM s D 1 GrantData 0x80000200 toB 01000000000000000000000000000000\nH 0 run\nH 1 run\n",
    ],
    &[
        "rvtl-trace 1\nT 2 4 0x80000000\nI 0x80000000 3706008093061000032706102320d610\nR 0 0x80000000 0x80000637 - -\nR 0 0x80000004 0x00100693 - -\nR 0 0x80000008 0x10062703 0x00000000 -\nR 0 0x8000000c 0x10d62023 - -\nR 1 0x80000000 0x80000637 - -\nR 1 0x80000004 0x00100693 - -\nR 1 0x80000008 0x10062703 0x00000000 -\nR 1 0x8000000c 0x10d62023 - -\nP 0 2\nP 1 2\nP 0 3\nP 1 3\nM s A 0 AcquireBlock 0x80000100 NtoB\nM t A 0 AcquireBlock 0x80000100 NtoB\nM s D 0 GrantData 0x80000100 toB 00000000000000000000000000000000\nM t D 0 GrantData 0x80000100 toB 00000000000000000000000000000000\nM s E 0 GrantAck 0x80000100\nM t E 0 GrantAck 0x80000100\nM s A 1 AcquireBlock 0x80000100 NtoB\nM t A 1 AcquireBlock 0x80000100 NtoB\nM s D 1 GrantData 0x80000100 toB 00000000000000000000000000000000\nM t D 1 GrantData 0x80000100 toB 00000000000000000000000000000000\nM s E 1 GrantAck 0x80000100\nM t E 1 GrantAck 0x80000100\nM s A 0 AcquireBlock 0x80000100 BtoT\nM s A 1 AcquireBlock 0x80000100 BtoT\nM t A 0 AcquireBlock 0x80000100 BtoT\nM s B 1 ProbeBlock 0x80000100 toN\nM t B 1 ProbeBlock 0x80000100 toN\nM s C 1 ProbeAck 0x80000100 BtoN\nM t C 1 ProbeAck 0x80000100 BtoN\nM s D 0 Grant 0x80000100 toT\nM t D 0 Grant 0x80000100 toT\nM s E 0 GrantAck 0x80000100\nM t E 0 GrantAck 0x80000100\nM t A 1 AcquireBlock 0x80000100 BtoT\nM s B 0 ProbeBlock 0x80000100 toN\nM t B 0 ProbeBlock 0x80000100 toN\nM s C 0 ProbeAckData 0x80000100 TtoN 01000000000000000000000000000000\nM t C 0 ProbeAckData 0x80000100 TtoN 01000000000000000000000000000000\nM s D 1 GrantData 0x80000100 toT 01000000000000000000000000000000\nM t D 1 GrantData 0x80000100 toT 01000000000000000000000000000000\nM s E 1 GrantAck 0x80000100\nH 0 run\nH 1 run\n",
    ],
    &[
        "rvtl-trace 1\nT 2 4 0x80000000\nI 0x80000000 3706008093061000631605002320d610\nI 0x80000010 73000000032706100000000000000000\nR 0 0x80000000 0x80000637 - -\nR 0 0x80000004 0x00100693 - -\nR 0 0x80000008 0x00051663 - -\nR 0 0x8000000c 0x10d62023 - -\nR 0 0x80000010 0x00000073 - -\nR 1 0x80000000 0x80000637 - -\nR 1 0x80000004 0x00100693 - -\nR 1 0x80000008 0x00051663 - -\nR 1 0x80000014 0x10062703 0x00000001 -\nP 0 3\nP 1 3\nM s A 0 AcquireBlock 0x80000100 NtoT\nM t A 0 AcquireBlock 0x80000100 NtoT\nM s D 0 GrantData 0x80000100 toT 00000000000000000000000000000000\nM t D 0 GrantData 0x80000100 toT 00000000000000000000000000000000\nM s E 0 GrantAck 0x80000100\nM t E 0 GrantAck 0x80000100\nM s A 1 AcquireBlock 0x80000100 NtoB\nM t A 1 AcquireBlock 0x80000100 NtoB\nM s B 0 ProbeBlock 0x80000100 toB\nM t B 0 ProbeBlock 0x80000100 toB\nM s C 0 ProbeAckData 0x80000100 TtoB 01000000000000000000000000000000\nM t C 0 ProbeAckData 0x80000100 TtoB 01000000000000000000000000000000\nM s D 1 GrantData 0x80000100 toB 01000000000000000000000000000000\nM t D 1 GrantData 0x80000100 toB 01000000000000000000000000000000\nM s E 1 GrantAck 0x80000100\nH 0 exit 0\nH 1 run\n",
    ],
    WIDE,
    &[
        "rvtl-trace 2\nT 8 4 0x80000000 16\nI 0x80000000 13055000730000000000000000000000\nR 7 0x80000000 0x00500513 - -\nH 0 run\nH 1 run\nH 2 run\nH 3 run\nH 4 run\nH 5 run\nH 6 run\nH 7 run\n",
    ],
    &[
        "rvtl-trace 1\nT 1 4 0x80000000\nI 0x80000000 37060080930610001307200093073000\nI 0x80000010 130806601309066893090670130a0678\nI 0x80000020 33c252003302c20023205260af24f81c\nR 0 0x80000000 0x80000637 - -\nR 0 0x80000004 0x00100693 - -\nR 0 0x80000008 0x00200713 - -\nR 0 0x8000000c 0x00300793 - -\nR 0 0x80000010 0x60060813 - -\nR 0 0x80000014 0x68060913 - -\nR 0 0x80000018 0x70060993 - -\nR 0 0x8000001c 0x78060a13 - -\nR 0 0x80000020 0x0052c233 - -\nR 0 0x80000024 0x00c20233 - -\nR 0 0x80000028 0x60522023 - -\nR 0 0x8000002c 0x1cf824af - ok\nP 0 11\nP 0 10\nH 0 run\n",
    ],
];

/// Scripts of every event, in both versions.
pub(crate) const SCRIPTS: [&[u8]; 6] = [
    b"rvtl-script 1 1 4 2 4\ndeliver C 0\ndeliver C 0\nstep 0\nstep 0\ndrain 0 0x8000062c\ndeliver A 0\ndrain 0 0x80000650\nstep 0\ndrain 0 0x80000650\nstep 0\nstep 0\n",
    b"rvtl-script 1 2 4 4 2\nstep 0\nstep 0\nstep 0\nstep 0\nstep 0\nstep 0\nstep 1\nstep 1\nstep 1\ndrain 0 0x80000200\ndeliver A 0\ndeliver D 0\ndrain 0 0x80000200\nevict 0 0x80000200\ndeliver C 0\nstep 1\ndeliver A 1\ndeliver E 0\ndeliver A 1\n",
    b"rvtl-script 1 1 4 64 2\nstep 0\nstep 0\ndeliver A 0\ndeliver D 0\nstep 0\nstep 0\ndeliver A 0\ndeliver D 0\nstep 0\nstep 0\ndeliver A 0\ndeliver D 0\nstep 0\nstep 0\ndeliver A 0\ndeliver D 0\nstep 0\nstep 0\ndeliver A 0\ndeliver D 0\ndeliver E 0\ndeliver D 0\nevict 0 0x80000100\nevict 0 0x80000110\nevict 0 0x80000120\nevict 0 0x80000130\nevict 0 0x80000140\ndeliver C 0\ndeliver D 0\nevict 0 0x80000140\n",
    b"rvtl-script 2 1 4 4 2 64\nstep 0\nstep 0\ndeliver A 0\ndeliver D 0\ndeliver E 0\nstep 0\n",
    b"rvtl-script 2 8 4 4 2 16\nstep 7\n",
    b"rvtl-script 1 1 4 4 2\nlocal 0 2\nlocal 0 1\n",
];

/// A load that misses, and the messages that serve it.
pub(crate) const ROW_18: &str =
    "rvtl-trace 1\nT 1 4 0x80000000\nI 0x80000000 37060080032706000000000000000000\nR 0 0x80000000 0x80000637 - -\nR 0 0x80000004 0x00062703 0x80000637 -\nP 0 1\nM s A 0 AcquireBlock 0x80000000 NtoB\nM t A 0 AcquireBlock 0x80000000 NtoB\nM s D 0 GrantData 0x80000000 toB 37060080032706000000000000000000\nM t D 0 GrantData 0x80000000 toB 37060080032706000000000000000000\nM s E 0 GrantAck 0x80000000\nM t E 0 GrantAck 0x80000000\nH 0 run\n";

/// Messages that no machine sends are read and written all the same.
pub(crate) static UNUSUAL: Text = &[
    HEAD,
    IMAGE,
    FIRST,
    SECOND,
    "M s B 0 ProbeBlock 0x80000010 toT\nM t C 0 ProbeAck 0x80000010 TtoT\nM t C 0 ProbeAck 0x80000010 BtoB\nM t C 0 ProbeAckData 0x80000ff0 NtoN 0000000000000000000000000000000f\nM s C 0 Release 0x80000010 TtoB\nM s D 0 Grant 0x80000010 toN\nM s D 0 ReleaseAck 0x80000010\n",
    EXIT,
];
