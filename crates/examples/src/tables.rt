// The sessions and the loadings of docs/PROTOCOL.md, bytes in hexadecimal as they stand there; and public keys, right
// and wrong.
use audit::verdict::Verdict;

// A frame, and the reply that is stated.
pub(super) type Line = (&'static str, &'static str);

// A session, the columns of its check matrix, the inverse memory after its last line, and the packed key that is
// published then; empty is what is not stated, or not published.
pub(super) struct Session {
    pub(super) what: &'static str,
    pub(super) set: &'static str,
    pub(super) key: &'static str,
    pub(super) blinding: &'static str,
    pub(super) lines: &'static [Line],
    pub(super) checks: &'static str,
    pub(super) inverse: &'static str,
    pub(super) public: &'static str,
}

pub(super) const SESSIONS: [Session; 6] = [
    Session {
        what: "practice12, the whole session",
        set: "practice12",
        key: KEY12,
        blinding: BLINDING12,
        lines: &WHOLE12,
        checks: CHECKS12,
        inverse: "4E 4A 5F 5A C5 C9 3A 39",
        public: "0B 07 04 08 0E 0D 02 01",
    },
    Session {
        what: "practice12, refused frames",
        set: "practice12",
        key: KEY12,
        blinding: BLINDING12,
        lines: &REFUSED12,
        checks: "",
        inverse: "4E 4A 00 00 00 00 00 00",
        public: "",
    },
    Session {
        what: "practice12, a wrong first row",
        set: "practice12",
        key: KEY12,
        blinding: BLINDING12,
        lines: &WRONG12,
        checks: "",
        inverse: "00 00 00 00 00 00 00 00",
        public: "",
    },
    Session {
        what: "practice12, a singular session",
        set: "practice12",
        key: KEY12,
        blinding: SINGULAR12,
        lines: &COMBINED12,
        checks: "",
        inverse: "00 00 00 00 00 00 00 00",
        public: "",
    },
    Session {
        what: "practice20, the whole session",
        set: "practice20",
        key: KEY20,
        blinding: BLINDING20,
        lines: &WHOLE20,
        checks: CHECKS20,
        inverse: INVERSE20,
        public: "07 02 17 08 14 11 13 1A 1F 1E 08 0D 16 00 06",
    },
    Session {
        what: "practice20, a singular check block",
        set: "practice20",
        key: SINGULAR_KEY20,
        blinding: IDENTITY20,
        lines: &COMBINED20,
        checks: "",
        inverse: ZERO20,
        public: "",
    },
];

// g_0 and g_1, then the support 0 to 11; also the key of a new slot
pub(super) const KEY12: &str = "\
08 00 01 00 00 00 01 00 02 00 03 00 04 00 05 00 06 00 07 00 08 00 \
09 00 0A 00 0B 00";

// The identity, but for row 0
const BLINDING12: &str = "03 02 04 08 10 20 40 80";

// Rows 0 and 1 are alike
const SINGULAR12: &str = "02 02 04 08 10 20 40 80";

// Status, columns, status, rows, status, and a column too late
const WHOLE12: [Line; 20] = [
    ("14", "24 00 00 00"),
    ("11 00 00", "21 00 00 0E"),
    ("11 01 00", "21 01 00 FE"),
    ("11 02 00", "21 02 00 62"),
    ("11 03 00", "21 03 00 52"),
    ("11 04 00", "21 04 00 68"),
    ("11 05 00", "21 05 00 E8"),
    ("11 06 00", "21 06 00 C3"),
    ("11 07 00", "21 07 00 E3"),
    ("14", "24 00 00 00"),
    ("12 00 00 4E", "22 01 00"),
    ("12 01 00 4A", "22 02 00"),
    ("12 02 00 5D", "22 03 00"),
    ("12 03 00 5A", "22 04 00"),
    ("12 04 00 C7", "22 05 00"),
    ("12 05 00 CB", "22 06 00"),
    ("12 06 00 3A", "22 07 00"),
    ("12 07 00 3B", "22 08 00"),
    ("14", "24 01 08 00"),
    ("11 00 00", "2F 10 01 00"),
];

// Row 0, what is refused then, status and row 1
const REFUSED12: [Line; 15] = [
    ("12 00 00 4E", "22 01 00"),
    ("", "2F 0E 00 00"),
    ("99", "2F 0E 99 00"),
    ("11 00", "2F 0F 02 00"),
    ("14 00", "2F 0F 02 00"),
    ("11 08 00", "2F 11 08 00"),
    ("11 FF FF", "2F 11 FF FF"),
    ("12 00 00 4E", "2F 12 01 00"),
    ("12 02 00 5D", "2F 12 01 00"),
    ("12 01 00 4E", "2F 13 00 00"),
    ("13 00", "2F 14 00 00"),
    ("13 03", "2F 15 00 00"),
    ("13 80", "2F 15 01 00"),
    ("14", "24 00 01 00"),
    ("12 01 00 4A", "22 02 00"),
];

// Column 6 is the first that is wrong
const WRONG12: [Line; 1] = [("12 00 00 4F", "2F 13 06 00")];

// Columns, combinations, status, and a row too late
const COMBINED12: [Line; 13] = [
    ("11 00 00", "21 00 00 0F"),
    ("11 01 00", "21 01 00 FF"),
    ("11 02 00", "21 02 00 63"),
    ("11 03 00", "21 03 00 53"),
    ("11 04 00", "21 04 00 68"),
    ("11 05 00", "21 05 00 E8"),
    ("11 06 00", "21 06 00 C3"),
    ("11 07 00", "21 07 00 E3"),
    ("13 00", "2F 14 00 00"),
    ("13 01", "2F 15 00 00"),
    ("13 03", "23"),
    ("14", "24 02 00 00"),
    ("12 00 00 4E", "2F 10 02 00"),
];

// g_0 to g_2, then the support 4 to 23
const KEY20: &str = "\
01 00 01 00 00 00 04 00 05 00 06 00 07 00 08 00 09 00 0A 00 0B 00 \
0C 00 0D 00 0E 00 0F 00 10 00 11 00 12 00 13 00 14 00 15 00 16 00 \
17 00";

// The same g, and the support 0 to 19
const SINGULAR_KEY20: &str = "\
01 00 01 00 00 00 00 00 01 00 02 00 03 00 04 00 05 00 06 00 07 00 \
08 00 09 00 0A 00 0B 00 0C 00 0D 00 0E 00 0F 00 10 00 11 00 12 00 \
13 00";

// The identity, but for row 0
const BLINDING20: &str = "\
03 00 02 00 04 00 08 00 10 00 20 00 40 00 80 00 00 01 00 02 00 04 \
00 08 00 10 00 20 00 40";

// The identity
const IDENTITY20: &str = "\
01 00 02 00 04 00 08 00 10 00 20 00 40 00 80 00 00 01 00 02 00 04 \
00 08 00 10 00 20 00 40";

// The inverse memory when all rows are taken
const INVERSE20: &str = "\
C9 14 6D 7A E5 1E 5B 62 69 21 41 79 81 36 07 66 71 56 86 25 AA 22 \
F4 27 BA 5C D0 17 BB 38";

// The inverse memory when no row is taken
const ZERO20: &str = "\
00 00 00 00 00 00 00 00 00 00 00 00 00 00 00 00 00 00 00 00 00 00 \
00 00 00 00 00 00 00 00";

// Columns, rows with refused frames between them, and the status
const WHOLE20: [Line; 36] = [
    ("11 00 00", "21 00 00 2D 3A"),
    ("11 01 00", "21 01 00 9E 65"),
    ("11 02 00", "21 02 00 EA 23"),
    ("11 03 00", "21 03 00 33 62"),
    ("11 04 00", "21 04 00 7D 32"),
    ("11 05 00", "21 05 00 D8 4C"),
    ("11 06 00", "21 06 00 17 69"),
    ("11 07 00", "21 07 00 86 22"),
    ("11 08 00", "21 08 00 69 50"),
    ("11 09 00", "21 09 00 43 4F"),
    ("11 0A 00", "21 0A 00 59 0D"),
    ("11 0B 00", "21 0B 00 B5 2B"),
    ("11 0C 00", "21 0C 00 9A 79"),
    ("11 0D 00", "21 0D 00 53 1B"),
    ("11 0E 00", "21 0E 00 36 7B"),
    ("11 0F 00", "2F 11 0F 00"),
    ("12 00 00 CB 14", "22 01 00"),
    ("12 01 00 6F FA", "22 02 00"),
    ("13 00 80", "2F 14 00 00"),
    ("13 01 00", "2F 15 00 00"),
    ("13 00", "2F 0F 02 00"),
    ("12 02 00 E7 1E 00", "2F 0F 06 00"),
    ("12 02 00 E7 1E", "22 03 00"),
    ("12 03 00 59 62", "22 04 00"),
    ("12 04 00 6B 21", "22 05 00"),
    ("12 05 00 43 79", "22 06 00"),
    ("12 06 00 83 36", "22 07 00"),
    ("12 07 00 05 66", "22 08 00"),
    ("12 08 00 73 56", "22 09 00"),
    ("12 09 00 86 25", "22 0A 00"),
    ("12 0A 00 AA 22", "22 0B 00"),
    ("12 0B 00 F4 27", "22 0C 00"),
    ("12 0C 00 BA 5C", "22 0D 00"),
    ("12 0D 00 D0 17", "22 0E 00"),
    ("12 0E 00 B9 38", "22 0F 00"),
    ("14", "24 01 0F 00"),
];

// The combination that shows it, and the status
const COMBINED20: [Line; 2] = [("13 BA 5C", "23"), ("14", "24 02 00 00")];

// The columns of H
const CHECKS12: &str = "0F FF 63 53 68 E8 C2 E2 FA 5A 1C DC";

// The columns of H, two bytes each
const CHECKS20: &str = "\
2D 3A 9F 65 EB 23 32 62 7D 32 D8 4C 16 69 87 22 69 50 42 4F 59 0D \
B5 2B 9B 79 52 1B 37 7B D4 47 4F 2A 89 1D 72 79 6F 70";

// A key made of KEY12: so many bytes of it, one of them changed; the number and place that are stated, 0 if it is read.
#[derive(Clone, Copy)]
pub(super) struct Loading {
    pub(super) length: usize,
    pub(super) at: usize,
    pub(super) value: u8,
    pub(super) number: u8,
    pub(super) place: u16,
}

pub(super) const LOADINGS: [Loading; 6] = [
    Loading {
        length: 28,
        at: 0,
        value: 8,
        number: 0,
        place: 0,
    },
    Loading {
        length: 27,
        at: 0,
        value: 8,
        number: 2,
        place: 27,
    },
    // the last entry is 15, then 16
    Loading {
        length: 28,
        at: 26,
        value: 15,
        number: 0,
        place: 0,
    },
    Loading {
        length: 28,
        at: 26,
        value: 16,
        number: 3,
        place: 13,
    },
    // entry 5 is 0, as entry 2
    Loading {
        length: 28,
        at: 10,
        value: 0,
        number: 4,
        place: 5,
    },
    // g = x^2 + x is 0 at 0, the first of the support
    Loading {
        length: 28,
        at: 0,
        value: 0,
        number: 5,
        place: 2,
    },
];

// Bytes that are to be the public key of a new slot, and what is found of them.
#[derive(Clone, Copy)]
pub(super) struct Finding {
    pub(super) bytes: &'static [u8],
    pub(super) verdict: Verdict,
}

pub(super) const FINDINGS: [Finding; 5] = [
    Finding {
        bytes: &[0x0B, 0x07, 0x04, 0x08, 0x0E, 0x0D, 0x02, 0x01],
        verdict: Verdict::Right,
    },
    Finding {
        bytes: &[0x0B, 0x07, 0x04, 0x08, 0x0E, 0x0D, 0x02],
        verdict: Verdict::Length(7),
    },
    // bit 2 of row 5, and in a later column bit 3 of row 1
    Finding {
        bytes: &[0x0B, 0x0F, 0x04, 0x08, 0x0E, 0x09, 0x02, 0x01],
        verdict: Verdict::Wrong { column: 2, row: 5 },
    },
    Finding {
        bytes: &[0x0B, 0x07, 0x04, 0x08, 0x0E, 0x0D, 0x02, 0x00],
        verdict: Verdict::Wrong { column: 0, row: 7 },
    },
    Finding {
        bytes: &[0x0B, 0x07, 0x84, 0x08, 0x0E, 0x0D, 0x02, 0x01],
        verdict: Verdict::Pad { row: 2 },
    },
];
