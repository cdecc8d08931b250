// The cases: memories that are lent, frames that are sent.

// What is tried, and the frame that is sent, byte for byte, since wrong kinds and lengths are sent too.
pub(crate) type Tried = (&'static str, &'static [u8]);

// The lengths of the lent memories.
#[derive(Clone, Copy)]
pub(crate) struct Lent {
    pub(crate) inverse: usize,
    pub(crate) working: usize,
    pub(crate) reply: usize,
}

// A memory that is lent: of the length that fits, empty, a byte short, or longer. The inverse has to fit exactly;
// working and reply memory may be longer.
#[derive(Clone, Copy)]
pub(crate) enum Length {
    Fit,
    Empty,
    Short,
    Long,
}

// How inverse, working and reply memory are lent.
pub(crate) type Lending = (&'static str, Length, Length, Length);

// What a session of a set is run with: its size, the count of its public columns, the bytes of a
// vector, the lengths that fit, and the frames.
pub(crate) struct Plan {
    pub(crate) name: &'static str,
    pub(crate) size: usize,
    pub(crate) rest: usize,
    pub(crate) bytes: usize,
    pub(crate) columns: u8,
    pub(crate) fit: Lent,
    pub(crate) blinding: &'static [u8],
    pub(crate) singular: &'static [u8],
    pub(crate) wrong: &'static [Tried],
    pub(crate) begin: &'static [Tried],
    pub(crate) middle: &'static [Tried],
    pub(crate) end: &'static [Tried],
    pub(crate) late: &'static [Tried],
    pub(crate) claims: &'static [Tried],
}

pub(crate) const PLAN12: Plan = Plan {
    name: "practice12",
    size: 8,
    rest: 4,
    bytes: 1,
    columns: 8,
    fit: Lent {
        inverse: 8,
        working: 2,
        reply: 4,
    },
    blinding: &BLINDING12,
    singular: &SINGULAR12,
    wrong: &WRONG12,
    begin: &BEGIN12,
    middle: &MIDDLE12,
    end: &END12,
    late: &LATE12,
    claims: &CLAIMS12,
};

pub(crate) const PLAN20: Plan = Plan {
    name: "practice20",
    size: 15,
    rest: 5,
    bytes: 2,
    columns: 15,
    fit: Lent {
        inverse: 30,
        working: 4,
        reply: 5,
    },
    blinding: &BLINDING20,
    singular: &SINGULAR20,
    wrong: &WRONG20,
    begin: &BEGIN20,
    middle: &MIDDLE20,
    end: &END20,
    late: &LATE20,
    claims: &CLAIMS20,
};

// For answering.
pub(crate) const ANSWERING: [Lending; 11] = [
    ("right lengths", Length::Fit, Length::Fit, Length::Fit),
    (
        "longer working and reply",
        Length::Fit,
        Length::Long,
        Length::Long,
    ),
    ("inverse empty", Length::Empty, Length::Fit, Length::Fit),
    ("inverse short", Length::Short, Length::Fit, Length::Fit),
    ("inverse long", Length::Long, Length::Fit, Length::Fit),
    ("working empty", Length::Fit, Length::Empty, Length::Fit),
    ("working short", Length::Fit, Length::Short, Length::Fit),
    ("reply empty", Length::Fit, Length::Fit, Length::Empty),
    ("reply short", Length::Fit, Length::Fit, Length::Short),
    ("all short", Length::Short, Length::Short, Length::Short),
    (
        "working and reply short",
        Length::Fit,
        Length::Short,
        Length::Short,
    ),
];

// For publishing, which asks for no reply memory.
pub(crate) const PUBLISHING: [Lending; 6] = [
    ("inverse empty", Length::Empty, Length::Fit, Length::Fit),
    ("inverse short", Length::Short, Length::Fit, Length::Fit),
    ("inverse long", Length::Long, Length::Fit, Length::Fit),
    ("working empty", Length::Fit, Length::Empty, Length::Fit),
    ("working short", Length::Fit, Length::Short, Length::Fit),
    ("both short", Length::Short, Length::Short, Length::Fit),
];

// Refused by 14, 15, 17 to 21, on practice12 before the first row; then the status.
const WRONG12: [Tried; 27] = [
    ("no frame", &[]),
    ("kind 00", &[0]),
    ("kind FF", &[0xff]),
    ("kind 10, long", &[0x10, 0, 0]),
    ("kind 15", &[0x15]),
    ("column cut to its kind", &[0x11]),
    ("column cut", &[0x11, 0]),
    ("column too long", &[0x11, 0, 0, 0]),
    ("row cut to its kind", &[0x12]),
    ("row cut", &[0x12, 0, 0]),
    ("row too long", &[0x12, 0, 0, 0, 0]),
    ("combination cut", &[0x13]),
    ("combination too long", &[0x13, 0, 0]),
    ("status too long", &[0x14, 0]),
    ("column mt", &[0x11, 0x08, 0]),
    ("column 256", &[0x11, 0, 0x01]),
    ("column 65535", &[0x11, 0xff, 0xff]),
    ("row too early", &[0x12, 0x01, 0, 0x4a]),
    ("row 256", &[0x12, 0, 0x01, 0x4e]),
    ("wrong row", &[0x12, 0, 0, 0x4a]),
    ("zero row", &[0x12, 0, 0, 0]),
    ("all ones row", &[0x12, 0, 0, 0xff]),
    ("zero combination", &[0x13, 0]),
    ("combination 01", &[0x13, 0x01]),
    ("combination 4A", &[0x13, 0x4a]),
    ("combination 3B", &[0x13, 0x3b]),
    ("status", &[0x14]),
];

// The same on practice20.
const WRONG20: [Tried; 30] = [
    ("no frame", &[]),
    ("kind 00", &[0]),
    ("kind FF", &[0xff]),
    ("kind 10, long", &[0x10, 0, 0]),
    ("kind 15", &[0x15]),
    ("column cut to its kind", &[0x11]),
    ("column cut", &[0x11, 0]),
    ("column too long", &[0x11, 0, 0, 0]),
    ("row cut to its kind", &[0x12]),
    ("row cut", &[0x12, 0, 0, 0]),
    ("row too long", &[0x12, 0, 0, 0, 0, 0]),
    ("combination cut", &[0x13, 0]),
    ("combination too long", &[0x13, 0, 0, 0]),
    ("status too long", &[0x14, 0]),
    ("column mt", &[0x11, 0x0f, 0]),
    ("column 256", &[0x11, 0, 0x01]),
    ("column 65535", &[0x11, 0xff, 0xff]),
    ("row too early", &[0x12, 0x01, 0, 0x6f, 0x7a]),
    ("row 256", &[0x12, 0, 0x01, 0xcb, 0x14]),
    ("wrong row", &[0x12, 0, 0, 0x6f, 0x7a]),
    ("wrong row 14", &[0x12, 0, 0, 0xb9, 0x38]),
    ("zero row", &[0x12, 0, 0, 0, 0]),
    ("only the pad bit", &[0x12, 0, 0, 0, 0x80]),
    ("zero combination", &[0x13, 0, 0]),
    ("only the pad bit", &[0x13, 0, 0x80]),
    ("combination 01 00", &[0x13, 0x01, 0]),
    ("combination of row 1", &[0x13, 0x6f, 0x7a]),
    ("the same, pad bit set", &[0x13, 0x6f, 0xfa]),
    ("combination of row 14", &[0x13, 0xb9, 0x38]),
    ("status", &[0x14]),
];

// After three rows: a row again, a row ahead, a wrong row, a combination, the status.
const MIDDLE12: [Tried; 6] = [
    ("row 2 again", &[0x12, 0x02, 0, 0x5d]),
    ("row 4 ahead", &[0x12, 0x04, 0, 0xc7]),
    ("wrong row 3", &[0x12, 0x03, 0, 0xc7]),
    ("combination of row 5", &[0x13, 0xcb]),
    ("column 7", &[0x11, 0x07, 0]),
    ("status", &[0x14]),
];

// The same on practice20.
const MIDDLE20: [Tried; 6] = [
    ("row 2 again", &[0x12, 0x02, 0, 0xe7, 0x1e]),
    ("row 4 ahead", &[0x12, 0x04, 0, 0x6b, 0x21]),
    ("wrong row 3", &[0x12, 0x03, 0, 0x6b, 0x21]),
    ("combination of row 5", &[0x13, 0x43, 0x79]),
    ("column 14", &[0x11, 0x0e, 0]),
    ("status", &[0x14]),
];

// When the phase is no longer 0: 16 by the three kinds, but 14 and 15 come first; the status.
const LATE12: [Tried; 8] = [
    ("column late", &[0x11, 0, 0]),
    ("column mt late", &[0x11, 0x08, 0]),
    ("row late", &[0x12, 0x07, 0, 0x3b]),
    ("combination late", &[0x13, 0x03]),
    ("zero late", &[0x13, 0]),
    ("row cut late", &[0x12, 0x07, 0]),
    ("kind FF late", &[0xff]),
    ("status", &[0x14]),
];

// The same on practice20.
const LATE20: [Tried; 8] = [
    ("column late", &[0x11, 0, 0]),
    ("column mt late", &[0x11, 0x0f, 0]),
    ("row late", &[0x12, 0x0e, 0, 0xb9, 0x38]),
    ("combination late", &[0x13, 0x03, 0]),
    ("zero late", &[0x13, 0, 0]),
    ("row cut late", &[0x12, 0x0e, 0]),
    ("kind FF late", &[0xff]),
    ("status", &[0x14]),
];

// Where blinding rows 0 and 1 are equal: claims that B is singular.
const CLAIMS12: [Tried; 3] = [
    ("zero combination", &[0x13, 0]),
    ("wrong combination", &[0x13, 0x01]),
    ("right combination", &[0x13, 0x03]),
];

// The same on practice20; the pad bit of the right claim is set.
const CLAIMS20: [Tried; 3] = [
    ("zero combination", &[0x13, 0, 0]),
    ("wrong combination", &[0x13, 0x01, 0]),
    ("right combination", &[0x13, 0x03, 0x80]),
];

// The first rows of the inverse of B.
const BEGIN12: [Tried; 3] = [
    ("row 0", &[0x12, 0, 0, 0x4e]),
    ("row 1", &[0x12, 0x01, 0, 0x4a]),
    ("row 2", &[0x12, 0x02, 0, 0x5d]),
];

// The rows after these.
const END12: [Tried; 5] = [
    ("row 3", &[0x12, 0x03, 0, 0x5a]),
    ("row 4", &[0x12, 0x04, 0, 0xc7]),
    ("row 5", &[0x12, 0x05, 0, 0xcb]),
    ("row 6", &[0x12, 0x06, 0, 0x3a]),
    ("row 7", &[0x12, 0x07, 0, 0x3b]),
];

// The same on practice20.
const BEGIN20: [Tried; 3] = [
    ("row 0", &[0x12, 0, 0, 0xcb, 0x14]),
    ("row 1, pad bit set", &[0x12, 0x01, 0, 0x6f, 0xfa]),
    ("row 2", &[0x12, 0x02, 0, 0xe7, 0x1e]),
];

// The rows after these.
const END20: [Tried; 12] = [
    ("row 3", &[0x12, 0x03, 0, 0x59, 0x62]),
    ("row 4, pad bit set", &[0x12, 0x04, 0, 0x6b, 0xa1]),
    ("row 5", &[0x12, 0x05, 0, 0x43, 0x79]),
    ("row 6", &[0x12, 0x06, 0, 0x83, 0x36]),
    ("row 7, pad bit set", &[0x12, 0x07, 0, 0x05, 0xe6]),
    ("row 8", &[0x12, 0x08, 0, 0x73, 0x56]),
    ("row 9", &[0x12, 0x09, 0, 0x86, 0x25]),
    ("row 10, pad bit set", &[0x12, 0x0a, 0, 0xaa, 0xa2]),
    ("row 11", &[0x12, 0x0b, 0, 0xf4, 0x27]),
    ("row 12", &[0x12, 0x0c, 0, 0xba, 0x5c]),
    ("row 13, pad bit set", &[0x12, 0x0d, 0, 0xd0, 0x97]),
    ("row 14", &[0x12, 0x0e, 0, 0xb9, 0x38]),
];

// Blindings, and the same with rows 0 and 1 equal. The walkthrough has the first two as well: each
// program is read alone, its frames beside its blinding.
const BLINDING12: [u8; 8] = [0x03, 0x02, 0x04, 0x08, 0x10, 0x20, 0x40, 0x80];

const SINGULAR12: [u8; 8] = [0x02, 0x02, 0x04, 0x08, 0x10, 0x20, 0x40, 0x80];

const BLINDING20: [u8; 30] = [
    0x03, 0, 0x02, 0, 0x04, 0, 0x08, 0, 0x10, 0, 0x20, 0, 0x40, 0, 0x80, 0, 0, 0x01, 0, 0x02, 0,
    0x04, 0, 0x08, 0, 0x10, 0, 0x20, 0, 0x40,
];

const SINGULAR20: [u8; 30] = [
    0x02, 0, 0x02, 0, 0x04, 0, 0x08, 0, 0x10, 0, 0x20, 0, 0x40, 0, 0x80, 0, 0, 0x01, 0, 0x02, 0,
    0x04, 0, 0x08, 0, 0x10, 0, 0x20, 0, 0x40,
];

// A key of practice20: g = 1, 1, 0 and support 4 to 23, low byte first. The loading checks have it as
// well: each program is read alone, its cases beside its key.
pub(crate) const KEY20: [u8; 46] = [
    1, 0, 1, 0, 0, 0, 4, 0, 5, 0, 6, 0, 7, 0, 8, 0, 9, 0, 10, 0, 11, 0, 12, 0, 13, 0, 14, 0, 15, 0,
    16, 0, 17, 0, 18, 0, 19, 0, 20, 0, 21, 0, 22, 0, 23, 0,
];

// Sinks that are to be made: the bytes of memory, size and limit.
pub(crate) const MAKES: [(&str, usize, usize, usize); 16] = [
    ("size 8, limit 4", 8, 8, 4),
    ("size 0", 8, 0, 4),
    ("size 1665", 8, 1665, 4),
    ("size 0, limit 0", 8, 0, 0),
    ("limit 0", 0, 8, 0),
    ("limit 8193", 8, 8, 8193),
    ("memory empty", 0, 8, 4),
    ("memory short", 7, 8, 4),
    ("memory long", 9, 8, 4),
    ("limit 8", 8, 8, 8),
    ("limit 9", 8, 8, 9),
    ("limit 9, twice the memory", 16, 8, 9),
    ("size 15, limit 5", 15, 15, 5),
    ("size 15, limit 5, twice the memory", 30, 15, 5),
    ("largest size", 1, 1664, 1),
    ("largest limit", 1, 1, 8192),
];
