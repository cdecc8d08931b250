// The cases: keys that are loaded, whole and changed.

// practice12: g is entries 0 and 1, the support entries 2 to 13; a byte is left over.
pub(crate) const KEY12: [u8; 29] = [
    8, 0, 1, 0, 0, 0, 1, 0, 2, 0, 3, 0, 4, 0, 5, 0, 6, 0, 7, 0, 8, 0, 9, 0, 10, 0, 11, 0, 0,
];

// practice20: g is entries 0 to 2, the support entries 3 to 22. The session checks have it as well:
// each program is read alone, its cases beside its key.
pub(crate) const KEY20: [u8; 46] = [
    1, 0, 1, 0, 0, 0, 4, 0, 5, 0, 6, 0, 7, 0, 8, 0, 9, 0, 10, 0, 11, 0, 12, 0, 13, 0, 14, 0, 15, 0,
    16, 0, 17, 0, 18, 0, 19, 0, 20, 0, 21, 0, 22, 0, 23, 0,
];

// What is loaded: the name, how many bytes of KEY12, and which of them are changed.
pub(crate) type Case = (&'static str, &'static str, usize, &'static [(usize, u8)]);

// Two keys that are read, then what is refused.
pub(crate) const CASES: [Case; 16] = [
    ("entry 13 is 15", "practice12", 28, &[(26, 15)]),
    ("28 bytes", "practice12", 28, &[]),
    ("27 bytes", "practice12", 27, &[]),
    ("29 bytes", "practice12", 29, &[]),
    ("no bytes", "practice12", 0, &[]),
    ("name with a space after it", "practice12 ", 28, &[]),
    ("name with a capital letter", "Practice12", 28, &[]),
    ("empty name", "", 28, &[]),
    ("name of another set", "practice20", 28, &[]),
    ("entry 13 is 16", "practice12", 28, &[(26, 16)]),
    ("entry 0 is 16", "practice12", 28, &[(0, 16)]),
    ("entry 5 is 256", "practice12", 28, &[(10, 0), (11, 1)]),
    ("entry 9 is entry 4", "practice12", 28, &[(18, 2)]),
    (
        "entry 3 is entry 2, entry 13 is 16",
        "practice12",
        28,
        &[(6, 0), (26, 16)],
    ),
    ("g = x^2 + x", "practice12", 28, &[(0, 0)]),
    (
        "g = x^2 + x, entry 13 is entry 12",
        "practice12",
        28,
        &[(0, 0), (26, 10)],
    ),
];

// A set, its t, and the entries that are made too large and made a copy of the one before.
#[derive(Clone, Copy)]
pub(crate) struct Published {
    pub(crate) name: &'static str,
    pub(crate) t: usize,
    pub(crate) large: usize,
    pub(crate) copied: usize,
}

pub(crate) const KEYS: [Published; 5] = [
    Published {
        name: "mceliece348864",
        t: 64,
        large: 0,
        copied: 65,
    },
    Published {
        name: "mceliece460896",
        t: 96,
        large: 95,
        copied: 4703,
    },
    Published {
        name: "mceliece6688128",
        t: 128,
        large: 128,
        copied: 1000,
    },
    Published {
        name: "mceliece6960119",
        t: 119,
        large: 5000,
        copied: 7078,
    },
    Published {
        name: "mceliece8192128",
        t: 128,
        large: 8319,
        copied: 129,
    },
];
