// The table of the parameter sets.
use crate::numbers::{Numbers, Term};

// The reducing polynomials f(z): z^4 + z + 1, z^5 + z^2 + 1, z^12 + z^3 + 1 and
// z^13 + z^4 + z^3 + z + 1.
const REDUCER_4: u16 = 0b1_0011;

const REDUCER_5: u16 = 0b10_0101;

const REDUCER_12: u16 = 0b1_0000_0000_1001;

const REDUCER_13: u16 = 0b10_0000_0001_1011;

// The terms of the polynomials F(y): none, the constants 1, z and z^3, and powers of y.
// Each is a constant of its own: the value of a constant, as the table is, may call no function.
const NONE: Term = Term {
    power: 0,
    coefficient: 0,
};

const ONE: Term = Term {
    power: 0,
    coefficient: 1,
};

const Z: Term = Term {
    power: 0,
    coefficient: 2,
};

const Z3: Term = Term {
    power: 0,
    coefficient: 8,
};

const Y1: Term = Term {
    power: 1,
    coefficient: 1,
};

const Y2: Term = Term {
    power: 2,
    coefficient: 1,
};

const Y3: Term = Term {
    power: 3,
    coefficient: 1,
};

const Y6: Term = Term {
    power: 6,
    coefficient: 1,
};

const Y7: Term = Term {
    power: 7,
    coefficient: 1,
};

const Y8: Term = Term {
    power: 8,
    coefficient: 1,
};

const Y9: Term = Term {
    power: 9,
    coefficient: 1,
};

const Y10: Term = Term {
    power: 10,
    coefficient: 1,
};

// m, f, t, n, and F(y) less y^t
pub(crate) const SETS: [Numbers; 7] = [
    // practice12: y^2 + y + z^3
    Numbers {
        m: 4,
        f: REDUCER_4,
        t: 2,
        n: 12,
        terms: [Y1, Z3, NONE, NONE],
    },
    // practice20: y^3 + y + 1
    Numbers {
        m: 5,
        f: REDUCER_5,
        t: 3,
        n: 20,
        terms: [Y1, ONE, NONE, NONE],
    },
    // mceliece348864: y^64 + y^3 + y + z
    Numbers {
        m: 12,
        f: REDUCER_12,
        t: 64,
        n: 3488,
        terms: [Y3, Y1, Z, NONE],
    },
    // mceliece460896: y^96 + y^10 + y^9 + y^6 + 1
    Numbers {
        m: 13,
        f: REDUCER_13,
        t: 96,
        n: 4608,
        terms: [Y10, Y9, Y6, ONE],
    },
    // mceliece6688128: y^128 + y^7 + y^2 + y + 1
    Numbers {
        m: 13,
        f: REDUCER_13,
        t: 128,
        n: 6688,
        terms: [Y7, Y2, Y1, ONE],
    },
    // mceliece6960119: y^119 + y^8 + 1
    Numbers {
        m: 13,
        f: REDUCER_13,
        t: 119,
        n: 6960,
        terms: [Y8, ONE, NONE, NONE],
    },
    // mceliece8192128: y^128 + y^7 + y^2 + y + 1
    Numbers {
        m: 13,
        f: REDUCER_13,
        t: 128,
        n: 8192,
        terms: [Y7, Y2, Y1, ONE],
    },
];
