// Matrices of up to 16 by 16 bits, one to a byte, are the examples' measure.
use operator::Operator;
use operator::pair::Pair;
use operator::stored::StoredMatrix;
use refusal::Fault;
use std::process::Abort;

type Square = [[u8; 16]; 16];

// Bits from a seed.
fn drawn(seed: u32) -> Square {
    let mut m = [[0; 16]; 16];
    let mut x = seed;
    for row in m.iter_mut() {
        for entry in row.iter_mut() {
            x = x.wrapping_mul(1664525).wrapping_add(1013904223);
            *entry = u8::from(x >= 0x80000000);
        }
    }
    m
}

fn bit(v: &[u8], i: usize) -> u8 {
    v.get(i / 8).map_or(0, |byte| (byte >> (i % 8)) & 1)
}

// The first n rows, packed; what stands past column n goes into the pad bits.
fn pack(m: &Square, n: usize, rows: &mut [u8]) {
    let width = if n > 8 { 2 } else { 1 };
    for (bytes, row) in rows.chunks_exact_mut(width).zip(m) {
        for (byte, bits) in bytes.iter_mut().zip(row.chunks_exact(8)) {
            *byte = bits.iter().rev().fold(0, |byte, b| byte << 1 | b);
        }
    }
}

// a b
fn product(a: &Square, b: &Square, n: usize) -> Square {
    let mut m = [[0; 16]; 16];
    for (row, entries) in a.iter().zip(m.iter_mut()).take(n) {
        for (j, entry) in entries.iter_mut().enumerate().take(n) {
            *entry = row
                .iter()
                .zip(b)
                .take(n)
                .fold(0, |sum, (x, other)| sum ^ (x & other[j]));
        }
    }
    m
}

// Both actions on v are those of the n by n matrix m, with pad bits 0.
fn acts_as<O: Operator>(rt: &impl Abort, o: &O, m: &Square, n: usize, v: &[u8], out: &mut [u8]) {
    assert!(rt; o.size() == n);
    assert!(rt; o.column_action(v, out).is_ok());
    for (i, row) in m.iter().enumerate() {
        let sum = row
            .iter()
            .enumerate()
            .take(n)
            .fold(0, |sum, (k, x)| sum ^ (x & bit(v, k)));
        assert!(rt; bit(out, i) == if i < n { sum } else { 0 });
    }
    assert!(rt; o.row_action(v, out).is_ok());
    // By index, since a column is no slice.
    for j in 0..16 {
        let sum = m
            .iter()
            .enumerate()
            .take(n)
            .fold(0, |sum, (k, row)| sum ^ (row[j] & bit(v, k)));
        assert!(rt; bit(out, j) == if j < n { sum } else { 0 });
    }
}

#[test]
fn a_stored_matrix_acts_as_its_entries(rt: HostRuntime) {
    let m = drawn(1);
    let mut rows = [0u8; 8];
    pack(&m, 8, &mut rows);
    acts_as(
        &rt,
        &StoredMatrix::new(8, &rows),
        &m,
        8,
        &[0xb3],
        &mut [0u8; 1],
    );
}

#[test]
fn pad_bits_are_not_looked_at(rt: HostRuntime) {
    let m = drawn(2);
    let mut rows = [0u8; 30];
    pack(&m, 15, &mut rows);
    acts_as(
        &rt,
        &StoredMatrix::new(15, &rows),
        &m,
        15,
        &[0xb3, 0x9d],
        &mut [0xffu8; 2],
    );
}

#[test]
fn nested_pairs_act_as_the_product(rt: HostRuntime) {
    let a = drawn(3);
    let b = drawn(4);
    let c = drawn(5);
    let mut first = [0u8; 30];
    let mut second = [0u8; 30];
    let mut third = [0u8; 30];
    pack(&a, 15, &mut first);
    pack(&b, 15, &mut second);
    pack(&c, 15, &mut third);
    let abca = product(&product(&product(&a, &b, 15), &c, 15), &a, 15);
    let lent = StoredMatrix::new(15, &first);
    let inner = Pair {
        first: StoredMatrix::new(15, &second),
        second: StoredMatrix::new(15, &third),
    };
    let nested = Pair {
        first: Pair {
            first: &lent,
            second: inner,
        },
        second: &lent,
    };
    acts_as(&rt, &nested, &abca, 15, &[0x6a, 0xf1], &mut [0u8; 2]);
}

// The number and the place of a refusal.
fn told<F: Fault>(answer: Result<(), F>) -> Result<(), (u8, u16)> {
    answer.map_err(|fault| (fault.number(), fault.place()))
}

#[test]
fn making_is_refused_by_size_memory_and_differing_sizes(rt: HostRuntime) {
    assert_eq!(rt; told(StoredMatrix::check(0, &[])), Err((6, 0)));
    assert_eq!(rt; told(StoredMatrix::check(1665, &[])), Err((6, 1665)));
    assert_eq!(rt; told(StoredMatrix::check(70000, &[])), Err((6, 65535)));
    assert_eq!(rt; told(StoredMatrix::check(9, &[0u8; 9])), Err((7, 9)));
    assert_eq!(rt; told(StoredMatrix::check(9, &[0u8; 18])), Ok(()));
    let small = StoredMatrix::new(1, &[1]);
    let large = StoredMatrix::new(9, &[0u8; 18]);
    assert_eq!(rt; told(Pair::check(&small, &large)), Err((9, 9)));
    assert_eq!(rt; told(Pair::check(&large, &small)), Err((9, 1)));
}

#[test]
fn what_is_made_of_refused_values_is_zero(rt: HostRuntime) {
    let mut out = [0xffu8; 1];
    let none = StoredMatrix::new(9, &[0xffu8; 9]);
    assert_eq!(rt; none.size(), 1);
    assert_eq!(rt; told(none.column_action(&[1], &mut out)), Ok(()));
    assert_eq!(rt; out[0], 0);
    out[0] = 0xff;
    let pair = Pair {
        first: StoredMatrix::new(1, &[1]),
        second: StoredMatrix::new(8, &[0xffu8; 8]),
    };
    assert_eq!(rt; pair.size(), 1);
    assert_eq!(rt; told(pair.row_action(&[1], &mut out)), Ok(()));
    assert_eq!(rt; out[0], 0);
}

#[test]
fn acting_is_refused_by_the_vector_then_by_the_result(rt: HostRuntime) {
    let m = StoredMatrix::new(9, &[0xffu8; 18]);
    let mut out = [0x5au8; 3];
    assert_eq!(rt; told(m.column_action(&[1], &mut out)), Err((8, 1)));
    assert_eq!(rt; told(m.row_action(&[1, 0], &mut out)), Err((8, 3)));
    assert_eq!(rt; out, [0x5a, 0x5a, 0x5a]);
}
