// The holes of a store: their lengths, and what fills them: a keyword's bytes over and over, turned so that they make the keyword whole together
// with the last bytes of the chunk before, or with the first ones of the chunk behind. A scan that read a hole would find what is not there.
use tests_plain::bytes::{get, less, next, num, pick, plus, put};
use tests_plain::case::STORE;
use tests_plain::model::{
    HOLE_SHIFT, chunks, hole_at, hole_size, keyword_at, keyword_size, keywords, partial_at,
};

// ---- lengths

// Every hole is there.
pub(crate) const EVERYWHERE: usize = 7;

// Whether hole c of n chunks is there, by three bits: for the one before the first chunk, those between chunks, the one behind the last.
fn is_there(bits: usize, c: usize, n: usize) -> bool {
    if c == n {
        return 4 <= bits % 8;
    }
    if c == 0 {
        return bits % 2 == 1;
    }
    2 <= bits % 4
}

// The length of hole c: 1 to 32, and 0 where it is not there.
pub fn hole_length(bits: usize, c: usize, n: usize, seed: u64) -> usize {
    if is_there(bits, c, n) {
        return plus(pick(seed, 32), 1);
    }
    0
}

// Hole c: its length, its keyword, and 1 where its end goes with the chunk behind it.
fn make_hole(m: &mut [u8], c: usize, size: usize, seed: u64) {
    let k = pick(next(seed), keywords(m));
    put(m, hole_at(c), (size % 256) as u8);
    put(m, plus(hole_at(c), 1), (k % 256) as u8);
    put(m, plus(hole_at(c), 2), (pick(seed, 64) / 32 % 2) as u8);
}

// The holes of a model.
pub fn make_holes(m: &mut [u8], bits: usize, seed: u64) {
    let n = chunks(m);
    let all = plus(n, 1);
    let mut s = seed;
    for c in 0..all {
        s = next(s);
        make_hole(m, c, hole_length(bits, c, n, s), s);
    }
}

// The same, each kind of hole there or not.
pub fn draw_holes(m: &mut [u8], seed: u64) {
    make_holes(m, pick(seed, 8), seed);
}

// ---- what fills them

fn goes_with_next(m: &[u8], c: usize) -> bool {
    if c == 0 {
        return true;
    }
    if chunks(m) <= c {
        return false;
    }
    get(m, plus(hole_at(c), 2)) == 1
}

// The byte of keyword k that hole c starts with: the first that the record of the chunk before lacks; or, counted back from the hole's end, so
// that what the record of the chunk behind lacks ends there.
fn first_letter(m: &[u8], c: usize, k: usize, size: usize) -> usize {
    if goes_with_next(m, c) {
        let j = num(m, plus(partial_at(c, k), 1));
        return less(64 * (keyword_size(m, k) % 64), plus(size, j));
    }
    num(m, partial_at(less(c, 1), k))
}

// Byte i of keyword k, over and over.
fn letter(m: &[u8], k: usize, i: usize) -> usize {
    let n = keyword_size(m, k);
    if n == 0 {
        return 0;
    }
    num(m, plus(plus(keyword_at(k), 1), i % n))
}

fn fill_hole(out: &mut [u8], at: usize, size: usize, m: &[u8], k: usize, first: usize) {
    for i in 0..size {
        let b = plus(letter(m, k, plus(first, i)), num(m, HOLE_SHIFT));
        put(out, plus(at, i), (b % 256) as u8);
    }
}

// Hole c from an offset of the store on; the offset behind.
pub(crate) fn put_hole(out: &mut [u8], at: usize, m: &[u8], c: usize) -> usize {
    let size = hole_size(m, c);
    let k = num(m, plus(hole_at(c), 1));
    fill_hole(
        out,
        plus(STORE, at),
        size,
        m,
        k,
        first_letter(m, c, k, size),
    );
    plus(at, size)
}
