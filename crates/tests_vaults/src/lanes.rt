// Vaults of chunks around the lengths at which the scan's walk changes: below 256 bytes it has one lane, from there on four, one for each
// quarter, and 0 to 3 bytes behind them. Keywords stand across the quarters' borders, from their starts on and up to their ends.
use crate::holes::draw_holes;
use crate::make::{make_keywords, spell};
use crate::small::put_words;
use tests_plain::bytes::{copy, get, less, next, pick, plus, put, repeat};
use tests_plain::model::{chunk_at, file_at, keyword_at, keyword_size, keywords, put_size};

// Ten lengths, seven families of keywords, both fold flags, twice.
pub const ALL: usize = 280;

const SIZES: [u16; 10] = [255, 256, 257, 258, 259, 1022, 1023, 1024, 1025, 4099];

fn wide(n: u16) -> usize {
    n as usize
}

fn size_of(i: usize) -> usize {
    if 10 <= i {
        return 0;
    }
    wide(SIZES[i])
}

// ---- keywords

// Keyword k, of 32 bytes: As with its own letter behind, or letters from the seed behind its own.
fn put_long_word(m: &mut [u8], k: usize, periodic: bool, seed: u64) {
    let at = plus(keyword_at(k), 1);
    let own = (99 + k % 16) as u8;
    put(m, keyword_at(k), 32);
    if periodic {
        repeat(m, at, 31, b'A');
        return put(m, plus(at, 31), own);
    }
    spell(m, at, 32, 3, seed);
    put(m, at, own);
}

fn put_long_words(m: &mut [u8], n: usize, periodic: bool, seed: u64) {
    put(m, 0, (n % 256) as u8);
    let mut s = seed;
    for k in 0..n {
        s = next(s);
        put_long_word(m, k, periodic, s);
    }
}

// Six keywords of 1 to 6 of the letters A and B.
fn put_drawn_words(m: &mut [u8], seed: u64) {
    put(m, 0, 6);
    make_keywords(m, 6, 1, 0, seed);
}

// Endings of each other; periodic ones; beginnings of each other; one that goes back at each byte; drawn ones; 16 long ones of both ways.
pub fn put_family(m: &mut [u8], family: usize, seed: u64) {
    if family == 0 {
        return put_words(m, 5, b"\x05DEDUP\x04EDUP\x03DUP\x02UP\x01P");
    }
    if family == 1 {
        return put_words(m, 4, b"\x02AB\x03AAB\x05AAAAB\x09AAAAAAAAB");
    }
    if family == 2 {
        return put_words(m, 5, b"\x01A\x02AB\x03ABA\x04ABAB\x07ABABABC");
    }
    if family == 3 {
        return put_words(m, 2, b"\x04AAAA\x07AAAAAAX");
    }
    if family == 4 {
        return put_drawn_words(m, seed);
    }
    put_long_words(m, 16, family == 5, seed)
}

// ---- chunks

// A capital as a small letter, if `small`.
fn cased(b: u8, small: bool) -> u8 {
    if small {
        if 0x41 <= b {
            if b <= 0x5A {
                return b + 0x20;
            }
        }
    }
    b
}

// n bytes of the model at another place of it too, as they are or small.
pub fn put_letters(m: &mut [u8], to: usize, from: usize, n: usize, small: bool) {
    for i in 0..n {
        put(m, plus(to, i), cased(get(m, plus(from, i)), small));
    }
}

// A beginning of a keyword at an offset of chunk c, if the chunk has that offset; the offset behind.
pub fn put_piece(m: &mut [u8], c: usize, size: usize, at: usize, seed: u64) -> usize {
    if size <= at {
        return at;
    }
    let a = next(seed);
    let k = pick(seed, keywords(m));
    let n = plus(pick(a, keyword_size(m, k)), 1);
    put_letters(
        m,
        plus(chunk_at(c), at),
        plus(keyword_at(k), 1),
        n,
        pick(next(a), 4) == 0,
    );
    plus(at, n)
}

// Chunk c, of beginnings of keywords.
pub fn put_text(m: &mut [u8], c: usize, size: usize, seed: u64) -> u64 {
    put_size(m, c, size);
    let mut at: usize = 0;
    let mut s = seed;
    for i in 0..size {
        s = next(s);
        at = put_piece(m, c, size, at, s);
    }
    s
}

// A keyword at a border of chunk 0, from none of its bytes to all of them before it, if it lies in the chunk.
fn plant(m: &mut [u8], size: usize, border: usize, seed: u64) {
    let k = pick(seed, keywords(m));
    let n = keyword_size(m, k);
    let at = less(border, pick(next(seed), plus(n, 1)));
    if plus(at, n) <= size {
        put_letters(m, plus(chunk_at(0), at), plus(keyword_at(k), 1), n, false);
    }
}

// At the start of chunk 0, between its quarters and behind them.
fn plant_all(m: &mut [u8], size: usize, seed: u64) {
    let borders: usize = 5;
    let mut s = seed;
    let mut border: usize = 0;
    for q in 0..borders {
        s = next(s);
        plant(m, size, border, s);
        border = plus(border, size / 4);
    }
}

// Chunk 0 ends with a keyword's first bytes, and chunk 1 starts with the others.
pub fn cut(m: &mut [u8], size: usize, seed: u64) {
    let k = pick(seed, keywords(m));
    let n = keyword_size(m, k);
    let i = pick(next(seed), n);
    let at = plus(keyword_at(k), 1);
    put_letters(m, plus(chunk_at(0), less(size, i)), at, i, false);
    put_letters(m, chunk_at(1), plus(at, i), less(n, i), false);
}

fn put_chunks(m: &mut [u8], size: usize, next_size: usize, seed: u64) {
    put(m, 2, 2);
    let a = put_text(m, 0, size, seed);
    let b = put_text(m, 1, next_size, a);
    plant_all(m, size, b);
    cut(m, size, next(b));
}

// A file of both chunks, and an empty one.
pub fn put_files(m: &mut [u8]) {
    put(m, 3, 2);
    copy(m, file_at(0), b"\x02\x00\x01", 0, 3);
    put(m, file_at(1), 0);
}

// Vault number t.
pub fn make_long(m: &mut [u8], t: usize) {
    let seed = next(next((t % 1000000) as u64 + 9));
    put(m, 1, (t / 70 % 2) as u8);
    put_family(m, t / 10 % 7, seed);
    put_chunks(m, size_of(t % 10), 40 + t / 3 % 2 * 260, next(seed));
    put_files(m);
    draw_holes(m, next(next(next(seed))));
}
