// Comparison and match records, plainly computed.
use crate::bytes::{get, get_4, least, less, plus, put, put_4};
use crate::model::{
    chunk_at, chunk_size, chunks, flag, is_long, keyword_at, keyword_size, keywords, mark_at,
    partial_at, set_at,
};

// The letters of Latin-1 that have a small one 20 (hexadecimal) higher, by rows of 16: bit i for the i-th of the row.
fn capitals(row: u8) -> usize {
    if row == 0x4 {
        return 0xFFFE;
    }
    if row == 0x5 {
        return 0x07FF;
    }
    if row == 0xC {
        return 0xFFFF;
    }
    if row == 0xD {
        return 0x7F7F;
    }
    0
}

pub(crate) fn folded(flag: usize, b: u8) -> u8 {
    if flag == 1 {
        if capitals(b / 16) >> (b % 16) as u32 & 1 == 1 {
            return (plus(b as usize, 0x20) % 256) as u8;
        }
    }
    b
}

// n bytes of a from `at` on compare alike with those of b from `bt` on.
pub fn alike(flag: usize, a: &[u8], at: usize, b: &[u8], bt: usize, n: usize) -> bool {
    for i in 0..n {
        if folded(flag, get(a, plus(at, i))) != folded(flag, get(b, plus(bt, i))) {
            return false;
        }
    }
    true
}

fn two_alike(m: &[u8], j: usize, k: usize) -> bool {
    if keyword_size(m, j) != keyword_size(m, k) {
        return false;
    }
    alike(
        flag(m),
        m,
        plus(keyword_at(j), 1),
        m,
        plus(keyword_at(k), 1),
        keyword_size(m, k),
    )
}

fn alike_before(m: &[u8], k: usize) -> bool {
    for j in 0..k {
        if two_alike(m, j, k) {
            return true;
        }
    }
    false
}

// Some two keywords compare alike.
pub(crate) fn any_alike(m: &[u8]) -> bool {
    let n = keywords(m);
    for k in 0..n {
        if alike_before(m, k) {
            return true;
        }
    }
    false
}

// Keyword k stands at an offset of the `size` bytes of the text from `base` on.
pub fn stands(m: &[u8], k: usize, text: &[u8], base: usize, size: usize, at: usize) -> bool {
    let n = keyword_size(m, k);
    if size < plus(at, n) {
        return false;
    }
    alike(flag(m), m, plus(keyword_at(k), 1), text, plus(base, at), n)
}

// ---- records

fn prefix(m: &[u8], c: usize, k: usize) -> usize {
    let size = chunk_size(m, c);
    let reach = least(less(keyword_size(m, k), 1), size);
    let mut best: usize = 0;
    for i in 0..reach {
        let j = plus(i, 1);
        if alike(
            flag(m),
            m,
            plus(keyword_at(k), 1),
            m,
            plus(chunk_at(c), less(size, j)),
            j,
        ) {
            best = j;
        }
    }
    best
}

fn suffix(m: &[u8], c: usize, k: usize) -> usize {
    let n = keyword_size(m, k);
    let reach = least(less(n, 1), chunk_size(m, c));
    let mut best: usize = 0;
    for i in 0..reach {
        let j = plus(i, 1);
        if alike(
            flag(m),
            m,
            plus(keyword_at(k), plus(less(n, j), 1)),
            m,
            chunk_at(c),
            j,
        ) {
            best = j;
        }
    }
    best
}

// The marks of a chunk of `size` bytes. Those of a long one are not read.
fn mark(m: &mut [u8], c: usize, k: usize, size: usize) {
    for p in 0..size {
        let b = stands(m, k, m, chunk_at(c), size, p) as u8;
        put(m, mark_at(c, k, p), b);
    }
}

// An offset is recorded for chunk c and keyword k: by its mark, and in a long chunk where the keyword stands.
pub fn is_marked(m: &[u8], c: usize, k: usize, p: usize) -> bool {
    if is_long(m, c) {
        return stands(m, k, m, chunk_at(c), chunk_size(m, c), p);
    }
    get(m, mark_at(c, k, p)) == 1
}

// How many of the first `size` offsets are recorded.
pub fn count_of(m: &[u8], c: usize, k: usize, size: usize) -> usize {
    let mut n: usize = 0;
    for p in 0..size {
        n = plus(n, is_marked(m, c, k, p) as usize);
    }
    n
}

// ---- inner starts

// Chunk c can lie inside keyword k with the bytes from p on: there are bytes of the keyword before it and behind it.
pub fn is_inner(m: &[u8], c: usize, k: usize, p: usize) -> bool {
    if p == 0 {
        return false;
    }
    plus(p, chunk_size(m, c)) < keyword_size(m, k)
}

// Its bytes are the keyword's from p on.
fn lies_inside(m: &[u8], c: usize, k: usize, p: usize) -> bool {
    if is_inner(m, c, k, p) {
        return alike(
            flag(m),
            m,
            plus(plus(keyword_at(k), 1), p),
            m,
            chunk_at(c),
            chunk_size(m, c),
        );
    }
    false
}

// What start p adds to a set, if it is there.
pub fn bit(p: usize, there: bool) -> usize {
    if there {
        return 1 << (p % 32) as u32;
    }
    0
}

// The set recorded for chunk c and keyword k, and whether it has start p.
pub fn set_of(m: &[u8], c: usize, k: usize) -> usize {
    get_4(m, set_at(c, k))
}

pub fn has_start(m: &[u8], c: usize, k: usize, p: usize) -> bool {
    set_of(m, c, k) >> (p % 32) as u32 & 1 == 1
}

fn inner_set(m: &[u8], c: usize, k: usize) -> usize {
    let n: usize = 32;
    let mut set: usize = 0;
    for p in 0..n {
        set = plus(set, bit(p, lies_inside(m, c, k, p)));
    }
    set
}

// ---- all of them

// The record of chunk c and keyword k.
fn note(m: &mut [u8], c: usize, k: usize) {
    let i = prefix(m, c, k);
    let j = suffix(m, c, k);
    put(m, partial_at(c, k), (i % 256) as u8);
    put(m, plus(partial_at(c, k), 1), (j % 256) as u8);
    let set = inner_set(m, c, k);
    put_4(m, set_at(c, k), set);
    mark(m, c, k, least(chunk_size(m, c), 320));
}

fn note_chunk(m: &mut [u8], c: usize, n: usize) {
    for k in 0..n {
        note(m, c, k);
    }
}

// The records of every chunk and keyword.
pub fn note_all(m: &mut [u8]) {
    let n = chunks(m);
    let words = keywords(m);
    for c in 0..n {
        note_chunk(m, c, words);
    }
}
