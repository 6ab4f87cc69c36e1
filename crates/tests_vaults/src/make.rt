// A vault's model, filled from a seed.
use crate::holes::draw_holes;
use tests_plain::bytes::{get, least, less, next, pick, plus, put, put_4};
use tests_plain::model::{
    chunk_at, chunk_size, chunks, file_at, files, keyword_at, keyword_size, keywords, mark_at,
    partial_at, put_size, set_at,
};
use tests_plain::records::{bit, is_inner};

// ---- from a seed

// Bytes at the borders of the accented capitals, in three alphabets of six: pairs that compare alike and pairs that seem to.
const ACCENTED: [u8; 18] =
    *b"\xC0\xE0\xBF\xDF\xD7\xF7\xDE\xFE\xDF\xFF\xC9\xE9\xD6\xF6\xD8\xF8\xD7\xF7";

// The n-th letter of an alphabet: two letters; one letter; the bytes at the fold's borders; four letters; three of accented ones.
fn letter(alphabet: usize, n: usize) -> u8 {
    if alphabet == 0 {
        return get(b"AB", n % 2);
    }
    if alphabet == 1 {
        return get(b"A", 0);
    }
    if alphabet == 2 {
        return get(b"@AZ[`az{", n % 8);
    }
    if alphabet == 3 {
        return get(b"aABb", n % 4);
    }
    get(&ACCENTED, plus(6 * (alphabet % 3), n % 6))
}

// Fills n bytes with letters.
pub(crate) fn spell(m: &mut [u8], at: usize, n: usize, alphabet: usize, seed: u64) -> u64 {
    let mut s = seed;
    for i in 0..n {
        s = next(s);
        put(m, plus(at, i), letter(alphabet, pick(s, 64)));
    }
    s
}

// The first of four kinds of vaults of small chunks.
pub(crate) const SMALL: usize = 8;

// A keyword's length: 1 to 4; in some vaults 1 or 2, 2 only, 31 or 32, 3 to 5, or its number and one.
fn keyword_length(kind: usize, k: usize, seed: u64) -> usize {
    if kind % 6 == 1 {
        return k % 16 + 1;
    }
    if kind == 2 {
        return plus(pick(seed, 2), 1);
    }
    if kind == 3 {
        return less(32, pick(seed, 2));
    }
    if kind == 4 {
        return k % 3 + 3;
    }
    if kind == 5 {
        return 2;
    }
    plus(pick(seed, 4), 1)
}

pub(crate) fn make_keywords(
    m: &mut [u8],
    n: usize,
    kind: usize,
    alphabet: usize,
    seed: u64,
) -> u64 {
    let mut s = seed;
    for k in 0..n {
        s = next(s);
        let size = keyword_length(kind, k, s);
        put(m, keyword_at(k), (size % 256) as u8);
        s = spell(m, plus(keyword_at(k), 1), size, alphabet, s);
    }
    s
}

// A chunk's length: 1 to 40; in some vaults 1 to 3, or one long chunk of 253 to 257 bytes; from kind SMALL on, 1 to at most 4.
fn chunk_length(kind: usize, c: usize, seed: u64) -> usize {
    if SMALL <= kind {
        return plus(pick(seed, plus(less(kind, SMALL), 1)), 1);
    }
    if kind == 5 {
        return plus(pick(seed, 3), 1);
    }
    if kind == 7 {
        if c == 0 {
            return plus(253, pick(seed, 5));
        }
    }
    plus(pick(seed, 40), 1)
}

pub(crate) fn make_chunks(m: &mut [u8], n: usize, kind: usize, alphabet: usize, seed: u64) -> u64 {
    let mut s = seed;
    for c in 0..n {
        s = next(s);
        let size = chunk_length(kind, c, s);
        put_size(m, c, size);
        s = spell(m, chunk_at(c), size, alphabet, s);
    }
    s
}

// The chunk numbers of a file.
pub(crate) fn make_file(m: &mut [u8], f: usize, n: usize, chunks: usize, seed: u64) -> u64 {
    put(m, file_at(f), (n % 256) as u8);
    let mut s = seed;
    for i in 0..n {
        s = next(s);
        put(
            m,
            plus(file_at(f), plus(i, 1)),
            (pick(s, chunks) % 256) as u8,
        );
    }
    s
}

// Files of less than `most` chunks, some of them empty.
fn make_files(m: &mut [u8], n: usize, most: usize, chunks: usize, seed: u64) -> u64 {
    let mut s = seed;
    for f in 0..n {
        s = next(s);
        s = make_file(m, f, pick(s, most), chunks, s);
    }
    s
}

// A file has at most 9 chunks, at most 3 where one is long, and none where there is none to name.
fn most_of(kind: usize, chunks: usize) -> usize {
    if chunks == 0 {
        return 1;
    }
    if kind == 7 { 4 } else { 10 }
}

// How many chunks the files name: in some vaults one more than the store has.
fn named(n: usize, chunks: usize) -> usize {
    if n % 13 == 5 {
        return plus(chunks, 1);
    }
    chunks
}

fn alphabet_of(kind: usize, seed: u64) -> usize {
    if kind % 6 == 1 {
        return 1;
    }
    if kind == 2 {
        return get(b"\x02\x04\x05\x06", pick(seed, 4)) as usize;
    }
    if kind == 4 {
        return 3;
    }
    3 * (pick(seed, 2) % 2)
}

// The four counts; the seed behind.
fn make_counts(m: &mut [u8], kind: usize, seed: u64) -> u64 {
    let a = next(seed);
    let b = next(a);
    let c = next(b);
    let d = next(c);
    let n = if kind == 4 { 16 } else { plus(pick(a, 4), 1) };
    put(m, 0, (n % 256) as u8);
    put(m, 1, (pick(b, 2) % 256) as u8);
    put(m, 2, (pick(c, 9) % 256) as u8);
    put(m, 3, (pick(d, 6) % 256) as u8);
    d
}

// Counts, keywords, chunks, files, of one of eight kinds; the seed behind.
fn make_model(m: &mut [u8], n: usize) -> u64 {
    let kind = n % 8;
    let a = make_counts(m, kind, next(next((n % 1000000) as u64 + 1)));
    let alphabet = alphabet_of(kind, next(a));
    let b = make_keywords(m, keywords(m), kind, alphabet, a);
    let c = make_chunks(m, chunks(m), kind, alphabet, b);
    make_files(
        m,
        files(m),
        most_of(kind, chunks(m)),
        named(n, chunks(m)),
        c,
    )
}

// Vault number n.
pub fn make(m: &mut [u8], n: usize) {
    let seed = make_model(m, n);
    draw_holes(m, next(seed));
}

// ---- made-up records

// What may be there is so in `often` of 4 cases, always where `often` is 4.
fn is_often(may: bool, often: usize, seed: u64) -> bool {
    if may {
        return pick(seed, 4) < often;
    }
    false
}

fn invent_marks(
    m: &mut [u8],
    c: usize,
    k: usize,
    n: usize,
    size: usize,
    often: usize,
    seed: u64,
) -> u64 {
    let mut s = seed;
    for p in 0..size {
        s = next(s);
        let there = is_often(plus(p, n) <= size, often, s);
        put(m, mark_at(c, k, p), there as u8);
    }
    s
}

// Inner starts in range, each in `often` of 4 cases, always where `often` is 4.
fn invent_set(m: &[u8], c: usize, k: usize, often: usize, seed: u64) -> usize {
    let n: usize = 32;
    let mut set: usize = 0;
    let mut s = seed;
    for p in 0..n {
        s = next(s);
        set = plus(set, bit(p, is_often(is_inner(m, c, k, p), often, s)));
    }
    set
}

// A record in range: no chunk need give it.
fn invent_record(m: &mut [u8], c: usize, k: usize, seed: u64) -> u64 {
    let n = keyword_size(m, k);
    let size = chunk_size(m, c);
    let a = next(seed);
    let b = next(a);
    let reach = plus(least(less(n, 1), size), 1);
    put(m, partial_at(c, k), (pick(a, reach) % 256) as u8);
    put(m, plus(partial_at(c, k), 1), (pick(b, reach) % 256) as u8);
    let set = invent_set(m, c, k, pick(next(next(b)), 5), next(a));
    put_4(m, set_at(c, k), set);
    invent_marks(m, c, k, n, size, pick(next(b), 5), b)
}

fn invent_chunk(m: &mut [u8], c: usize, n: usize, seed: u64) -> u64 {
    let mut s = seed;
    for k in 0..n {
        s = invent_record(m, c, k, s);
    }
    s
}

// Records for every chunk and keyword, number i.
pub fn invent(m: &mut [u8], i: usize) {
    let n = chunks(m);
    let words = keywords(m);
    let mut s = (i % 1000000) as u64 + 77;
    for c in 0..n {
        s = invent_chunk(m, c, words, s);
    }
}
