// The model written as a case: the inputs in document 01's formats, the index under a mark. Functions that write one thing after the other
// return the place behind.
use crate::holes::put_hole;
use tests_plain::bytes::{copy, less, num, plus, put, put_2, put_3, put_4};
use tests_plain::case::{LIST, RECIPES, STORE, index_at, put_length, store_entry};
use tests_plain::codes::{alike_code, recipes_code};
use tests_plain::forms::{OLD, SETS};
use tests_plain::model::{
    chunk_at, chunk_of, chunk_size, chunks, file_size, files, flag, keyword_at, keyword_size,
    keywords, partial_at,
};
use tests_plain::records::{count_of, is_marked, set_of};

// The keyword list, from `at` on; the place behind it.
fn put_list_at(out: &mut [u8], at: usize, m: &[u8]) -> usize {
    put(out, at, (keywords(m) % 256) as u8);
    put(out, plus(at, 1), (flag(m) % 256) as u8);
    put_keywords(out, plus(at, 2), m, keywords(m))
}

fn put_keywords(out: &mut [u8], start: usize, m: &[u8], n: usize) -> usize {
    let mut at = start;
    for k in 0..n {
        let size = plus(keyword_size(m, k), 1);
        copy(out, at, m, keyword_at(k), size);
        at = plus(at, size);
    }
    at
}

fn put_list(out: &mut [u8], m: &[u8]) {
    let end = put_list_at(out, LIST, m);
    put_length(out, 0, end);
}

// The fingerprint of chunk c: 20 bytes that differ between chunks in the first or the last byte only.
pub fn put_key(out: &mut [u8], at: usize, c: usize) {
    copy(out, at, b"01234567890123456789", 0, 20);
    put(out, at, (c % 2) as u8);
    put(out, plus(at, 19), (c / 2 % 256) as u8);
}

// The 8 bytes that a store (0x56, 1) and an index (0x4D and the number of its mark) start with.
pub fn put_mark(out: &mut [u8], at: usize, a: u8, number: usize, n: usize) {
    copy(out, at, b"D..\n", 0, 4);
    put(out, plus(at, 1), a);
    put(out, plus(at, 2), (0x30 + number % 10) as u8);
    put_4(out, plus(at, 4), n);
}

// The store, with its holes.
pub(crate) fn put_store(out: &mut [u8], m: &[u8]) {
    put_mark(out, STORE, 0x56, 1, chunks(m));
    let last = put_chunks(out, m, chunks(m));
    let end = put_hole(out, last, m, chunks(m));
    put_length(out, 1, plus(STORE, end));
}

// Entries and chunks, a hole before each; the offset behind the last chunk.
fn put_chunks(out: &mut [u8], m: &[u8], n: usize) -> usize {
    let mut at = 8 + 28 * (n % 16);
    for c in 0..n {
        let start = put_hole(out, at, m, c);
        at = put_chunk(out, start, m, c, chunk_size(m, c));
    }
    at
}

fn put_chunk(out: &mut [u8], at: usize, m: &[u8], c: usize, size: usize) -> usize {
    let entry = store_entry(c);
    put_key(out, entry, c);
    put_4(out, plus(entry, 20), at);
    put_4(out, plus(entry, 24), size);
    copy(out, plus(STORE, at), m, chunk_at(c), size);
    plus(at, size)
}

// ---- records

// An offset in a chunk, or the exact count, under a mark.
fn put_field(out: &mut [u8], at: usize, form: usize, v: usize) -> usize {
    if form == OLD {
        put_2(out, at, v);
        return plus(at, 2);
    }
    put_3(out, at, v);
    plus(at, 3)
}

fn put_offset(out: &mut [u8], at: usize, form: usize, p: usize, marked: bool) -> usize {
    if !marked {
        return at;
    }
    put_field(out, at, form, p)
}

fn put_offsets(
    out: &mut [u8],
    at: usize,
    form: usize,
    m: &[u8],
    c: usize,
    k: usize,
    size: usize,
) -> usize {
    let mut a = at;
    for p in 0..size {
        a = put_offset(out, a, form, p, is_marked(m, c, k, p));
    }
    a
}

fn first_of(m: &[u8], c: usize, k: usize, size: usize) -> usize {
    for p in 0..size {
        if is_marked(m, c, k, p) {
            return p;
        }
    }
    0
}

// A tiny record, or nothing for an empty one.
fn put_tiny(out: &mut [u8], at: usize, k: usize, i: usize, j: usize) -> usize {
    if i == 0 {
        if j == 0 {
            return at;
        }
    }
    put_2(out, at, k % 16);
    put(out, plus(at, 2), ((i % 4 + 2 * (j % 4)) % 256) as u8);
    plus(at, 3)
}

// What a full record starts with: keyword, kind, prefix, suffix, count, first offset.
fn put_head(
    out: &mut [u8],
    at: usize,
    form: usize,
    k: usize,
    kind: usize,
    m: &[u8],
    c: usize,
    n: usize,
    first: usize,
) -> usize {
    put_2(out, at, k % 16 + kind % 4 * 256);
    copy(out, plus(at, 2), m, partial_at(c, k), 2);
    put(out, plus(at, 4), (n % 256) as u8);
    put_field(out, plus(at, 5), form, first)
}

fn put_full(
    out: &mut [u8],
    at: usize,
    form: usize,
    m: &[u8],
    c: usize,
    k: usize,
    size: usize,
    n: usize,
) -> usize {
    let first = first_of(m, c, k, size);
    if n < 2 {
        return put_head(out, at, form, k, 1, m, c, n, first);
    }
    if n < 255 {
        let a = put_head(out, at, form, k, 2, m, c, n, first);
        return put_offsets(out, a, form, m, c, k, size);
    }
    let b = put_head(out, at, form, k, 3, m, c, 255, first);
    let d = put_field(out, b, form, n);
    put_offsets(out, d, form, m, c, k, size)
}

// One record, if it is not empty.
fn put_record(
    out: &mut [u8],
    at: usize,
    form: usize,
    m: &[u8],
    c: usize,
    k: usize,
    size: usize,
) -> usize {
    let i = num(m, partial_at(c, k));
    let j = num(m, plus(partial_at(c, k), 1));
    let n = count_of(m, c, k, size);
    if n == 0 {
        if i <= 1 {
            if j <= 1 {
                return put_tiny(out, at, k, i, j);
            }
        }
    }
    put_full(out, at, form, m, c, k, size, n)
}

// A set of inner starts, if it is not empty and the mark is one with sets.
fn put_set(out: &mut [u8], at: usize, form: usize, k: usize, set: usize) -> usize {
    if form < SETS {
        return at;
    }
    if set == 0 {
        return at;
    }
    put_2(out, at, k % 16 + 4 * 256);
    put_4(out, plus(at, 2), set);
    plus(at, 6)
}

fn put_body(out: &mut [u8], at: usize, form: usize, m: &[u8], c: usize, n: usize) -> usize {
    let size = chunk_size(m, c);
    let mut a = at;
    for k in 0..n {
        let b = put_record(out, a, form, m, c, k, size);
        a = put_set(out, b, form, k, set_of(m, c, k));
    }
    a
}

fn put_entry(out: &mut [u8], entry: usize, c: usize, size: usize, at: usize, end: usize) {
    let offset = less(at, index_at(out));
    put_key(out, entry, c);
    put_4(out, plus(entry, 20), size);
    put_4(out, plus(entry, 24), offset);
    put_4(out, plus(entry, 28), less(end, at));
}

// Entries from `start` on and bodies behind them; the place behind the last body.
fn put_bodies(
    out: &mut [u8],
    start: usize,
    form: usize,
    m: &[u8],
    n: usize,
    words: usize,
) -> usize {
    let mut at = plus(start, 32 * (n % 16));
    for c in 0..n {
        let end = put_body(out, at, form, m, c, words);
        put_entry(
            out,
            plus(start, 32 * (c % 16)),
            c,
            chunk_size(m, c),
            at,
            end,
        );
        at = end;
    }
    at
}

// The index under a mark.
pub fn put_index(out: &mut [u8], form: usize, m: &[u8]) {
    let at = index_at(out);
    put_mark(out, at, 0x4D, form, chunks(m));
    let start = put_list_at(out, plus(at, 8), m);
    let end = put_bodies(out, start, form, m, chunks(m), keywords(m));
    put_length(out, 2, end);
}

// ---- recipes

fn put_file(out: &mut [u8], at: usize, m: &[u8], f: usize) -> usize {
    let n = file_size(m, f);
    put_4(out, at, n);
    let mut a = plus(at, 4);
    for i in 0..n {
        put_key(out, a, chunk_of(m, f, i));
        a = plus(a, 20);
    }
    a
}

fn put_files(out: &mut [u8], start: usize, m: &[u8], n: usize) -> usize {
    let mut at = start;
    for f in 0..n {
        at = put_file(out, at, m, f);
    }
    at
}

fn put_recipes(out: &mut [u8], m: &[u8]) {
    put_4(out, RECIPES, files(m));
    let end = put_files(out, RECIPES + 4, m, files(m));
    put_length(out, 3, end);
}

// The case of a model: the four inputs, the index under a mark, and the number that each gives by itself.
pub fn encode(out: &mut [u8], form: usize, m: &[u8]) {
    put_list(out, m);
    put_store(out, m);
    put_index(out, form, m);
    put_recipes(out, m);
    put_codes(out, alike_code(m), recipes_code(m, form));
}

fn put_codes(out: &mut [u8], list: u8, recipes: u8) {
    put(out, 0, list);
    put(out, 1, 0);
    put(out, 2, list);
    put(out, 3, recipes);
}
