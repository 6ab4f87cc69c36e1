// Models made into cases: with plain records, with made-up ones, with a torn store, with a pair of faults.
use crate::encode::{encode, put_key, put_store};
use crate::faults::{damage, settle};
use tests_plain::bytes::{less, next, num, pick, plus, put, put_4};
use tests_plain::case;
use tests_plain::case::ONLY_REFUSALS;
use tests_plain::codes::store_code;
use tests_plain::forms::NEW;
use tests_plain::joins::join_files;
use tests_plain::lists::search_files;
use tests_plain::model::{HOLE_SHIFT, chunks, hole_at, hole_size};
use tests_plain::records::note_all;

// The end of a case's making: its row count, and that all is to be run.
pub fn put_count(f: &mut [u8], n: usize) {
    put_4(f, case::COUNT_AT, n);
    put(f, case::ONLY_REFUSALS, 0);
}

// The case of a model with its plain records; the direct search of the restored files gives the list. `buffer` takes them.
pub fn put_scanned(f: &mut [u8], m: &mut [u8], buffer: &mut [u8]) {
    note_all(m);
    encode(f, NEW, m);
    let n = search_files(m, buffer, f);
    put_count(f, n);
}

// The case of a model with any records under a mark; the plain join gives the list.
pub fn put_joined(f: &mut [u8], form: usize, m: &[u8]) {
    encode(f, form, m);
    let n = join_files(m, form, f);
    put_count(f, n);
}

// ---- torn stores

// A byte is one more, or one less.
fn nudge(f: &mut [u8], at: usize, more: bool) {
    let b = plus(num(f, at), if more { 1 } else { 255 });
    put(f, at, (b % 256) as u8);
}

// One is changed: the length of the whole; the mark or the count; a fingerprint; a length or an offset, by one; an offset, to one of the
// largest; a length or an offset.
fn tear(f: &mut [u8], way: usize, a: u64, b: u64) {
    let end = case::place_of(f, 1, pick(a, plus(case::length_of(f, 1), 2)));
    let front = case::place_of(f, 1, pick(a, 8));
    let entry = case::store_entry(pick(a, 8));
    if way == 0 {
        return case::put_length(f, 1, end);
    }
    if way == 1 {
        return put(f, front, (pick(b, 4) % 256) as u8);
    }
    if way == 2 {
        return put_key(f, entry, pick(b, 9));
    }
    if way == 3 {
        return nudge(
            f,
            plus(entry, 20 + 4 * (pick(b, 2) % 2)),
            pick(next(b), 2) == 1,
        );
    }
    if way == 4 {
        return put_4(f, plus(entry, 20), less(4294967295, pick(b, 41)));
    }
    put(
        f,
        plus(entry, plus(20, pick(b, 8))),
        (pick(next(b), 41) % 256) as u8,
    )
}

pub fn put_torn(f: &mut [u8], seed: u64) {
    let a = next(seed);
    tear(f, pick(seed, 6), a, next(a));
    let code = store_code(case::store(f));
    put(f, 1, code);
    put(f, case::ONLY_REFUSALS, 1);
}

// ---- other holes

// The length of the hole behind the last chunk: as before, one more, none, many more.
fn other_size(way: usize, size: usize) -> usize {
    if way == 0 {
        return size;
    }
    if way == 1 {
        return plus(size, 1);
    }
    if way == 2 { 0 } else { plus(size, 200) }
}

// The store of a model becomes the case's, with other bytes in its holes and another number of bytes behind its last chunk.
pub fn put_other_holes(f: &mut [u8], m: &mut [u8], way: usize) {
    let n = chunks(m);
    let size = other_size(way, hole_size(m, n));
    put(m, HOLE_SHIFT, 128);
    put(m, hole_at(n), (size % 256) as u8);
    put_store(f, m);
}

// ---- a pair of faults

// Faults i and j in the small vault, its index under a mark; what fault i stores stays.
pub fn put_damaged(f: &mut [u8], form: usize, m: &[u8], i: usize, j: usize) {
    encode(f, form, m);
    damage(f, form, j);
    damage(f, form, i);
    put(f, ONLY_REFUSALS, 1);
}

pub fn settle_all(f: &mut [u8], form: usize, i: usize, j: usize) {
    settle(f, form, 0, 9, i, j);
    settle(f, form, 1, 100, i, j);
    settle(f, form, 2, 136, i, j);
    settle(f, form, 3, 96, i, j);
}
