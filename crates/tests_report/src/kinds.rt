// The kinds of a case, by what is found in its model and its list, whatever it was made for.
use crate::tally::{KINDS, saw};
use crate::{holes, lanes, sets, wide};
use tests_plain::bytes::{get, get_4, less, num, plus, same};
use tests_plain::case;
use tests_plain::case::row_at;
use tests_plain::model::{
    chunk_at, chunk_of, chunk_size, chunks, file_size, files, flag, keyword_at, keyword_size,
    keywords,
};
use tests_plain::records::{alike, count_of, stands};

pub(crate) const ALL: usize = 30;

// Those of cases with long chunks have numbers from here on.
pub(crate) const LANES: usize = 64;

pub(crate) const ALL_LANES: usize = 17;

// Those of cases with a chunk longer than a window, or nearly so long.
pub(crate) const WIDE: usize = 96;

pub(crate) const ALL_WIDE: usize = 13;

// Those by the holes of the store; the last is of stores without chunks.
pub(crate) const HOLES: usize = 112;

pub(crate) const ALL_HOLES: usize = 7;

pub(crate) const CHUNK_HOLES: usize = 6;

// Those of cases of small chunks.
pub(crate) const SETS: usize = 184;

pub(crate) const ALL_SETS: usize = 21;

// For each kind, how many witnesses there are to try, in units of 64.
const WITNESSES: [u8; 30] = [
    1, 1, 1, 57, 1, 1, 1, 1, 8, 128, 1, 1, 60, 60, 1, 1, 3, 3, 3, 3, 3, 112, 112, 112, 60, 60, 60,
    60, 4, 24,
];

const LANE_WITNESSES: [u8; 17] = [1, 1, 1, 1, 1, 1, 1, 64, 2, 2, 8, 4, 4, 1, 1, 1, 1];

const WIDE_WITNESSES: [u8; 13] = [1, 1, 1, 1, 1, 16, 1, 1, 8, 1, 1, 1, 1];

const HOLE_WITNESSES: [u8; 7] = [1, 1, 1, 1, 96, 96, 1];

const SET_WITNESSES: [u8; 21] =
    *b"\x01\x01\x01\x01\x01\x01\x03\x03\x03\x03\x03\x03\x03\x03\x08\x08\x08\x08\x08\x01\x01";

// ---- files and chunks

fn is_empty_file(m: &[u8], f: usize) -> bool {
    if f < files(m) {
        return file_size(m, f) == 0;
    }
    false
}

// The chunk named at a place of a file, 100 where there is none.
fn named(m: &[u8], f: usize, i: usize) -> usize {
    if f < files(m) {
        if i < file_size(m, f) {
            return chunk_of(m, f, i);
        }
    }
    100
}

// Two places name one chunk.
fn is_repeated(m: &[u8], a: usize, b: usize) -> bool {
    if a <= b {
        return false;
    }
    let c = named(m, a / 10, a % 10);
    if c == 100 {
        return false;
    }
    named(m, b / 10, b % 10) == c
}

pub(crate) fn is_chunk_of(m: &[u8], c: usize, size: usize) -> bool {
    if c < chunks(m) {
        return chunk_size(m, c) == size;
    }
    false
}

// A chunk has at a place one of six bytes, under a fold flag.
fn is_border(m: &[u8], c: usize, p: usize, fold: usize, bytes: &[u8]) -> bool {
    if flag(m) != fold {
        return false;
    }
    if chunks(m) <= c {
        return false;
    }
    if chunk_size(m, c) <= p {
        return false;
    }
    is_one_of(get(m, plus(chunk_at(c), p)), bytes)
}

fn is_one_of(b: u8, bytes: &[u8]) -> bool {
    if get(bytes, 0) == b {
        return true;
    }
    if get(bytes, 1) == b {
        return true;
    }
    if get(bytes, 2) == b {
        return true;
    }
    if get(bytes, 3) == b {
        return true;
    }
    if get(bytes, 4) == b {
        return true;
    }
    get(bytes, 5) == b
}

// An accented keyword occurs where the chunk's first letter of it is another.
fn is_accented(m: &[u8], c: usize, k: usize, p: usize) -> bool {
    if chunks(m) <= c {
        return false;
    }
    if keywords(m) <= k {
        return false;
    }
    let first = get(m, plus(keyword_at(k), 1));
    if first < 0xC0 {
        return false;
    }
    if get(m, plus(chunk_at(c), p)) == first {
        return false;
    }
    stands(m, k, m, chunk_at(c), chunk_size(m, c), p)
}

fn has_occurrences(m: &[u8], c: usize, k: usize, n: usize) -> bool {
    if chunks(m) <= c {
        return false;
    }
    if keywords(m) <= k {
        return false;
    }
    if chunk_size(m, c) < n {
        return false;
    }
    count_of(m, c, k, chunk_size(m, c)) == n
}

// ---- keywords

pub(crate) fn is_keyword_of(m: &[u8], k: usize, size: usize) -> bool {
    if k < keywords(m) {
        return keyword_size(m, k) == size;
    }
    false
}

// Keywords j and k, j before k, are alike and begin with different accented letters.
fn is_alike_by_accent(m: &[u8], j: usize, k: usize) -> bool {
    if k <= j {
        return false;
    }
    if keywords(m) <= k {
        return false;
    }
    let first = get(m, plus(keyword_at(j), 1));
    if first < 0xC0 {
        return false;
    }
    if get(m, plus(keyword_at(k), 1)) == first {
        return false;
    }
    if keyword_size(m, j) != keyword_size(m, k) {
        return false;
    }
    stands(m, j, m, plus(keyword_at(k), 1), keyword_size(m, k), 0)
}

// A keyword's first j bytes are its last, and it is longer.
fn is_overlap(m: &[u8], k: usize, j: usize) -> bool {
    if keywords(m) <= k {
        return false;
    }
    if j == 0 {
        return false;
    }
    let n = keyword_size(m, k);
    if n <= j {
        return false;
    }
    let at = plus(keyword_at(k), 1);
    alike(flag(m), m, at, m, plus(at, less(n, j)), j)
}

// Keyword j stands in keyword k.
fn is_nested(m: &[u8], j: usize, k: usize, p: usize) -> bool {
    if keywords(m) <= j {
        return false;
    }
    if keywords(m) <= k {
        return false;
    }
    if j == k {
        return false;
    }
    stands(m, j, m, plus(keyword_at(k), 1), keyword_size(m, k), p)
}

// ---- the list

// Row r and the one behind it have one file and one offset.
fn is_tie(f: &[u8], r: usize) -> bool {
    if case::count(f) <= plus(r, 1) {
        return false;
    }
    same(f, row_at(f, r), f, row_at(f, plus(r, 1)), 8)
}

// Where the place of a file that has the byte at `offset` ends.
fn end_behind(m: &[u8], file: usize, offset: usize) -> usize {
    let n = file_size(m, file);
    let mut end: usize = 0;
    for i in 0..n {
        if end <= offset {
            end = plus(end, chunk_size(m, chunk_of(m, file, i)));
        }
    }
    end
}

fn row_end(m: &[u8], f: &[u8], r: usize) -> usize {
    end_behind(m, get_4(f, row_at(f, r)), get_4(f, plus(row_at(f, r), 4)))
}

pub(crate) fn row_keyword(f: &[u8], r: usize) -> usize {
    num(f, plus(row_at(f, r), 8))
}

// Row r is an occurrence that ends behind the chunk in which it starts.
fn is_crossing(m: &[u8], f: &[u8], r: usize) -> bool {
    if case::count(f) <= r {
        return false;
    }
    let start = get_4(f, plus(row_at(f, r), 4));
    row_end(m, f, r) < plus(start, keyword_size(m, row_keyword(f, r)))
}

// Rows r and r + 2 are occurrences of one keyword inside a chunk, and the row between them is one of another that crosses its end.
fn is_between(m: &[u8], f: &[u8], r: usize) -> bool {
    if case::count(f) <= plus(r, 2) {
        return false;
    }
    if !is_crossing(m, f, plus(r, 1)) {
        return false;
    }
    if is_crossing(m, f, r) {
        return false;
    }
    if is_crossing(m, f, plus(r, 2)) {
        return false;
    }
    is_around(m, f, r)
}

// Rows r and r + 2 have one keyword, another than the row between, and start in the chunk in which that starts.
fn is_around(m: &[u8], f: &[u8], r: usize) -> bool {
    if row_keyword(f, r) != row_keyword(f, plus(r, 2)) {
        return false;
    }
    if !same(f, row_at(f, r), f, row_at(f, plus(r, 2)), 4) {
        return false;
    }
    if row_end(m, f, r) != row_end(m, f, plus(r, 1)) {
        return false;
    }
    row_end(m, f, r) == row_end(m, f, plus(r, 2))
}

// ---- all of them

fn of_files(m: &[u8], kind: usize, t: usize) -> bool {
    if kind == 0 {
        return chunks(m) == 0;
    }
    if kind == 1 {
        return files(m) == 0;
    }
    if kind == 2 {
        return is_empty_file(m, t);
    }
    is_repeated(m, t / 60, t % 60)
}

fn of_keywords(m: &[u8], kind: usize, t: usize) -> bool {
    if kind == 4 {
        return keywords(m) == 16;
    }
    if kind == 5 {
        return is_keyword_of(m, t, 1);
    }
    if kind == 6 {
        return is_keyword_of(m, t, 2);
    }
    if kind == 7 {
        return is_keyword_of(m, t, 32);
    }
    if kind == 8 {
        return is_overlap(m, t / 32, t % 32);
    }
    is_nested(m, t / 512, t / 32 % 16, t % 32)
}

fn of_chunks(m: &[u8], kind: usize, t: usize) -> bool {
    if kind < 12 {
        return flag(m) == less(kind, 10);
    }
    if kind < 14 {
        return is_border(m, t / 320, t % 320, less(kind, 12), b"@[`{@[");
    }
    if kind == 14 {
        return is_chunk_of(m, t, 1);
    }
    if kind == 15 {
        return is_chunk_of(m, t, 40);
    }
    has_occurrences(m, t / 16, t % 16, plus(253, less(kind, 16)))
}

fn of_rows(m: &[u8], f: &[u8], kind: usize, t: usize) -> bool {
    if case::join_code(f) != 0 {
        return false;
    }
    if kind == 21 {
        return is_tie(f, t);
    }
    if kind == 22 {
        return is_crossing(m, f, t);
    }
    is_between(m, f, t)
}

// The accented capitals at the borders; the bytes beside them, and those that compare as themselves.
fn of_accents(m: &[u8], kind: usize, t: usize) -> bool {
    if kind < 26 {
        return is_border(
            m,
            t / 320,
            t % 320,
            less(kind, 24),
            b"\xC0\xD6\xD8\xDE\xC0\xD6",
        );
    }
    if kind < 28 {
        return is_border(
            m,
            t / 320,
            t % 320,
            less(kind, 26),
            b"\xBF\xD7\xDF\xF7\xFF\xBF",
        );
    }
    if kind == 28 {
        return is_alike_by_accent(m, t / 16, t % 16);
    }
    is_accented(m, t / 160, t / 40 % 4, t % 40)
}

// Whether t is a witness that the case is of the kind.
fn shows(m: &[u8], f: &[u8], kind: usize, t: usize) -> bool {
    if kind < 4 {
        return of_files(m, kind, t);
    }
    if kind < 10 {
        return of_keywords(m, kind, t);
    }
    if kind < 21 {
        return of_chunks(m, kind, t);
    }
    if kind < 24 {
        return of_rows(m, f, kind, t);
    }
    if kind < LANES {
        return of_accents(m, kind, t);
    }
    if kind < WIDE {
        return lanes::shows(m, f, less(kind, LANES), t);
    }
    if kind < HOLES {
        return wide::shows(m, f, less(kind, WIDE), t);
    }
    if kind < SETS {
        return holes::shows(m, f, less(kind, HOLES), t);
    }
    sets::shows(m, f, less(kind, SETS), t)
}

fn witnesses(kind: usize) -> usize {
    if kind < LANES {
        return 64 * (num(&WITNESSES, kind) % 256);
    }
    if kind < WIDE {
        return 64 * (num(&LANE_WITNESSES, less(kind, LANES)) % 256);
    }
    if kind < HOLES {
        return 64 * (num(&WIDE_WITNESSES, less(kind, WIDE)) % 256);
    }
    if kind < SETS {
        return 64 * (num(&HOLE_WITNESSES, less(kind, HOLES)) % 256);
    }
    64 * (num(&SET_WITNESSES, less(kind, SETS)) % 256)
}

fn is_of(m: &[u8], f: &[u8], kind: usize) -> bool {
    let n = witnesses(kind);
    for t in 0..n {
        if shows(m, f, kind, t) {
            return true;
        }
    }
    false
}

// Counts n kinds of a case.
fn see_from(counts: &mut [u64], m: &[u8], f: &[u8], first: usize, n: usize) {
    for i in 0..n {
        let kind = plus(first, i);
        saw(counts, plus(KINDS, kind), is_of(m, f, kind));
    }
}

// Counts the kinds of a case by its holes.
pub fn see_holes(counts: &mut [u64], m: &[u8], f: &[u8]) {
    see_from(counts, m, f, HOLES, ALL_HOLES);
}

// Counts the kinds of a case.
pub fn see(counts: &mut [u64], m: &[u8], f: &[u8]) {
    see_from(counts, m, f, 0, ALL);
    see_holes(counts, m, f);
}

// Counts the kinds of a case with long chunks.
pub fn see_lanes(counts: &mut [u64], m: &[u8], f: &[u8]) {
    see_from(counts, m, f, LANES, ALL_LANES);
    see_holes(counts, m, f);
}

// Counts the kinds of a case with a chunk of about a window, or longer.
pub fn see_wide(counts: &mut [u64], m: &[u8], f: &[u8]) {
    see_from(counts, m, f, WIDE, ALL_WIDE);
    see_holes(counts, m, f);
}

// Counts the kinds of a case of small chunks, and its occurrences by how many chunks they reach over.
pub fn see_sets(counts: &mut [u64], m: &[u8], f: &[u8]) {
    see_from(counts, m, f, SETS, ALL_SETS);
    sets::see_spans(counts, m, f);
}
