// The kinds of a case of small chunks: by its records and their sets of inner starts, and by the chunks that its occurrences reach over.
use crate::kinds::{is_chunk_of, is_keyword_of, row_keyword};
use crate::tally::{SPANS, saw};
use tests_plain::bytes::{get_4, less, num, plus, same};
use tests_plain::case;
use tests_plain::case::row_at;
use tests_plain::codes::recipes_code;
use tests_plain::forms::OLD;
use tests_plain::joins::{end_of, place_at};
use tests_plain::model::{
    chunk_of, chunk_size, chunks, file_at, file_size, flag, keyword_size, keywords, partial_at,
};
use tests_plain::records::{has_start, set_of};

// ---- sets

// What stands before a set: 0 no record, 1 a tiny one, 2 a full one. A chunk with a set is shorter than the keyword.
fn record_kind(i: usize, j: usize) -> usize {
    if 2 <= i {
        return 2;
    }
    if 2 <= j {
        return 2;
    }
    if plus(i, j) == 0 { 0 } else { 1 }
}

fn kind_before(m: &[u8], c: usize, k: usize) -> usize {
    record_kind(num(m, partial_at(c, k)), num(m, plus(partial_at(c, k), 1)))
}

// The set has one start.
fn is_single(set: usize) -> bool {
    set & less(set, 1) == 0
}

fn last_start(m: &[u8], c: usize, k: usize) -> usize {
    less(keyword_size(m, k), plus(chunk_size(m, c), 1))
}

// The set of chunk c and keyword k, which is not empty, is of a kind.
fn is_set(m: &[u8], kind: usize, c: usize, k: usize) -> bool {
    if kind < 9 {
        return kind_before(m, c, k) == less(kind, 6);
    }
    if kind == 9 {
        return is_single(set_of(m, c, k));
    }
    if kind == 10 {
        return !is_single(set_of(m, c, k));
    }
    if kind == 11 {
        return has_start(m, c, k, 1);
    }
    if kind == 12 {
        return has_start(m, c, k, last_start(m, c, k));
    }
    has_start(m, c, k, 30)
}

fn of_sets(m: &[u8], kind: usize, c: usize, k: usize) -> bool {
    if chunks(m) <= c {
        return false;
    }
    if keywords(m) <= k {
        return false;
    }
    if set_of(m, c, k) == 0 {
        return false;
    }
    is_set(m, kind, c, k)
}

// ---- the list

fn file(f: &[u8], r: usize) -> usize {
    get_4(f, row_at(f, r))
}

fn start(f: &[u8], r: usize) -> usize {
    get_4(f, plus(row_at(f, r), 4))
}

fn end(m: &[u8], f: &[u8], r: usize) -> usize {
    plus(start(f, r), keyword_size(m, row_keyword(f, r)))
}

// The places of its file in which row r's occurrence starts and ends.
fn first_place(m: &[u8], f: &[u8], r: usize) -> usize {
    place_at(m, file(f, r), start(f, r))
}

fn last_place(m: &[u8], f: &[u8], r: usize) -> usize {
    place_at(m, file(f, r), less(end(m, f, r), 1))
}

// How many chunks row r's occurrence reaches over.
fn span(m: &[u8], f: &[u8], r: usize) -> usize {
    plus(less(last_place(m, f, r), first_place(m, f, r)), 1)
}

// The chunk at place i of row r's file.
fn chunk_in(m: &[u8], f: &[u8], r: usize, i: usize) -> usize {
    chunk_of(m, file(f, r), i)
}

// Row r's occurrence starts in a chunk and goes on in the same one.
fn is_repeated(m: &[u8], f: &[u8], r: usize) -> bool {
    let i = first_place(m, f, r);
    chunk_in(m, f, r, i) == chunk_in(m, f, r, plus(i, 1))
}

// And it ends in the same one, with others between.
fn is_everywhere(m: &[u8], f: &[u8], r: usize) -> bool {
    if span(m, f, r) < 3 {
        return false;
    }
    if is_repeated(m, f, r) {
        return chunk_in(m, f, r, first_place(m, f, r)) == chunk_in(m, f, r, last_place(m, f, r));
    }
    false
}

// It starts inside the prefix recorded for its first chunk.
fn is_inside_prefix(m: &[u8], f: &[u8], r: usize) -> bool {
    let i = first_place(m, f, r);
    let left = less(end_of(m, file(f, r), plus(i, 1)), start(f, r));
    left < num(m, partial_at(chunk_in(m, f, r, i), row_keyword(f, r)))
}

// It ends inside the suffix recorded for its last chunk.
fn is_inside_suffix(m: &[u8], f: &[u8], r: usize) -> bool {
    let i = last_place(m, f, r);
    let left = less(end(m, f, r), end_of(m, file(f, r), i));
    left < num(
        m,
        plus(partial_at(chunk_in(m, f, r, i), row_keyword(f, r)), 1),
    )
}

// File 1 has the first chunks of file 0, among them two of the occurrence in row r, and ends inside it.
fn is_cut(m: &[u8], f: &[u8], r: usize) -> bool {
    let n = file_size(m, 1);
    if file(f, r) != 0 {
        return false;
    }
    if n < plus(first_place(m, f, r), 2) {
        return false;
    }
    if last_place(m, f, r) < n {
        return false;
    }
    same(m, plus(file_at(0), 1), m, plus(file_at(1), 1), n)
}

// Row r's occurrence, which reaches over several chunks, is of a kind.
fn is_row(m: &[u8], f: &[u8], kind: usize, r: usize) -> bool {
    if kind == 14 {
        return is_repeated(m, f, r);
    }
    if kind == 15 {
        return is_everywhere(m, f, r);
    }
    if kind == 16 {
        return is_inside_prefix(m, f, r);
    }
    if kind == 17 {
        return is_inside_suffix(m, f, r);
    }
    is_cut(m, f, r)
}

fn of_rows(m: &[u8], f: &[u8], kind: usize, r: usize) -> bool {
    if case::join_code(f) != 0 {
        return false;
    }
    if case::count(f) <= r {
        return false;
    }
    if span(m, f, r) < 2 {
        return false;
    }
    is_row(m, f, kind, r)
}

// ---- all of them

fn of_vaults(m: &[u8], kind: usize, t: usize) -> bool {
    if kind == 0 {
        return is_chunk_of(m, t, 1);
    }
    if kind == 1 {
        return is_chunk_of(m, t, 4);
    }
    if kind == 2 {
        return is_keyword_of(m, t, 3);
    }
    if kind == 3 {
        return is_keyword_of(m, t, 32);
    }
    flag(m) == less(kind, 4)
}

// Under the oldest mark the files are refused with 17, or joined.
fn of_older(m: &[u8], kind: usize) -> bool {
    let code = recipes_code(m, OLD);
    if kind == 19 { code == 17 } else { code == 0 }
}

// Whether t is a witness that the case is of the kind.
pub(crate) fn shows(m: &[u8], f: &[u8], kind: usize, t: usize) -> bool {
    if kind < 6 {
        return of_vaults(m, kind, t);
    }
    if kind < 14 {
        return of_sets(m, kind, t / 16, t % 16);
    }
    if kind < 19 {
        return of_rows(m, f, kind, t);
    }
    of_older(m, kind)
}

// ---- spans

// Row r's occurrence, by how many chunks it reaches over.
fn saw_span(counts: &mut [u64], span: usize) {
    saw(counts, plus(SPANS, less(span, 2) % 31), 2 <= span);
}

// How many rows a join writes.
fn joined_rows(f: &[u8]) -> usize {
    if case::join_code(f) != 0 {
        return 0;
    }
    case::count(f)
}

// Every occurrence of a case that is joined.
pub(crate) fn see_spans(counts: &mut [u64], m: &[u8], f: &[u8]) {
    let n = joined_rows(f);
    for r in 0..n {
        saw_span(counts, span(m, f, r));
    }
}
