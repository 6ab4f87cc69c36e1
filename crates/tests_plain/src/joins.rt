// The join of any records, plainly computed: under the older marks by the cells of two neighbours, under those with sets along any number of
// chunks.
use crate::bytes::{get, less, num, plus};
use crate::forms::SETS;
use crate::lists::put_row;
use crate::model::{
    chunk_of, chunk_size, file_size, files, flag, keyword_at, keyword_size, keywords, partial_at,
};
use crate::records::{alike, folded, has_start, is_marked};

// ---- two neighbours

// Which byte of a keyword is byte q of its first i bytes followed by its last j.
fn border_byte(n: usize, i: usize, j: usize, q: usize) -> usize {
    if q < i {
        return q;
    }
    plus(less(n, j), less(q, i))
}

// Keyword k stands at `start` of its first i bytes followed by its last j.
fn in_cell(m: &[u8], k: usize, i: usize, j: usize, start: usize) -> bool {
    let n = keyword_size(m, k);
    if plus(i, j) < plus(start, n) {
        return false;
    }
    for p in 0..n {
        let a = get(m, plus(plus(keyword_at(k), 1), p));
        let b = get(
            m,
            plus(plus(keyword_at(k), 1), border_byte(n, i, j, plus(start, p))),
        );
        if folded(flag(m), a) != folded(flag(m), b) {
            return false;
        }
    }
    true
}

// Keyword k starts `left` bytes before the end of chunk c and ends in chunk `after`, which follows it (12 where none does).
fn crosses_two(m: &[u8], k: usize, c: usize, after: usize, left: usize) -> bool {
    if 12 <= after {
        return false;
    }
    let i = num(m, partial_at(c, k));
    let j = num(m, plus(partial_at(after, k), 1));
    if i < left {
        return false;
    }
    in_cell(m, k, i, j, less(i, left))
}

// The chunk behind place i of a file, 12 where there is none.
fn after_of(m: &[u8], f: usize, i: usize) -> usize {
    if plus(i, 1) < file_size(m, f) {
        return chunk_of(m, f, plus(i, 1));
    }
    12
}

// ---- any number of chunks

// A keyword whose bytes are all found, and one that is not there: more than any start in a keyword.
const WHOLE: usize = 64;

const ABSENT: usize = 65;

// Keyword k's first n bytes are the last n of the prefix recorded for chunk c: how many are found, n.
fn begun(m: &[u8], k: usize, c: usize, n: usize) -> usize {
    let i = num(m, partial_at(c, k));
    let at = plus(keyword_at(k), 1);
    if i < n {
        return ABSENT;
    }
    if alike(flag(m), m, at, m, plus(at, less(i, n)), n) {
        n
    } else {
        ABSENT
    }
}

// Keyword k's bytes from p on are the first of the suffix recorded for chunk c.
fn ended(m: &[u8], k: usize, c: usize, p: usize) -> usize {
    let n = keyword_size(m, k);
    let j = num(m, plus(partial_at(c, k), 1));
    let at = plus(keyword_at(k), 1);
    if j < less(n, p) {
        return ABSENT;
    }
    if alike(flag(m), m, plus(at, p), m, plus(at, less(n, j)), less(n, p)) {
        WHOLE
    } else {
        ABSENT
    }
}

// How many bytes of keyword k are found with chunk c, where p were before it.
fn passed(m: &[u8], k: usize, c: usize, p: usize) -> usize {
    if WHOLE <= p {
        return p;
    }
    if less(keyword_size(m, k), p) <= chunk_size(m, c) {
        return ended(m, k, c, p);
    }
    if has_start(m, c, k, p) {
        plus(p, chunk_size(m, c))
    } else {
        ABSENT
    }
}

// Keyword k starts at place i of file f, `left` bytes before the end of its chunk, and ends in another.
fn crosses_any(m: &[u8], k: usize, f: usize, i: usize, left: usize) -> bool {
    let n = file_size(m, f);
    let mut p = begun(m, k, chunk_of(m, f, i), left);
    for j in 0..n {
        if i < j {
            p = passed(m, k, chunk_of(m, f, j), p);
        }
    }
    p == WHOLE
}

// ---- files

// Where the first n places of file f end.
pub fn end_of(m: &[u8], f: usize, n: usize) -> usize {
    let mut end: usize = 0;
    for i in 0..n {
        end = plus(end, chunk_size(m, chunk_of(m, f, i)));
    }
    end
}

// The place of file f that has the byte at an offset; behind the last one where there is none.
pub fn place_at(m: &[u8], f: usize, at: usize) -> usize {
    let n = file_size(m, f);
    let mut end: usize = 0;
    for i in 0..n {
        end = plus(end, chunk_size(m, chunk_of(m, f, i)));
        if at < end {
            return i;
        }
    }
    n
}

// Keyword k is listed at an offset of file f, under a mark.
fn is_listed(m: &[u8], form: usize, f: usize, at: usize, k: usize) -> bool {
    let i = place_at(m, f, at);
    let c = chunk_of(m, f, i);
    let left = less(end_of(m, f, plus(i, 1)), at);
    if is_marked(m, c, k, less(chunk_size(m, c), left)) {
        return true;
    }
    if form < SETS {
        return crosses_two(m, k, c, after_of(m, f, i), left);
    }
    crosses_any(m, k, f, i, left)
}

// The keywords that are listed at one offset of file f, as rows; the row behind.
fn join_at(m: &[u8], form: usize, f: usize, at: usize, out: &mut [u8], row: usize) -> usize {
    let n = keywords(m);
    let mut r = row;
    for k in 0..n {
        let there = is_listed(m, form, f, at, k);
        r = put_row(out, r, there, f, at, k);
    }
    r
}

fn join_file(m: &[u8], form: usize, f: usize, out: &mut [u8], row: usize) -> usize {
    let n = end_of(m, f, file_size(m, f));
    let mut r = row;
    for at in 0..n {
        r = join_at(m, form, f, at, out, r);
    }
    r
}

// The join of every file under a mark; the number of rows.
pub fn join_files(m: &[u8], form: usize, out: &mut [u8]) -> usize {
    let n = files(m);
    let mut row: usize = 0;
    for f in 0..n {
        row = join_file(m, form, f, out, row);
    }
    row
}
