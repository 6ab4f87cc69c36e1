// The lines of a query, plainly computed: each restored file is read from its start on, and each number of the query takes the first offset
// behind the occurrence before at which its keyword stands.
use tests_plain::bytes::{get_4, less, num, part, plus, put_4};
use tests_plain::joins::place_at;
use tests_plain::lists::restore;
use tests_plain::model::{files, keyword_size, keywords};
use tests_plain::records::stands;
use tests_report::tally;
use tests_report::tally::{bump, saw};

// 21 where the query has another length than 2 to 8, or a number that is no keyword's.
pub(crate) fn query_code(m: &[u8], query: &[u8]) -> u8 {
    let n = query.len();
    for i in 0..n {
        if keywords(m) <= num(query, i) {
            return 21;
        }
    }
    if n < 2 {
        return 21;
    }
    if 8 < n { 21 } else { 0 }
}

// ---- what a line shows

// The next occurrence starts inside the one before, so that it is passed over; starts at its end; one reaches over a chunk's border.
const SKIPS: usize = 10;

const ADJACENT: usize = 11;

const CROSSES: usize = 12;

// The i-th occurrence of a line shows it.
fn step_shows(
    m: &[u8],
    query: &[u8],
    text: &[u8],
    size: usize,
    line: &[u8],
    kind: usize,
    i: usize,
) -> bool {
    let start = get_4(line, 4 + 4 * (i % 8));
    let k = num(query, i);
    if kind == CROSSES {
        let last = less(plus(start, keyword_size(m, k)), 1);
        let file = get_4(line, 0);
        return place_at(m, file, start) != place_at(m, file, last);
    }
    if i == 0 {
        return false;
    }
    let before = get_4(line, 4 * (i % 8));
    let end = plus(before, keyword_size(m, num(query, less(i, 1))));
    if kind == ADJACENT {
        return start == end;
    }
    first_at(m, k, text, size, plus(before, 1)) < end
}

fn line_shows(m: &[u8], query: &[u8], text: &[u8], size: usize, line: &[u8], kind: usize) -> bool {
    let n = query.len();
    for i in 0..n {
        if step_shows(m, query, text, size, line, kind, i) {
            return true;
        }
    }
    false
}

// The line of a file, which is empty where it has none.
fn saw_line(counts: &mut [u64], m: &[u8], query: &[u8], text: &[u8], size: usize, line: &[u8]) {
    if line.len() == 0 {
        return bump(counts, tally::QUERY_KINDS + 9);
    }
    bump(counts, tally::QUERY_KINDS + 8);
    let skips = line_shows(m, query, text, size, line, SKIPS);
    saw(counts, tally::QUERY_KINDS + SKIPS, skips);
    let adjacent = line_shows(m, query, text, size, line, ADJACENT);
    saw(counts, tally::QUERY_KINDS + ADJACENT, adjacent);
    let crosses = line_shows(m, query, text, size, line, CROSSES);
    saw(counts, tally::QUERY_KINDS + CROSSES, crosses);
}

// ---- lines

// The first offset from `from` on at which keyword k stands, `size` where there is none.
fn first_at(m: &[u8], k: usize, text: &[u8], size: usize, from: usize) -> usize {
    for at in from..size {
        if stands(m, k, text, 0, size, at) {
            return at;
        }
    }
    size
}

// The line of file f, whose text has `size` bytes, at a place; the place behind, or the same where it has none. Behind a keyword that does
// not stand in the rest, all is beyond the text.
fn put_line(
    m: &[u8],
    f: usize,
    query: &[u8],
    text: &[u8],
    size: usize,
    out: &mut [u8],
    place: usize,
) -> usize {
    let n = query.len();
    let mut from: usize = 0;
    let mut at = plus(place, 4);
    put_4(out, place, f);
    for i in 0..n {
        let start = first_at(m, num(query, i), text, size, from);
        put_4(out, at, start);
        from = plus(start, keyword_size(m, num(query, i)));
        at = plus(at, 4);
    }
    if size < from { place } else { at }
}

// The lines of every file; how many bytes they are. `text` takes the restored files.
pub(crate) fn put_lines(
    counts: &mut [u64],
    m: &[u8],
    query: &[u8],
    text: &mut [u8],
    out: &mut [u8],
) -> usize {
    let n = files(m);
    let mut at: usize = 0;
    for f in 0..n {
        let size = restore(m, f, text);
        let end = put_line(m, f, query, text, size, out, at);
        saw_line(counts, m, query, text, size, part(out, at, less(end, at)));
        at = end;
    }
    at
}
