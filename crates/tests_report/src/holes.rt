// The kinds of a case by the holes of its store, as its directory tells them.
use tests_plain::bytes::{get_4, less, plus};
use tests_plain::case;
use tests_plain::case::store_entry;
use tests_plain::model::{keyword_size, keywords};
use tests_plain::records::stands;

pub(crate) fn chunk_count(f: &[u8]) -> usize {
    get_4(case::store(f), 4)
}

fn chunk_start(f: &[u8], c: usize) -> usize {
    get_4(f, plus(store_entry(c), 20))
}

fn chunk_size(f: &[u8], c: usize) -> usize {
    get_4(f, plus(store_entry(c), 24))
}

fn chunk_end(f: &[u8], c: usize) -> usize {
    plus(chunk_start(f, c), chunk_size(f, c))
}

// The bytes of all chunks.
pub(crate) fn chunk_bytes(f: &[u8]) -> usize {
    let n = chunk_count(f) % 16;
    let mut bytes: usize = 0;
    for c in 0..n {
        bytes = plus(bytes, chunk_size(f, c));
    }
    bytes
}

fn directory_end(f: &[u8]) -> usize {
    8 + 28 * (chunk_count(f) % 16)
}

// A store has a hole.
pub fn has_hole(f: &[u8]) -> bool {
    plus(directory_end(f), chunk_bytes(f)) != case::length_of(f, 1)
}

// ---- one hole

// Where hole c starts: behind chunk c - 1, or the directory. It ends at chunk c, or with the store.
fn hole_start(f: &[u8], c: usize) -> usize {
    if c == 0 {
        return directory_end(f);
    }
    chunk_end(f, less(c, 1))
}

fn hole_end(f: &[u8], c: usize) -> usize {
    if c < chunk_count(f) {
        return chunk_start(f, c);
    }
    case::length_of(f, 1)
}

fn is_hole(f: &[u8], c: usize) -> bool {
    hole_start(f, c) < hole_end(f, c)
}

fn is_between(f: &[u8], c: usize) -> bool {
    if c == 0 {
        return false;
    }
    if chunk_count(f) <= c {
        return false;
    }
    is_hole(f, c)
}

// The place of a hole: before the first chunk, between chunks, behind the last.
fn of_chunks(f: &[u8], kind: usize, t: usize) -> bool {
    if chunk_count(f) == 0 {
        return false;
    }
    if kind == 1 {
        return is_hole(f, 0);
    }
    if kind == 2 {
        return is_between(f, t);
    }
    is_hole(f, chunk_count(f))
}

fn is_alone(f: &[u8]) -> bool {
    if chunk_count(f) == 0 {
        return has_hole(f);
    }
    false
}

// ---- keywords across a border

// Keyword k stands in the store j bytes before a border and reaches over it, but not over `end`.
fn reaches(m: &[u8], f: &[u8], k: usize, j: usize, border: usize, end: usize) -> bool {
    if keywords(m) <= k {
        return false;
    }
    if j == 0 {
        return false;
    }
    if keyword_size(m, k) <= j {
        return false;
    }
    stands(m, k, f, case::STORE, end, less(border, j))
}

// From chunk c into the hole behind it, from its last j bytes.
fn reaches_hole(m: &[u8], f: &[u8], c: usize, k: usize, j: usize) -> bool {
    if chunk_count(f) <= c {
        return false;
    }
    if chunk_size(f, c) < j {
        return false;
    }
    reaches(m, f, k, j, chunk_end(f, c), hole_end(f, plus(c, 1)))
}

// From the last j bytes of the hole before chunk c into it.
fn reaches_chunk(m: &[u8], f: &[u8], c: usize, k: usize, j: usize) -> bool {
    if chunk_count(f) <= c {
        return false;
    }
    if chunk_start(f, c) < plus(hole_start(f, c), j) {
        return false;
    }
    reaches(m, f, k, j, chunk_start(f, c), chunk_end(f, c))
}

// Whether t is a witness that the case is of the kind.
pub(crate) fn shows(m: &[u8], f: &[u8], kind: usize, t: usize) -> bool {
    if kind == 0 {
        return !has_hole(f);
    }
    if kind < 4 {
        return of_chunks(f, kind, t);
    }
    if kind == 4 {
        return reaches_hole(m, f, t / 512, t / 32 % 16, t % 32);
    }
    if kind == 5 {
        return reaches_chunk(m, f, t / 512, t / 32 % 16, t % 32);
    }
    is_alone(f)
}
