// The kinds of a case with long chunks, by what is found in its model. A chunk of 256 bytes or more has four quarters, and 0 to 3 bytes behind.
use crate::due::times;
use crate::holes::chunk_bytes;
use crate::kinds::is_chunk_of;
use crate::moves::nodes;
use tests_plain::bytes::{less, plus};
use tests_plain::case;
use tests_plain::model::{chunk_at, chunk_size, chunks, flag, keyword_at, keyword_size, keywords};
use tests_plain::records::{alike, stands};

// ---- chunks

// Chunk c has quarters.
fn is_laned(m: &[u8], c: usize) -> bool {
    if c < chunks(m) {
        return 256 <= chunk_size(m, c);
    }
    false
}

fn is_left_over(m: &[u8], c: usize, n: usize) -> bool {
    if is_laned(m, c) {
        return chunk_size(m, c) % 4 == n;
    }
    false
}

// Keyword k stands j bytes before the end of quarter q of chunk c.
fn stands_before(m: &[u8], c: usize, k: usize, q: usize, j: usize) -> bool {
    let size = chunk_size(m, c);
    let end = times(plus(q, 1), size / 4);
    if keywords(m) <= k {
        return false;
    }
    if end < j {
        return false;
    }
    if is_laned(m, c) {
        return stands(m, k, m, chunk_at(c), size, less(end, j));
    }
    false
}

fn is_across(m: &[u8], c: usize, k: usize, q: usize, j: usize) -> bool {
    if j == 0 {
        return false;
    }
    if keyword_size(m, k) <= j {
        return false;
    }
    stands_before(m, c, k, q, j)
}

fn is_last(m: &[u8], c: usize, k: usize, q: usize) -> bool {
    stands_before(m, c, k, q, keyword_size(m, k))
}

// Chunk c ends with the first i bytes of keyword k, and chunk c + 1 starts with the others.
pub(crate) fn is_cut(m: &[u8], c: usize, k: usize, i: usize) -> bool {
    let n = keyword_size(m, k);
    let at = plus(keyword_at(k), 1);
    if chunks(m) <= plus(c, 1) {
        return false;
    }
    if keywords(m) <= k {
        return false;
    }
    if i == 0 {
        return false;
    }
    if n <= i {
        return false;
    }
    if alike(
        flag(m),
        m,
        at,
        m,
        plus(chunk_at(c), less(chunk_size(m, c), i)),
        i,
    ) {
        return alike(flag(m), m, plus(at, i), m, chunk_at(plus(c, 1)), less(n, i));
    }
    false
}

// ---- keywords

// Keyword j is a proper part of keyword k: its end, or its beginning.
fn is_part(m: &[u8], j: usize, k: usize, end: bool) -> bool {
    let n = keyword_size(m, j);
    let rest = less(keyword_size(m, k), n);
    if keywords(m) <= j {
        return false;
    }
    if keywords(m) <= k {
        return false;
    }
    if rest == 0 {
        return false;
    }
    let from = if end { rest } else { 0 };
    alike(
        flag(m),
        m,
        plus(keyword_at(j), 1),
        m,
        plus(plus(keyword_at(k), 1), from),
        n,
    )
}

// The moves are more than the bytes of the chunks, so links were followed.
pub(crate) fn is_linked(f: &[u8]) -> bool {
    chunk_bytes(f) < case::moves(f)
}

// ---- all of them

fn of_chunks(m: &[u8], kind: usize, t: usize) -> bool {
    if kind == 0 {
        return is_chunk_of(m, t, 255);
    }
    if kind == 1 {
        return is_chunk_of(m, t, 256);
    }
    if kind == 2 {
        return is_chunk_of(m, t, 4099);
    }
    is_left_over(m, t, less(kind, 3))
}

fn of_borders(m: &[u8], kind: usize, t: usize) -> bool {
    if kind == 7 {
        return is_across(m, t / 2048, t / 128 % 16, t / 32 % 4, t % 32);
    }
    if kind == 8 {
        return stands_before(m, t / 64, t / 4 % 16, t % 4, 0);
    }
    if kind == 9 {
        return is_last(m, t / 64, t / 4 % 16, t % 4);
    }
    is_cut(m, t / 512, t / 32 % 16, t % 32)
}

fn of_keywords(m: &[u8], f: &[u8], kind: usize, t: usize) -> bool {
    if kind < 13 {
        return is_part(m, t / 16, t % 16, kind == 11);
    }
    if t != 0 {
        return false;
    }
    if kind == 13 {
        return nodes(m) == 513;
    }
    if kind == 14 {
        return is_linked(f);
    }
    flag(m) == less(kind, 15)
}

// Whether t is a witness that the case is of the kind.
pub(crate) fn shows(m: &[u8], f: &[u8], kind: usize, t: usize) -> bool {
    if kind < 7 {
        return of_chunks(m, kind, t);
    }
    if kind < 11 {
        return of_borders(m, kind, t);
    }
    of_keywords(m, f, kind, t)
}
