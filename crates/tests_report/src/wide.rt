// The kinds of a case whose first chunk has about the length of a window of the scan's walk, or is longer, by what is found in its model. Windows
// have 65,536 bytes.
use crate::kinds::is_chunk_of;
use crate::lanes::{is_cut, is_linked};
use tests_plain::bytes::less;
use tests_plain::model::{chunk_at, chunk_size, flag, keyword_size, keywords};
use tests_plain::records::{count_of, stands};

// ---- borders

// Keyword k stands in chunk 0 j bytes before border b, the end of a window.
fn stands_before(m: &[u8], k: usize, b: usize, j: usize) -> bool {
    if keywords(m) <= k {
        return false;
    }
    stands(
        m,
        k,
        m,
        chunk_at(0),
        chunk_size(m, 0),
        less(65536 + b % 2 * 65536, j),
    )
}

fn is_across(m: &[u8], k: usize, b: usize, j: usize) -> bool {
    if j == 0 {
        return false;
    }
    if keyword_size(m, k) <= j {
        return false;
    }
    stands_before(m, k, b, j)
}

fn is_last(m: &[u8], k: usize, b: usize) -> bool {
    stands_before(m, k, b, keyword_size(m, k))
}

// More than 65,535 occurrences in chunk 0.
fn has_many(m: &[u8], k: usize) -> bool {
    if keywords(m) <= k {
        return false;
    }
    65535 < count_of(m, 0, k, chunk_size(m, 0))
}

// ---- all of them

fn of_chunks(m: &[u8], kind: usize, t: usize) -> bool {
    if kind == 0 {
        return is_chunk_of(m, t, 65535);
    }
    if kind == 1 {
        return is_chunk_of(m, t, 65536);
    }
    if kind == 2 {
        return is_chunk_of(m, t, 65537);
    }
    if kind == 3 {
        return is_chunk_of(m, t, 131072);
    }
    is_chunk_of(m, t, 140000)
}

fn of_borders(m: &[u8], kind: usize, t: usize) -> bool {
    if kind == 5 {
        return is_across(m, t / 64, t / 32 % 2, t % 32);
    }
    if kind == 6 {
        return stands_before(m, t / 2, t % 2, 0);
    }
    if kind == 7 {
        return is_last(m, t / 2, t % 2);
    }
    is_cut(m, 0, t / 32, t % 32)
}

// Whether t is a witness that the case is of the kind.
pub(crate) fn shows(m: &[u8], f: &[u8], kind: usize, t: usize) -> bool {
    if kind < 5 {
        return of_chunks(m, kind, t);
    }
    if kind < 9 {
        return of_borders(m, kind, t);
    }
    if kind == 9 {
        return has_many(m, t);
    }
    if kind == 10 {
        return is_linked(f);
    }
    flag(m) == less(kind, 11)
}
