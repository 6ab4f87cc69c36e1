// Vaults of small chunks whose lists are told.
use tests_plain::bytes::{copy, put, same};
use tests_plain::case;
use tests_plain::model::file_at;
use tests_vaults::small::{put_words, small, small_chunk};

// XAB, A, ABAX with ABA and AA; six times A with AAAA.
pub(crate) const TOLD: usize = 2;

fn put_refused(m: &mut [u8]) {
    small(m);
    put(m, 3, 1);
    copy(m, file_at(0), b"\x03\x00\x02\x01", 0, 4);
}

fn put_repeated(m: &mut [u8]) {
    put_words(m, 1, b"\x04AAAA");
    small_chunk(m, 0, b"A");
    put(m, 2, 1);
    put(m, 3, 1);
    copy(m, file_at(0), b"\x06\x00\x00\x00\x00\x00\x00", 0, 7);
}

pub(crate) fn put_told(m: &mut [u8], i: usize) {
    if i == 0 {
        return put_refused(m);
    }
    put_repeated(m)
}

// Their lists, of three rows each: 0 1 0, 0 3 1, 0 4 0; 0 0 0, 0 1 0, 0 2 0.
const LISTS: [u8; 54] = *b"\
    \x00\x00\x00\x00\x01\x00\x00\x00\x00\
    \x00\x00\x00\x00\x03\x00\x00\x00\x01\
    \x00\x00\x00\x00\x04\x00\x00\x00\x00\
    \x00\x00\x00\x00\x00\x00\x00\x00\x00\
    \x00\x00\x00\x00\x01\x00\x00\x00\x00\
    \x00\x00\x00\x00\x02\x00\x00\x00\x00";

// The list of a case is the one told for number i.
pub(crate) fn is_told(f: &[u8], i: usize) -> bool {
    if case::count(f) != 3 {
        return false;
    }
    same(case::rows(f), 0, &LISTS, 27 * (i % 2), 27)
}
