// Lookups by fingerprint, compared with a plain search of the directory.
use crate::runs::code_of;
use tests_plain::bytes::{get_4, part, plus};
use tests_plain::case;
use tests_plain::case::check_code;
use tests_plain::codes::entry_of;
use tests_report::due::{field, is_part, lookup_code};
use tests_report::tally;
use tests_report::tally::compared;
use tests_vaults::encode::put_key;

fn chunk_as_due(store: &[u8], key: &[u8], start: usize, n: usize) -> bool {
    if store::chunk_start(store, key) != start {
        return false;
    }
    if store::chunk_length(store, key) != n {
        return false;
    }
    is_part(store::chunk(store, key), store, start, n)
}

// A chunk, in a store whose check must answer `check`.
fn chunk_lookup(counts: &mut [u64], store: &[u8], check: u8, key: &[u8]) {
    let e = entry_of(store, 8, 28, get_4(store, 4) % 1000, key);
    let c = lookup_code(check, key.len(), e);
    let start = field(store, c, plus(e, 20));
    let n = field(store, c, plus(e, 24));
    let ok = chunk_as_due(store, key, start, n);
    compared(
        counts,
        tally::CHUNK_LOOKUP,
        code_of(store::find_chunk(store, key)),
        c,
        ok,
    );
}

fn body_as_due(index: &[u8], key: &[u8], start: usize, n: usize) -> bool {
    if index::body_start(index, key) != start {
        return false;
    }
    if index::body_length(index, key) != n {
        return false;
    }
    is_part(index::body(index, key), index, start, n)
}

// A body, in an index whose directory starts at `at` and whose check must answer `check`.
fn body_lookup(counts: &mut [u64], index: &[u8], at: usize, check: u8, key: &[u8]) {
    let e = entry_of(index, at, 32, get_4(index, 4) % 1000, key);
    let c = lookup_code(check, key.len(), e);
    let start = field(index, c, plus(e, 24));
    let n = field(index, c, plus(e, 28));
    let ok = body_as_due(index, key, start, n);
    compared(
        counts,
        tally::BODY_LOOKUP,
        code_of(index::find_body(index, key)),
        c,
        ok,
    );
}

// Chunk and body under the first `size` bytes of the fingerprint of chunk c and a byte behind.
fn look_up(counts: &mut [u64], f: &[u8], c: usize, size: usize) {
    let mut key = [0u8; 21];
    put_key(&mut key, 0, c);
    let k = part(&key, 0, size);
    chunk_lookup(counts, case::store(f), check_code(f, 1), k);
    body_lookup(
        counts,
        case::index(f),
        plus(8, case::length_of(f, 0)),
        check_code(f, 2),
        k,
    );
}

// Case number i: two chunks, which the vault may not have, and a fingerprint of 19 or 21 bytes.
pub fn lookups(counts: &mut [u64], f: &[u8], i: usize) {
    look_up(counts, f, i % 9, 20);
    look_up(counts, f, i / 9 % 9, 20);
    look_up(counts, f, 0, 19 + i % 2 * 2);
}
