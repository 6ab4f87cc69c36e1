// Small vaults, as models: the one of document 01, and the ones whose moves READING 69 tells.
use crate::holes::{EVERYWHERE, make_holes};
use tests_plain::bytes::{copy, num, plus, put};
use tests_plain::model::{chunk_at, file_at, keyword_at, put_size};

// n keywords, one behind the other, each a length byte and its bytes.
pub fn put_words(m: &mut [u8], n: usize, words: &[u8]) {
    put(m, 0, (n % 256) as u8);
    let mut at: usize = 0;
    for k in 0..n {
        let size = plus(num(words, at), 1);
        copy(m, keyword_at(k), words, at, size);
        at = plus(at, size);
    }
}

pub fn small_chunk(m: &mut [u8], c: usize, bytes: &[u8]) {
    let n = bytes.len();
    put_size(m, c, n);
    copy(m, chunk_at(c), bytes, 0, n);
}

// ---- the small vault of document 01

fn small_chunks(m: &mut [u8]) {
    small_chunk(m, 0, b"XAB");
    small_chunk(m, 1, b"ABAX");
    small_chunk(m, 2, b"A");
}

fn small_files(m: &mut [u8]) {
    copy(m, file_at(0), b"\x02\x00\x01", 0, 3);
    copy(m, file_at(1), b"\x02\x02\x02", 0, 3);
    put(m, file_at(2), 0);
}

pub fn small(m: &mut [u8]) {
    copy(m, 0, b"\x02\x00\x03\x03", 0, 4);
    put_words(m, 2, b"\x03ABA\x02AA");
    small_chunks(m);
    small_files(m);
}

// ---- vaults whose moves are told

// Each with one chunk, and each under both fold flags; one of three chunks behind them; all of them once more, with holes.
pub const TOLD: usize = 32;

// The moves of vault number v: DEDE, DEDUP, DEDUPX with the keywords DEDUP and UP; AAAAAA, AAAX with AAAA; AAAA, BBBB with A; the first three
// as the chunks of one store.
pub fn told_moves(v: usize) -> usize {
    num(b"\x05\x05\x08\x08\x07\x07\x04\x12", v / 2 % 8)
}

fn told_words(m: &mut [u8], i: usize) {
    if i % 7 < 3 {
        return put_words(m, 2, b"\x05DEDUP\x02UP");
    }
    if i < 5 {
        return put_words(m, 1, b"\x04AAAA");
    }
    put_words(m, 1, b"\x01A")
}

fn told_chunk(m: &mut [u8], i: usize) {
    if i == 1 {
        return small_chunk(m, 0, b"DEDUP");
    }
    if i == 2 {
        return small_chunk(m, 0, b"DEDUPX");
    }
    if i == 3 {
        return small_chunk(m, 0, b"AAAAAA");
    }
    if i == 4 {
        return small_chunk(m, 0, b"AAAX");
    }
    if i == 5 {
        return small_chunk(m, 0, b"AAAA");
    }
    if i == 6 {
        return small_chunk(m, 0, b"BBBB");
    }
    small_chunk(m, 0, b"DEDE")
}

fn told_count(i: usize) -> u8 {
    if i == 7 { 3 } else { 1 }
}

fn told_chunks(m: &mut [u8], i: usize) {
    told_chunk(m, i);
    small_chunk(m, 1, b"DEDUP");
    small_chunk(m, 2, b"DEDUPX");
    put(m, 2, told_count(i));
}

fn told_holes(m: &mut [u8], v: usize) {
    if 16 <= v {
        make_holes(m, EVERYWHERE, (v % 1000) as u64);
    }
}

// One file, of the first chunk.
pub fn told(m: &mut [u8], v: usize) {
    let i = v / 2 % 8;
    told_words(m, i);
    told_chunks(m, i);
    put(m, 1, (v % 2) as u8);
    put(m, 3, 1);
    copy(m, file_at(0), b"\x01\x00", 0, 2);
    told_holes(m, v);
}
