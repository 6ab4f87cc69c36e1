// Vaults of chunks of 1 to 4 bytes. A file names them many times, another has its first chunks alone; keywords are taken from the first file.
use crate::holes::draw_holes;
use crate::make::{SMALL, make_chunks, make_file};
use tests_plain::bytes::{copy, less, next, num, pick, plus, put};
use tests_plain::lists::restore;
use tests_plain::model::{file_at, keyword_at, keywords};

// One letter; two letters; two letters, small and capital, with the fold flag.
fn alphabet_of(way: usize) -> usize {
    num(b"\x01\x00\x03", way)
}

fn flag_of(way: usize, seed: u64) -> usize {
    if way == 2 {
        return 1;
    }
    pick(seed, 2)
}

// Keyword k: `size` bytes of the text.
fn put_keyword(m: &mut [u8], k: usize, text: &[u8], from: usize, size: usize) {
    put(m, keyword_at(k), (size % 256) as u8);
    copy(m, plus(keyword_at(k), 1), text, from, size);
}

// n keywords of 3 to 32 bytes, all of different lengths, from the first `end` bytes of the text.
fn take_keywords(m: &mut [u8], n: usize, text: &[u8], end: usize, seed: u64) {
    let mut s = seed;
    let mut size = pick(seed, 30);
    for k in 0..n {
        s = next(s);
        size = plus(size, 7) % 30;
        put_keyword(m, k, text, pick(s, less(plus(end, 1), size + 3)), size + 3);
    }
}

// The four counts; the fold flag among them.
fn put_counts(m: &mut [u8], way: usize, seed: u64) {
    let a = next(seed);
    put(m, 0, (pick(a, 4) % 4 + 1) as u8);
    put(m, 1, (flag_of(way, next(a)) % 2) as u8);
    put(m, 2, (pick(next(next(a)), 6) % 6 + 1) as u8);
    put(m, 3, 4);
}

// A file of 33 to 40 chunks, one of its first 1 to 12, one of its first alone, an empty one.
fn put_files(m: &mut [u8], chunks: usize, seed: u64) -> u64 {
    let end = make_file(m, 0, plus(33, pick(seed, 8)), chunks, seed);
    make_file(m, 1, plus(1, pick(end, 12)), chunks, seed);
    make_file(m, 2, 1, chunks, seed);
    put(m, file_at(3), 0);
    end
}

// In some vaults the files end behind their second chunk, so that older marks join them.
fn shorten(m: &mut [u8], i: usize) {
    if i % 16 == 15 {
        put(m, file_at(0), 2);
        put(m, file_at(1), 2);
    }
}

// Counts, chunks and files; the seed behind.
fn make_files(m: &mut [u8], i: usize, seed: u64) -> u64 {
    let way = i / 4 % 3;
    put_counts(m, way, seed);
    let n = num(m, 2);
    let a = make_chunks(m, n, SMALL + i % 4, alphabet_of(way), seed);
    put_files(m, n, a)
}

// Keywords from the first file, whose text goes to an array.
fn make_keywords(m: &mut [u8], text: &mut [u8], seed: u64) {
    let end = restore(m, 0, text);
    let n = keywords(m);
    take_keywords(m, n, text, end, seed);
}

// Vault number i.
pub fn make_small(m: &mut [u8], text: &mut [u8], i: usize) {
    let seed = make_files(m, i, next(next((i % 1000000) as u64 + 501)));
    make_keywords(m, text, seed);
    shorten(m, i);
    draw_holes(m, next(seed));
}
