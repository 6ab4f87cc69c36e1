// Vaults whose first chunk has about the length of a window of the scan's walk, 65,536 bytes, or is longer: keywords stand across the windows'
// borders, from them on and up to them.
use tests_plain::bytes::{less, next, num, pick, plus, put, repeat};
use tests_plain::model::{chunk_at, keyword_at, keyword_size, keywords, put_size};
use tests_vaults::holes::draw_holes;
use tests_vaults::lanes::{cut, put_family, put_files, put_letters, put_piece, put_text};
use tests_vaults::small::put_words;

// Five lengths, three families of keywords, three places at the borders; behind these, five lengths of As with the keyword A.
pub const ALL: usize = 50;

const DRAWN: usize = 45;

const SIZES: [u32; 5] = [65535, 65536, 65537, 131072, 140000];

fn long(n: u32) -> usize {
    n as usize
}

fn size_of(i: usize) -> usize {
    if 5 <= i {
        return 0;
    }
    long(SIZES[i])
}

// Endings of each other; periodic ones; one that goes back at each byte.
fn family_of(i: usize) -> usize {
    num(b"\x00\x01\x03", i)
}

// ---- chunks

// Chunk 0, of beginnings of keywords, with less than `gap` bytes behind each that are in none.
fn put_pieces(m: &mut [u8], size: usize, gap: usize, seed: u64) {
    let mut at: usize = 0;
    let mut s = seed;
    for i in 0..size {
        s = next(next(s));
        at = plus(put_piece(m, 0, size, at, s), pick(next(s), gap));
    }
}

// How much of a keyword of n bytes stands before a border: nothing, all, a part.
fn before(way: usize, n: usize, seed: u64) -> usize {
    if way == 0 {
        return 0;
    }
    if way == 1 {
        return n;
    }
    plus(pick(seed, less(n, 1)), 1)
}

// A keyword at a border of windows, if it lies in chunk 0.
fn plant(m: &mut [u8], size: usize, border: usize, way: usize, seed: u64) {
    let k = pick(seed, keywords(m));
    let n = keyword_size(m, k);
    let at = less(border, before(way, n, next(seed)));
    if plus(at, n) <= size {
        put_letters(m, plus(chunk_at(0), at), plus(keyword_at(k), 1), n, false);
    }
}

fn put_drawn(m: &mut [u8], t: usize, size: usize, seed: u64) {
    let a = next(seed);
    put_family(m, family_of(t / 5 % 3), seed);
    put_pieces(m, size, t % 2 * 200, a);
    put_text(m, 1, 40, next(a));
    cut(m, size, next(next(a)));
    plant(m, size, 65536, t / 15 % 3, a);
    plant(m, size, 131072, t / 15 % 3, next(a));
}

fn put_same(m: &mut [u8], size: usize) {
    put_words(m, 1, b"\x01A");
    repeat(m, chunk_at(0), size, b'A');
    repeat(m, chunk_at(1), 1, b'A');
    put_size(m, 1, 1);
}

fn put_chunks(m: &mut [u8], t: usize, size: usize, seed: u64) {
    if t < DRAWN {
        return put_drawn(m, t, size, seed);
    }
    put_same(m, size)
}

// Vault number t.
pub fn make_wide(m: &mut [u8], t: usize) {
    let size = size_of(t % 5);
    put(m, 1, (t / 2 % 2) as u8);
    put(m, 2, 2);
    put_size(m, 0, size);
    put_chunks(m, t, size, next(next((t % 1000000) as u64 + 31)));
    put_files(m);
    draw_holes(m, next(next((t % 1000000) as u64 + 41)));
}
