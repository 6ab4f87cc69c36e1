// A vault, apart from the formats, in one array of 120,700 bytes: counts, keywords, match records, files, chunks and the store's holes at fixed
// places. The first chunk is the last in the array, so that it can be as long as a longer array allows.
ghost use Rattle.std.specs.Prelude.{◌≡◌, length};

use crate::bytes::{get_3, num, plus, put_3};

// Room for a model whose first chunk has up to 300,000 bytes, or for a long index.
pub fn long_room() -> [u8; 430000]
    ensures { 430000 ≡ length result }
{
    [0; 430000]
}

// Keyword count, fold flag, chunk count, file count: a byte each.
pub fn keywords(m: &[u8]) -> usize {
    num(m, 0)
}

pub fn flag(m: &[u8]) -> usize {
    num(m, 1)
}

pub fn chunks(m: &[u8]) -> usize {
    num(m, 2)
}

pub fn files(m: &[u8]) -> usize {
    num(m, 3)
}

// Keyword k: a length byte, and its bytes behind.
pub fn keyword_at(k: usize) -> usize {
    8 + 33 * (k % 16)
}

pub fn keyword_size(m: &[u8], k: usize) -> usize {
    num(m, keyword_at(k))
}

// Chunk c: its length, 3 bytes; its bytes apart, at most 4,224, or more of chunk 0.
fn size_at(c: usize) -> usize {
    540 + 3 * (c % 12)
}

pub fn chunk_size(m: &[u8], c: usize) -> usize {
    get_3(m, size_at(c))
}

pub fn put_size(m: &mut [u8], c: usize, size: usize) {
    put_3(m, size_at(c), size);
}

pub fn chunk_at(c: usize) -> usize {
    70000 + 4224 * (11 - c % 12)
}

// Hole c lies before chunk c in the store, or behind the last: its length and two numbers for what fills it, a byte each.
pub fn hole_at(c: usize) -> usize {
    600 + 3 * (c % 16)
}

pub fn hole_size(m: &[u8], c: usize) -> usize {
    num(m, hole_at(c))
}

// What is added to each byte of the holes.
pub const HOLE_SHIFT: usize = 590;

// The record of chunk c and keyword k: prefix and suffix, a byte each; apart from that a byte for each offset p, 1 where it is recorded, in
// chunks that are not long.
pub fn partial_at(c: usize, k: usize) -> usize {
    4440 + 2 * (16 * (c % 12) + k % 16)
}

// There are marks for 320 offsets.
pub fn is_long(m: &[u8], c: usize) -> bool {
    320 < chunk_size(m, c)
}

pub fn mark_at(c: usize, k: usize, p: usize) -> usize {
    5100 + 320 * (16 * (c % 12) + k % 16) + p % 320
}

// The set of chunk c and keyword k: 4 bytes, with bit p for inner start p.
pub fn set_at(c: usize, k: usize) -> usize {
    67400 + 4 * (16 * (c % 12) + k % 16)
}

// File f: its chunk count, and its chunk numbers behind, a byte each, at most 63.
pub fn file_at(f: usize) -> usize {
    66560 + 64 * (f % 12)
}

pub fn file_size(m: &[u8], f: usize) -> usize {
    num(m, file_at(f))
}

pub fn chunk_of(m: &[u8], f: usize, i: usize) -> usize {
    num(m, plus(file_at(f), plus(i, 1)))
}
