// A store written again with its chunks in another order: reversed, rotated, shuffled; and with holes of its own, in which what stood there
// before is left. Or with some of its chunks, and without holes.
use crate::encode::put_mark;
use crate::holes::hole_length;
use tests_plain::bytes::{copy, get, get_4, less, next, num, pick, plus, put, put_4};
use tests_plain::case;

pub const REVERSED: usize = 0;

pub const ROTATED: usize = 1;

pub const SHUFFLED: usize = 2;

// ---- orders

// The chunk that comes to place p of n, before a shuffle.
fn chunk_for(way: usize, n: usize, p: usize) -> usize {
    if way == REVERSED {
        return less(n, plus(p, 1));
    }
    if way == SHUFFLED {
        return p;
    }
    if plus(p, 1) < n { plus(p, 1) } else { 0 }
}

fn put_order(order: &mut [u8], way: usize, n: usize) {
    for p in 0..n {
        put(order, p, (chunk_for(way, n, p) % 256) as u8);
    }
}

fn swap(order: &mut [u8], i: usize, j: usize) {
    let a = get(order, i);
    let b = get(order, j);
    put(order, i, b);
    put(order, j, a);
}

// Each place in turn is swapped with itself or one behind it.
fn shuffle(order: &mut [u8], n: usize, seed: u64) {
    let mut s = seed;
    for i in 0..n {
        s = next(s);
        swap(order, i, plus(i, pick(s, less(n, i))));
    }
}

fn shuffle_if(order: &mut [u8], way: usize, n: usize, seed: u64) {
    if way == SHUFFLED {
        shuffle(order, n, seed);
    }
}

// ---- stores

// Chunk c of f's store as chunk p of g's, at an offset; the offset behind.
fn put_chunk(g: &mut [u8], f: &[u8], p: usize, c: usize, at: usize) -> usize {
    let from = case::store_entry(c);
    let to = case::store_entry(p);
    let size = get_4(f, plus(from, 24));
    let start = case::place_of(f, 1, get_4(f, plus(from, 20)));
    let end = case::place_of(g, 1, at);
    copy(g, to, f, from, 20);
    put_4(g, plus(to, 20), at);
    put_4(g, plus(to, 24), size);
    copy(g, end, f, start, size);
    plus(at, size)
}

// Chunks and holes, which are there by three bits; where the last hole ends.
fn put_chunks(g: &mut [u8], f: &[u8], order: &[u8], n: usize, bits: usize, seed: u64) -> usize {
    let mut s = seed;
    let mut at = plus(8 + 28 * (n % 16), hole_length(bits, 0, n, s));
    for p in 0..n {
        s = next(s);
        let end = put_chunk(g, f, p, num(order, p), at);
        at = plus(end, hole_length(bits, plus(p, 1), n, s));
    }
    at
}

// g's store becomes the chunks of f's that are in the order.
fn put_store(g: &mut [u8], f: &[u8], order: &[u8], n: usize, bits: usize, seed: u64) {
    put_mark(g, case::STORE, 0x56, 1, n);
    let end = put_chunks(g, f, order, n, bits, seed);
    case::put_length(g, 1, plus(case::STORE, end));
}

// The same without holes. What stands before the store in a case is f's.
pub fn put_gapless(g: &mut [u8], f: &[u8], order: &[u8], n: usize) {
    copy(g, 0, f, 0, case::STORE);
    put_store(g, f, order, n, 0, 0);
}

// g becomes f with the n chunks of its store in another order.
pub fn reorder(g: &mut [u8], f: &[u8], way: usize, n: usize, seed: u64) {
    let mut order = [0u8; 16];
    put_order(&mut order, way, n);
    shuffle_if(&mut order, way, n, seed);
    copy(g, 0, f, 0, case::row_at(f, 0));
    put_store(g, f, &order, n, pick(next(seed), 8), next(seed));
}
