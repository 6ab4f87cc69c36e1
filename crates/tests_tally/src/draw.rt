// Keys, tallies and buffers, drawn from a seed.
use crate::plain::MOST;
use spec::Tally;
use tests_plain::bytes::{fill, get, less, next, num, pick, plus, put, repeat};

// ---- keys

// A client for each keyword, and FF behind.
fn put_clients(key: &mut [u8], words: usize, seed: u64) {
    let mut s = seed;
    fill(key, 0xFF);
    for k in 0..words {
        s = next(s);
        put(key, k, (pick(s, 4) % 4) as u8);
    }
}

// Kinds of keys, mostly good ones: a client for each keyword; one for all 16; then 0, 15 or 17 bytes; then a wrong client, 4 or 255, for the
// first keyword or the last.
const KINDS: [u8; 20] =
    *b"\x00\x00\x00\x00\x00\x00\x00\x00\x00\x00\x00\x01\x01\x02\x03\x04\x05\x06\x07\x08";

const LENGTHS: [u8; 9] = *b"\x10\x10\x00\x0F\x11\x10\x10\x10\x10";

const WRONG: [u8; 4] = *b"\x04\xFF\x04\xFF";

// A key of a kind.
fn put_kind(key: &mut [u8], kind: usize, words: usize, seed: u64) {
    put_clients(key, words, seed);
    if kind == 1 {
        return repeat(key, 0, 16, (pick(seed, 4) % 4) as u8);
    }
    if kind < 5 {
        return;
    }
    let at = if kind < 7 { 0 } else { less(words, 1) };
    put(key, at, get(&WRONG, less(kind, 5)));
}

// A key; how many bytes it has.
pub(crate) fn draw_key(key: &mut [u8], words: usize, seed: u64) -> usize {
    let kind = num(&KINDS, pick(seed, 20));
    put_kind(key, kind, words, next(seed));
    num(&LENGTHS, kind)
}

// ---- tallies

// Kinds of tallies: at zero; any counts; full where nothing is added, any else; those that the counts fill; the same with one more, where
// something is added, for client 0, 1, 2 or 3 alone, and for all.
const TALLIES: usize = 9;

// A client's count in a tally of a kind, where n are added.
fn count_in(kind: usize, client: usize, n: u64, seed: u64) -> u64 {
    if kind == 0 {
        return 0;
    }
    if kind == 1 {
        return next(seed) % 2147483648 * 8589934592 + seed % 2147483648;
    }
    if n == 0 {
        return MOST;
    }
    if kind == 2 {
        return next(seed);
    }
    let above = is_above(kind, client) as u64;
    std::num::wrapping_add_u64(MOST - n, above)
}

fn is_above(kind: usize, client: usize) -> bool {
    if kind == 8 {
        return true;
    }
    kind == plus(client, 4)
}

// A tally before a join that adds `more`.
pub(crate) fn draw_tally(more: Tally, seed: u64) -> Tally {
    let kind = pick(seed, TALLIES);
    let a = next(seed);
    let b = next(a);
    let c = next(b);
    Tally {
        client0: count_in(kind, 0, more.client0, a),
        client1: count_in(kind, 1, more.client1, b),
        client2: count_in(kind, 2, more.client2, c),
        client3: count_in(kind, 3, more.client3, next(c)),
    }
}

// ---- buffers

// The length of a buffer for n bytes: exact mostly, else longer or a byte short.
pub(crate) fn draw_room(n: usize, seed: u64) -> usize {
    let kind = pick(seed, 8);
    if kind == 0 {
        return less(n, 1);
    }
    if kind == 1 { plus(n, 40) } else { n }
}
