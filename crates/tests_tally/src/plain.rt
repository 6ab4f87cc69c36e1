// What a key and a tally add to a join, plainly computed from the list that it must write: each client's rows are counted by themselves.
use spec::Tally;
use tests_plain::bytes::{num, plus};
use tests_plain::case::first;
use tests_plain::records::bit;

// The largest count.
pub(crate) const MOST: u64 = 18446744073709551615;

// 22 where the key has another length than 16, or a client above 3 for one of the keywords.
pub(crate) fn key_code(key: &[u8], words: usize) -> u8 {
    for k in 0..words {
        if 3 < num(key, k) {
            return 22;
        }
    }
    if key.len() == 16 { 0 } else { 22 }
}

// ---- counts

// How many rows of a list are of a client's keywords.
fn rows_of(rows: &[u8], key: &[u8], client: usize) -> u64 {
    let n = rows.len() / 9;
    let mut at: usize = 8;
    let mut sum: u64 = 0;
    for row in 0..n {
        let of_client = num(key, num(rows, at)) == client;
        sum = std::num::wrapping_add_u64(sum, of_client as u64);
        at = plus(at, 9);
    }
    sum
}

// The rows of each client.
pub(crate) fn counted(rows: &[u8], key: &[u8]) -> Tally {
    Tally {
        client0: rows_of(rows, key, 0),
        client1: rows_of(rows, key, 1),
        client2: rows_of(rows, key, 2),
        client3: rows_of(rows, key, 3),
    }
}

// Each client's count and what is added to it. A sum past 64 bits wraps.
fn sums(t: Tally, more: Tally) -> Tally {
    Tally {
        client0: std::num::wrapping_add_u64(t.client0, more.client0),
        client1: std::num::wrapping_add_u64(t.client1, more.client1),
        client2: std::num::wrapping_add_u64(t.client2, more.client2),
        client3: std::num::wrapping_add_u64(t.client3, more.client3),
    }
}

// ---- sets of clients, with bit c for client c

fn set_of(client0: bool, client1: bool, client2: bool, client3: bool) -> usize {
    let a = plus(bit(0, client0), bit(1, client1));
    plus(a, plus(bit(2, client2), bit(3, client3)))
}

// Those whose counts are below others.
pub(crate) fn below(t: Tally, other: Tally) -> usize {
    set_of(
        t.client0 < other.client0,
        t.client1 < other.client1,
        t.client2 < other.client2,
        t.client3 < other.client3,
    )
}

// Those whose sums pass 64 bits: the sum that wrapped is below the count.
fn past(t: Tally, more: Tally) -> usize {
    below(sums(t, more), t)
}

// Those whose counts are the largest.
pub(crate) fn full(t: Tally) -> usize {
    set_of(
        t.client0 == MOST,
        t.client1 == MOST,
        t.client2 == MOST,
        t.client3 == MOST,
    )
}

// ---- what is due

// The number; the tally after; the clients whose sums pass 64 bits.
#[derive(Clone, Copy)]
pub(crate) struct Due {
    pub(crate) code: u8,
    pub(crate) tally: Tally,
    pub(crate) past: usize,
}

// The number, where `early` is due before the tests of the key and of the tally.
fn due_code(early: u8, key: &[u8], words: usize, past: usize) -> u8 {
    let code = first(early, key_code(key, words));
    if code != 0 {
        return code;
    }
    if past == 0 { 0 } else { 23 }
}

fn due_tally(code: u8, before: Tally, more: Tally) -> Tally {
    if code != 0 {
        return before;
    }
    sums(before, more)
}

// What is due of a join that lists these rows, where `early` is due before the tests of the key and of the tally.
pub(crate) fn due_of(early: u8, rows: &[u8], key: &[u8], words: usize, before: Tally) -> Due {
    let more = counted(rows, key);
    let over = past(before, more);
    let code = due_code(early, key, words, over);
    Due {
        code: code,
        tally: due_tally(code, before, more),
        past: over,
    }
}
