// Compaction, plainly computed: each entry of the directory, in turn, is kept where some place of the recipes has its 20 bytes; the kept chunks
// are written one behind the other.
use tests_plain::bytes::{get_4, part, plus, put};
use tests_plain::case;
use tests_plain::case::first;
use tests_plain::codes::{entry_of, store_code};
use tests_vaults::orders::put_gapless;

// ---- recipes

// Where the file that starts at a place ends.
fn file_end(r: &[u8], at: usize) -> usize {
    plus(plus(at, 4), 20 * (get_4(r, at) % 4294967296))
}

// Where the last of n files ends.
fn files_end(r: &[u8], n: usize) -> usize {
    let mut at: usize = 4;
    for i in 0..n {
        at = file_end(r, at);
    }
    at
}

// 14 where the recipes are cut short, have too many files or have bytes behind them.
fn recipes_code(r: &[u8]) -> u8 {
    if r.len() < 4 {
        return 14;
    }
    if 65535 < get_4(r, 0) {
        return 14;
    }
    if files_end(r, get_4(r, 0)) == r.len() {
        0
    } else {
        14
    }
}

// How many fingerprints n files name.
pub(crate) fn places(r: &[u8], n: usize) -> usize {
    let mut at: usize = 4;
    let mut sum: usize = 0;
    for i in 0..n {
        sum = plus(sum, get_4(r, at));
        at = file_end(r, at);
    }
    sum
}

// One of n files names a fingerprint.
fn is_named(r: &[u8], n: usize, key: &[u8]) -> bool {
    let mut at: usize = 4;
    for i in 0..n {
        if entry_of(r, plus(at, 4), 20, get_4(r, at), key) != 0 {
            return true;
        }
        at = file_end(r, at);
    }
    false
}

// ---- 15

// Of n fingerprints from `start` on, the store has not each.
fn lacks(s: &[u8], r: &[u8], start: usize, n: usize) -> bool {
    let mut at = start;
    for i in 0..n {
        if entry_of(s, 8, 28, get_4(s, 4), part(r, at, 20)) == 0 {
            return true;
        }
        at = plus(at, 20);
    }
    false
}

fn lacks_any(s: &[u8], r: &[u8], n: usize) -> bool {
    let mut at: usize = 4;
    for i in 0..n {
        if lacks(s, r, plus(at, 4), get_4(r, at)) {
            return true;
        }
        at = file_end(r, at);
    }
    false
}

// What a compaction must answer before the test of its buffer.
pub(crate) fn early_code(s: &[u8], r: &[u8]) -> u8 {
    let code = first(store_code(s), recipes_code(r));
    if code != 0 {
        return code;
    }
    if lacks_any(s, r, get_4(r, 0)) { 15 } else { 0 }
}

// ---- the new store

fn keep(kept: &mut [u8], n: usize, e: usize, named: bool) -> usize {
    if !named {
        return n;
    }
    put(kept, n, (e % 256) as u8);
    plus(n, 1)
}

// The numbers of the entries that are kept, of `count`; how many they are.
fn keep_all(kept: &mut [u8], s: &[u8], count: usize, r: &[u8]) -> usize {
    let mut n: usize = 0;
    for e in 0..count {
        let named = is_named(r, get_4(r, 0), part(s, 8 + 28 * (e % 16), 20));
        n = keep(kept, n, e, named);
    }
    n
}

// g becomes f with the store that is due.
pub(crate) fn put_compacted(g: &mut [u8], f: &[u8]) {
    let mut kept = [0u8; 16];
    let s = case::store(f);
    let n = keep_all(&mut kept, s, get_4(s, 4) % 16, case::recipes(f));
    put_gapless(g, f, &kept, n);
}
