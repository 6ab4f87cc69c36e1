// Refusals, plainly computed: of keywords, recipes and stores, good and torn.
use crate::bytes::{get_4, less, part, plus, same};
use crate::forms::SETS;
use crate::model::{chunk_of, chunk_size, chunks, file_size, files, keyword_size, keywords};
use crate::records::any_alike;

// ---- refusals

fn longest(m: &[u8]) -> usize {
    let n = keywords(m);
    let mut most: usize = 0;
    for k in 0..n {
        let size = keyword_size(m, k);
        if most < size {
            most = size;
        }
    }
    most
}

// A place neither first nor last of the file has a chunk shorter than `due`.
fn short_inside(m: &[u8], f: usize, due: usize) -> bool {
    let n = less(file_size(m, f), 1);
    for i in 0..n {
        if 0 < i {
            if chunk_size(m, chunk_of(m, f, i)) < due {
                return true;
            }
        }
    }
    false
}

// A file names a chunk that the store does not have.
fn names_stranger(m: &[u8], f: usize) -> bool {
    let n = file_size(m, f);
    for i in 0..n {
        if chunks(m) <= chunk_of(m, f, i) {
            return true;
        }
    }
    false
}

// A file's number: 15, 17 or 0.
fn file_code(m: &[u8], f: usize, due: usize) -> u8 {
    if names_stranger(m, f) {
        return 15;
    }
    if short_inside(m, f, due) { 17 } else { 0 }
}

// How many bytes a chunk inside a file must have, under a mark: none under those with sets.
fn least_inside(m: &[u8], form: usize) -> usize {
    if SETS <= form {
        return 0;
    }
    less(longest(m), 1)
}

// The join's number behind the index check, under a mark: that of the first file that has one.
pub fn recipes_code(m: &[u8], form: usize) -> u8 {
    let n = files(m);
    let due = least_inside(m, form);
    for f in 0..n {
        let code = file_code(m, f, due);
        if code != 0 {
            return code;
        }
    }
    0
}

// The keyword check's number: 4 or 0.
pub fn alike_code(m: &[u8]) -> u8 {
    if any_alike(m) { 4 } else { 0 }
}

// ---- stores, good and torn

// The place of the first entry of a directory that has the fingerprint, 0 where none has. The directory has n entries of `width` bytes from
// `start` on.
pub fn entry_of(bytes: &[u8], start: usize, width: usize, n: usize, key: &[u8]) -> usize {
    let mut at = start;
    for e in 0..n {
        if same(bytes, at, key, 0, 20) {
            return at;
        }
        at = plus(at, width);
    }
    0
}

fn entry_at(e: usize) -> usize {
    8 + 28 * (e % 65536)
}

// Where the chunk that an entry tells starts, and where it ends.
fn told_start(s: &[u8], entry: usize) -> usize {
    get_4(s, plus(entry, 20))
}

fn told_end(s: &[u8], entry: usize) -> usize {
    plus(told_start(s, entry), get_4(s, plus(entry, 24)))
}

// The number of an entry whose chunk may start at `at` or behind it: 7, 20 or 0.
fn entry_code(s: &[u8], at: usize, entry: usize) -> u8 {
    let size = get_4(s, plus(entry, 24));
    if size == 0 {
        return 7;
    }
    if 1048576 < size {
        return 7;
    }
    if told_start(s, entry) < at {
        return 7;
    }
    if 4294967295 < told_end(s, entry) {
        20
    } else {
        0
    }
}

// The number of the n entries: that of the first that has one; then 7 where the last chunk ends beyond the store.
fn entries_code(s: &[u8], n: usize) -> u8 {
    let mut at = entry_at(n);
    for e in 0..n {
        let code = entry_code(s, at, entry_at(e));
        if code != 0 {
            return code;
        }
        at = told_end(s, entry_at(e));
    }
    if s.len() < at { 7 } else { 0 }
}

fn any_twice(s: &[u8], n: usize) -> bool {
    for e in 0..n {
        let at = entry_at(e);
        if entry_of(s, 8, 28, n, part(s, at, 20)) != at {
            return true;
        }
    }
    false
}

// The number of a store behind its mark.
fn directory_code(s: &[u8], n: usize) -> u8 {
    if 65000 < n {
        return 6;
    }
    if s.len() < 8 + 28 * (n % 65536) {
        return 6;
    }
    let code = entries_code(s, n);
    if code != 0 {
        return code;
    }
    if any_twice(s, n) { 8 } else { 0 }
}

// The store check's number.
pub fn store_code(s: &[u8]) -> u8 {
    if s.len() < 8 {
        return 5;
    }
    if !same(s, 0, b"DV1\n", 0, 4) {
        return 5;
    }
    directory_code(s, get_4(s, 4))
}
