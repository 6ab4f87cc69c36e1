// Files of the search program at its borders: one chunk, of which the last bytes are A; recipes of three files, of which the second names a
// chunk that the store does not have; and the rows that are due.
use tests_plain::bytes::{plus, put, put_4, repeat};
use tests_plain::case::COUNT_AT;
use tests_plain::lists::put_row;
use tests_plain::printout::{RECIPES, STORE, WORDS, place_of, put_end, put_length, put_part};
use tests_plain::text::TOO_LONG;
use tests_vaults::encode::{put_key, put_mark};

// A store's mark and its one entry, of a chunk of n bytes.
fn put_entry(p: &mut [u8], n: usize) {
    put_mark(p, place_of(STORE, 0), 0x56, 1, 1);
    put_key(p, place_of(STORE, 8), 0);
    put_4(p, place_of(STORE, 28), 36);
    put_4(p, place_of(STORE, 32), n);
}

// A chunk of `others` times B and n times A behind.
fn put_store(p: &mut [u8], others: usize, n: usize) {
    let at = place_of(STORE, 36);
    let behind = plus(at, others);
    put_entry(p, plus(others, n));
    repeat(p, at, others, b'B');
    repeat(p, behind, n, b'A');
    put_end(p, STORE, plus(behind, n));
}

// A file that names chunk c n times; the place behind.
fn put_recipe(p: &mut [u8], start: usize, c: usize, n: usize) -> usize {
    put_4(p, start, n);
    let mut at = plus(start, 4);
    for i in 0..n {
        put_key(p, at, c);
        at = plus(at, 20);
    }
    at
}

// The chunk n times; a chunk that the store does not have, `strange` times; an empty file.
fn put_recipes(p: &mut [u8], n: usize, strange: usize) {
    put_4(p, place_of(RECIPES, 0), 3);
    let a = put_recipe(p, place_of(RECIPES, 4), 0, n);
    let b = put_recipe(p, a, 1, strange);
    let end = put_recipe(p, b, 2, 0);
    put_end(p, RECIPES, end);
}

// The rows of n occurrences of keyword 0 in file 0, the first at `first`, the others `step` behind each other.
fn put_rows(f: &mut [u8], n: usize, first: usize, step: usize) {
    let mut offset = first;
    for row in 0..n {
        put_row(f, row, true, 0, offset, 0);
        offset = plus(offset, step);
    }
    put_4(f, COUNT_AT, n);
}

// ---- full lists and full indexes

pub(crate) const FULL: usize = 14;

// The number of As in the chunk; the keyword, 1 for A and 2 for AA; how often file 0 names the chunk; how often file 1 names one that the
// store does not have; the number that is due. A list of 7,281 occurrences fits, and 7,282 do not. The index has 55 bytes and three for each
// occurrence of A, a byte more for AA, which occurs once less: with 21,827 As that is 65,536 and 65,534, and with one A more 65,539 and 65,537.
const FULL_CASES: [[u16; 5]; 14] = [
    [7280, 1, 1, 0, 0],
    [7281, 1, 1, 0, 0],
    [7282, 1, 1, 0, 18],
    [3641, 1, 2, 0, 18],
    [7281, 1, 1, 1, 15],
    [7282, 1, 1, 1, 15],
    [21827, 1, 0, 0, 0],
    [21827, 1, 1, 0, 18],
    [21828, 1, 0, 0, 9],
    [21828, 1, 1, 1, 9],
    [21827, 2, 0, 0, 0],
    [21827, 2, 1, 0, 18],
    [21828, 2, 0, 0, 9],
    [21828, 2, 1, 1, 9],
];

fn wide(n: u16) -> usize {
    n as usize
}

// Number j of case i.
fn full(i: usize, j: usize) -> usize {
    if FULL <= i {
        return 0;
    }
    if 5 <= j {
        return 0;
    }
    wide(FULL_CASES[i][j])
}

fn put_word(p: &mut [u8], size: usize) {
    if size == 1 {
        return put_part(p, WORDS, b"\x01\x00\x01A");
    }
    put_part(p, WORDS, b"\x01\x00\x02AA")
}

// How many occurrences of A file 0 has, where it names the chunk at most once.
fn occurrences(i: usize) -> usize {
    if full(i, 2) == 0 {
        return 0;
    }
    full(i, 0)
}

// Case i's files, and the rows, which are due where its number is 0.
pub(crate) fn put_full_case(f: &mut [u8], p: &mut [u8], i: usize) {
    put_word(p, full(i, 1));
    put_store(p, 0, full(i, 0));
    put_recipes(p, full(i, 2), full(i, 3));
    put_rows(f, occurrences(i), 0, 1);
}

pub(crate) fn full_code(i: usize) -> u8 {
    (full(i, 4) % 256) as u8
}

// ---- files absent, full and too long

// Store and recipes of 65,536 bytes each: a chunk of 65,500 bytes, of which the last is A, 3,276 times.
pub(crate) fn put_full_files(f: &mut [u8], p: &mut [u8]) {
    put_word(p, 1);
    put_store(p, 65499, 1);
    put_recipes(p, 3276, 0);
    put_rows(f, 3276, 65499, 65500);
}

// Store and recipes: absent, full, too long.
fn length_of(state: usize) -> usize {
    if state == 0 {
        return 0;
    }
    if state == 1 { 65536 } else { 65537 }
}

// Keyword list: absent, the keyword A, full, too long.
fn words_length(state: usize) -> usize {
    if state == 0 {
        return 0;
    }
    if state == 1 {
        return 4;
    }
    if state == 2 { 65536 } else { 65537 }
}

pub(crate) const STATES: usize = 36;

// The files in the states that number t stands for.
pub(crate) fn put_states_of(p: &mut [u8], t: usize) {
    put_states(p, t / 12, t / 3 % 4, t % 3);
}

// What is due for them.
pub(crate) fn states_code(t: usize) -> u8 {
    code_of(t / 12, t / 3 % 4, t % 3)
}

// Lengths for each file's state; the keyword list has a keyword where it is good, and none where it is full.
fn put_states(p: &mut [u8], store: usize, words: usize, recipes: usize) {
    put_length(p, STORE, length_of(store));
    put_length(p, WORDS, words_length(words));
    put_length(p, RECIPES, length_of(recipes));
    put(p, place_of(WORDS, 0), (words == 1) as u8);
}

fn code_of(store: usize, words: usize, recipes: usize) -> u8 {
    if store == 2 {
        return TOO_LONG;
    }
    if words == 3 {
        return TOO_LONG + 1;
    }
    if recipes == 2 {
        return TOO_LONG + 2;
    }
    refusal_of(store, words, recipes)
}

fn refusal_of(store: usize, words: usize, recipes: usize) -> u8 {
    if words == 0 {
        return 1;
    }
    if words == 2 {
        return 2;
    }
    if store == 0 {
        return 5;
    }
    if recipes == 0 { 14 } else { 0 }
}
