// A case, in one array: the four inputs in document 01's formats, what each must be answered, the moves and the list that are due. A long
// array has index and list at other places, so that its store may have up to 148,300 bytes.
ghost use Rattle.std.specs.Prelude.{◌≡◌, length};

use crate::bytes::{get, get_4, less, part, plus, put_4};

// The inputs' places. Before them stand, for keyword list, store, index, recipes: the number that the input gives by itself, a byte each;
// its length, 4 bytes each; then the row count of the list, 4 bytes; then 1 where only refusals are to be run; then the scan's moves, 4 bytes.
pub const LIST: usize = 32;

pub const RECIPES: usize = 600;

pub const STORE: usize = 1700;

const ROOM: usize = 168700;

// Where the index is, and where the list.
pub fn index_at(f: &[u8]) -> usize {
    if ROOM < f.len() { 150000 } else { 7700 }
}

fn rows_at(f: &[u8]) -> usize {
    if ROOM < f.len() { 580000 } else { 57700 }
}

pub const COUNT_AT: usize = 20;

pub const ONLY_REFUSALS: usize = 24;

const MOVES_AT: usize = 28;

// Room for a case, for a model, or for a list.
pub fn room() -> [u8; 168700]
    ensures { 168700 ≡ length result }
{
    [0; 168700]
}

// Room for a case of a long chunk.
pub fn long_room() -> [u8; 1843000]
    ensures { 1843000 ≡ length result }
{
    [0; 1843000]
}

fn start_of(f: &[u8], input: usize) -> usize {
    if input == 0 {
        return LIST;
    }
    if input == 1 {
        return STORE;
    }
    if input == 2 { index_at(f) } else { RECIPES }
}

fn length_at(input: usize) -> usize {
    4 + 4 * (input % 4)
}

// The place of a byte of an input.
pub fn place_of(f: &[u8], input: usize, at: usize) -> usize {
    plus(start_of(f, input), at)
}

pub fn length_of(f: &[u8], input: usize) -> usize {
    get_4(f, length_at(input))
}

// An input ends at a place.
pub fn put_length(f: &mut [u8], input: usize, end: usize) {
    let n = less(end, start_of(f, input));
    put_4(f, length_at(input), n);
}

fn input(f: &[u8], i: usize) -> &[u8] {
    part(f, start_of(f, i), length_of(f, i))
}

pub fn list(f: &[u8]) -> &[u8] {
    input(f, 0)
}

pub fn store(f: &[u8]) -> &[u8] {
    input(f, 1)
}

pub fn index(f: &[u8]) -> &[u8] {
    input(f, 2)
}

pub fn recipes(f: &[u8]) -> &[u8] {
    input(f, 3)
}

pub fn store_entry(c: usize) -> usize {
    STORE + 8 + 28 * (c % 16)
}

pub fn count(f: &[u8]) -> usize {
    get_4(f, COUNT_AT)
}

// The moves that an accepted scan must report.
pub fn moves(f: &[u8]) -> usize {
    get_4(f, MOVES_AT)
}

pub fn put_moves(f: &mut [u8], n: usize) {
    put_4(f, MOVES_AT, n);
}

// The list that a join must write.
pub fn rows(f: &[u8]) -> &[u8] {
    part(f, rows_at(f), 9 * (count(f) % 1000000))
}

pub fn row_at(f: &[u8], row: usize) -> usize {
    plus(rows_at(f), 9 * (row % 1000000))
}

// ---- numbers

pub fn first(a: u8, b: u8) -> u8 {
    if a != 0 {
        return a;
    }
    b
}

// What the check of an input must answer.
pub fn check_code(f: &[u8], input: usize) -> u8 {
    get(f, input % 4)
}

// What a scan must answer before the test of its buffer.
pub fn scan_code(f: &[u8]) -> u8 {
    first(check_code(f, 0), check_code(f, 1))
}

pub fn join_code(f: &[u8]) -> u8 {
    first(check_code(f, 2), check_code(f, 3))
}

// What a search must answer before the test of its buffers; 0 for a case whose own index is damaged, as that is not the scan's.
pub fn search_code(f: &[u8]) -> u8 {
    if scan_code(f) != 0 {
        return scan_code(f);
    }
    if check_code(f, 2) != 0 {
        return 0;
    }
    check_code(f, 3)
}

// Whether a call that must answer `code` before the test of its buffer is to be run.
pub fn is_run(f: &[u8], code: u8) -> bool {
    if code != 0 {
        return true;
    }
    get(f, ONLY_REFUSALS) == 0
}
