// Damaged inputs: the small vault of document 01 with one or two faults, and the number that each must give. A fault is a row of ten numbers:
// the input (0 keyword list, 1 store, 2 index, 3 recipes); a place, the value to store and in how many bytes from there on (0: none); a second
// place and value (place 255: none); the place to which the first chunk's fingerprint goes (255: none); the input's length behind; the number;
// and where its test stands in the order of the input's tests, so that of two faults of an input the one that is tested first counts. Places
// and lengths of the index are those under the oldest mark; under newer ones bodies are longer.
use crate::encode::put_key;
use tests_plain::bytes::{least, plus, put, repeat};
use tests_plain::case::{place_of, put_length};
use tests_plain::forms::{NEW, OLD};

pub const ALL: usize = 65;

const INPUT: usize = 0;

const TIMES: usize = 3;

const SECOND: usize = 4;

const KEY: usize = 6;

const LENGTH: usize = 7;

const CODE: usize = 8;

const RANK: usize = 9;

// The digit of the first mark that is not read yet.
const UNREAD: u8 = 0x31 + NEW as u8;

const FAULTS: [[u8; 10]; 65] = [
    // Keyword list: 9 bytes.
    [0, 255, 0, 0, 255, 0, 255, 1, 1, 0],
    [0, 255, 0, 0, 255, 0, 255, 0, 1, 0],
    [0, 0, 0, 1, 255, 0, 255, 9, 2, 1],
    [0, 0, 17, 1, 255, 0, 255, 9, 2, 1],
    [0, 1, 2, 1, 255, 0, 255, 9, 2, 1],
    [0, 255, 0, 0, 255, 0, 255, 2, 1, 2],
    [0, 2, 0, 1, 255, 0, 255, 9, 3, 3],
    [0, 2, 33, 1, 255, 0, 255, 9, 3, 3],
    [0, 6, 0, 1, 255, 0, 255, 9, 3, 4],
    [0, 255, 0, 0, 255, 0, 255, 8, 1, 5],
    [0, 255, 0, 0, 255, 0, 255, 10, 1, 6],
    // A length that makes the rest of the list another one.
    [0, 2, 2, 1, 255, 0, 255, 9, 3, 4],
    // Store: 100 bytes.
    [1, 255, 0, 0, 255, 0, 255, 7, 5, 0],
    [1, 0, 69, 1, 255, 0, 255, 100, 5, 0],
    [1, 3, 11, 1, 255, 0, 255, 100, 5, 0],
    [1, 4, 233, 1, 5, 253, 255, 100, 6, 1],
    [1, 7, 64, 1, 255, 0, 255, 100, 6, 1],
    [1, 255, 0, 0, 255, 0, 255, 91, 6, 1],
    // The first entry: a length of 0, one too large, an offset a byte before the directory's end.
    [1, 32, 0, 1, 255, 0, 255, 100, 7, 2],
    [1, 34, 17, 1, 255, 0, 255, 100, 7, 2],
    [1, 28, 91, 1, 255, 0, 255, 100, 7, 2],
    // Chunks that overlap by a byte: the first a byte later, the second a byte earlier.
    [1, 28, 93, 1, 255, 0, 255, 100, 7, 3],
    [1, 56, 94, 1, 255, 0, 255, 100, 7, 3],
    // The last offset FFFFFFFF; the second chunk a byte longer, which is no overlap where the last one is elsewhere.
    [1, 84, 255, 4, 255, 0, 255, 100, 20, 4],
    [1, 60, 5, 1, 255, 0, 255, 100, 7, 5],
    // A last end one beyond the store; a byte behind it, which is a hole.
    [1, 255, 0, 0, 255, 0, 255, 99, 7, 6],
    [1, 255, 0, 0, 255, 0, 255, 101, 0, 6],
    // A fingerprint twice: of neighbours, and of the first and the last entry.
    [1, 255, 0, 0, 255, 0, 36, 100, 8, 7],
    [1, 255, 0, 0, 255, 0, 64, 100, 8, 7],
    // Index: 136 bytes, 138 under a newer mark. Its mark may be one that is not read yet.
    [2, 255, 0, 0, 255, 0, 255, 7, 10, 0],
    [2, 1, 86, 1, 255, 0, 255, 136, 10, 0],
    [2, 2, UNREAD, 1, 255, 0, 255, 136, 10, 0],
    [2, 2, 48, 1, 255, 0, 255, 136, 10, 0],
    [2, 4, 233, 1, 5, 253, 255, 136, 10, 0],
    [2, 255, 0, 0, 255, 0, 255, 9, 1, 1],
    [2, 255, 0, 0, 255, 0, 255, 8, 1, 1],
    [2, 8, 0, 1, 255, 0, 255, 136, 2, 2],
    [2, 10, 33, 1, 255, 0, 255, 136, 3, 3],
    [2, 255, 0, 0, 255, 0, 255, 112, 11, 4],
    [2, 37, 0, 1, 255, 0, 255, 136, 11, 5],
    [2, 39, 17, 1, 255, 0, 255, 136, 11, 5],
    [2, 41, 114, 1, 255, 0, 255, 136, 11, 5],
    [2, 45, 9, 1, 255, 0, 255, 136, 11, 6],
    [2, 255, 0, 0, 255, 0, 255, 137, 11, 7],
    [2, 255, 0, 0, 255, 0, 255, 135, 11, 7],
    [2, 255, 0, 0, 255, 0, 49, 136, 12, 8],
    [2, 255, 0, 0, 255, 0, 81, 136, 12, 8],
    // Bodies: a tiny record where a full one is due, a count that lies, a prefix out of reach, a first offset where there is none.
    [2, 114, 0, 1, 255, 0, 255, 136, 13, 9],
    [2, 117, 2, 1, 255, 0, 255, 136, 13, 9],
    [2, 115, 3, 1, 255, 0, 255, 136, 13, 9],
    [2, 118, 1, 1, 255, 0, 255, 136, 13, 9],
    // Kind 2 with one offset, kind 1 with two, an offset past the end, a keyword twice, tiny bytes out of range.
    [2, 121, 2, 1, 255, 0, 255, 136, 13, 9],
    [2, 124, 2, 1, 255, 0, 255, 136, 13, 9],
    [2, 125, 2, 1, 255, 0, 255, 136, 13, 9],
    [2, 127, 0, 1, 255, 0, 255, 136, 13, 9],
    [2, 127, 2, 1, 255, 0, 255, 136, 13, 9],
    [2, 132, 4, 1, 255, 0, 255, 136, 13, 9],
    [2, 132, 0, 1, 255, 0, 255, 136, 13, 9],
    // Recipes: 96 bytes.
    [3, 255, 0, 0, 255, 0, 255, 3, 14, 0],
    [3, 2, 1, 1, 255, 0, 255, 96, 14, 1],
    [3, 7, 64, 1, 255, 0, 255, 96, 14, 2],
    [3, 255, 0, 0, 255, 0, 255, 95, 14, 2],
    [3, 255, 0, 0, 255, 0, 255, 97, 14, 3],
    [3, 8, 9, 1, 255, 0, 255, 96, 15, 4],
    [3, 91, 9, 1, 255, 0, 255, 96, 15, 5],
];

fn wide(b: u8) -> usize {
    b as usize
}

// Number j of fault i.
fn fault(i: usize, j: usize) -> usize {
    if ALL <= i {
        return 0;
    }
    if 10 <= j {
        return 0;
    }
    wide(FAULTS[i][j])
}

// Where a place or an end of an input is, under a mark: in an index under a newer one, a byte behind from the second body on, two behind from
// its second record on.
fn moved(form: usize, input: usize, place: usize) -> usize {
    if input != 2 {
        return place;
    }
    if form == OLD {
        return place;
    }
    if place < 120 {
        return place;
    }
    if place < 127 {
        plus(place, 1)
    } else {
        plus(place, 2)
    }
}

// Stores a value in n bytes of an input.
fn put_at(f: &mut [u8], form: usize, input: usize, place: usize, value: usize, n: usize) {
    let at = place_of(f, input, moved(form, input, place));
    repeat(f, at, n, (value % 256) as u8);
}

fn put_key_at(f: &mut [u8], input: usize, place: usize) {
    let at = place_of(f, input, place);
    if place < 255 {
        put_key(f, at, 0);
    }
}

// Stores fault i's bytes.
pub(crate) fn damage(f: &mut [u8], form: usize, i: usize) {
    let input = fault(i, INPUT);
    let second = fault(i, SECOND);
    put_at(f, form, input, fault(i, 1), fault(i, 2), fault(i, TIMES));
    put_at(f, form, input, second, fault(i, 5), (second < 255) as usize);
    put_key_at(f, input, fault(i, KEY));
}

// The length of an input of `whole` bytes behind fault i.
fn cut(input: usize, whole: usize, i: usize) -> usize {
    if fault(i, INPUT) == input {
        return fault(i, LENGTH);
    }
    whole
}

fn shorter(whole: usize, a: usize, b: usize) -> usize {
    if a == whole {
        return b;
    }
    if b == whole { a } else { least(a, b) }
}

// The number that an input with fault i gives, and 0 where the fault is another input's.
fn code_of(input: usize, i: usize) -> u8 {
    if fault(i, INPUT) == input {
        return (fault(i, CODE) % 256) as u8;
    }
    0
}

// The number that an input with faults i and j gives.
fn first_code(input: usize, i: usize, j: usize) -> u8 {
    let a = code_of(input, i);
    let b = code_of(input, j);
    if a == 0 {
        return b;
    }
    if b == 0 {
        return a;
    }
    if fault(j, RANK) < fault(i, RANK) {
        b
    } else {
        a
    }
}

// Length and number of an input of `whole` bytes with faults i and j.
pub(crate) fn settle(f: &mut [u8], form: usize, input: usize, whole: usize, i: usize, j: usize) {
    let n = shorter(whole, cut(input, whole, i), cut(input, whole, j));
    let end = place_of(f, input, moved(form, input, n));
    put_length(f, input, end);
    put(f, input % 4, first_code(input, i, j));
}
