// A store of one chunk of the longest length, 1,048,576 bytes, or a byte more: Bs, and As at six offsets; its index, the list of a file that
// names it twice, and the moves.
use tests_plain::bytes::{copy, plus, put, put_3, put_4, repeat};
use tests_plain::forms::NEW;
use tests_vaults::encode::{put_key, put_mark};

pub const SIZE: usize = 1048576;

// The keyword A.
pub const LIST: [u8; 4] = *b"\x01\x00\x01A";

const COUNT: usize = 6;

// At the chunk's ends, and at the borders of its windows.
const OFFSETS: [u32; 6] = [0, 65535, 65536, 131071, 524288, 1048575];

fn long(n: u32) -> usize {
    n as usize
}

fn offset(i: usize) -> usize {
    if COUNT <= i {
        return 0;
    }
    long(OFFSETS[i])
}

fn put_letters(s: &mut [u8]) {
    let n = COUNT;
    for i in 0..n {
        put(s, plus(36, offset(i)), b'A');
    }
}

// The store; its length is 36 bytes more than the chunk's.
pub fn put_store(s: &mut [u8], size: usize) {
    put_mark(s, 0, 0x56, 1, 1);
    put_key(s, 8, 0);
    put_4(s, 28, 36);
    put_4(s, 32, size);
    repeat(s, 36, size, b'B');
    put_letters(s);
}

// Each A but the last is followed by a byte, which goes back to the root before it goes on.
pub const MOVES: usize = 1048581;

pub const INDEX_LENGTH: usize = 70;

fn put_offsets(out: &mut [u8]) {
    let n = COUNT;
    for i in 0..n {
        put_3(out, 52 + 3 * (i % 6), offset(i));
    }
}

// The index: one record of kind 2.
pub fn put_index(out: &mut [u8]) {
    put_mark(out, 0, 0x4D, NEW, 1);
    copy(out, 8, &LIST, 0, 4);
    put_key(out, 12, 0);
    put_4(out, 32, SIZE);
    put_4(out, 36, 44);
    put_4(out, 40, 26);
    copy(out, 44, b"\x00\x02\x00\x00\x06\x00\x00\x00", 0, 8);
    put_offsets(out);
}

// One file that names the chunk twice: 48 bytes.
pub fn put_recipes(out: &mut [u8]) {
    put_4(out, 0, 1);
    put_4(out, 4, 2);
    put_key(out, 8, 0);
    put_key(out, 28, 0);
}

pub const ROWS: usize = 12;

fn put_row(out: &mut [u8], i: usize) {
    let at = 9 * (i % 12);
    put_4(out, at, 0);
    put_4(out, at + 4, plus(i % 12 / 6 * SIZE, offset(i % 6)));
    put(out, at + 8, 0);
}

// Its list: 108 bytes.
pub fn put_list(out: &mut [u8]) {
    let n = ROWS;
    for i in 0..n {
        put_row(out, i);
    }
}
