// The small vault's index at the borders of the marks: its last chunk has another length, or another mark stands before it.
use tests_plain::bytes::{num, plus, put};
use tests_plain::case::index_at;
use tests_plain::forms::{NEW, OLD};
use tests_plain::joins::join_files;
use tests_plain::model::put_size;
use tests_vaults::encode::{encode, put_index};
use tests_vaults::fill::put_count;

// Six ways, each under every mark.
pub const ALL: usize = 6 * NEW;

const SIZES: [u32; 6] = [0, 65535, 65536, 1048576, 1048577, 1];

const OTHER_MARK: usize = 5;

// The numbers that are due for the lengths, under the oldest mark and a newer one.
const CODES: [u8; 10] = [11, 11, 0, 0, 11, 0, 11, 0, 11, 11];

fn long(n: u32) -> usize {
    n as usize
}

fn size_of(way: usize) -> usize {
    if 6 <= way {
        return 0;
    }
    long(SIZES[way])
}

// The mark behind a mark, and the oldest behind the newest.
fn other(form: usize) -> usize {
    if form < NEW { plus(form, 1) } else { OLD }
}

// The small vault has no sets, so that only the width of the fields tells its index under one mark from that under another.
fn due_code(way: usize, form: usize) -> u8 {
    if way < OTHER_MARK {
        return (num(&CODES, plus(2 * way, (form != OLD) as usize)) % 256) as u8;
    }
    if (form == OLD) == (other(form) == OLD) {
        0
    } else {
        13
    }
}

// The mark's digit: the index's own, or another.
fn put_digit(f: &mut [u8], way: usize, form: usize) {
    let at = plus(index_at(f), 2);
    if way == OTHER_MARK {
        put(f, at, (0x30 + other(form) % 10) as u8);
    }
}

// The small vault, as it is.
fn put_small(f: &mut [u8], form: usize, m: &mut [u8]) {
    put_size(m, 2, 1);
    encode(f, form, m);
}

// The index with another length of the last chunk. The plain join gives the list.
fn put_other(f: &mut [u8], form: usize, m: &mut [u8], size: usize) {
    put_size(m, 2, size);
    put_index(f, form, m);
    let rows = join_files(m, form, f);
    put_count(f, rows);
}

// Number i; m is the small vault with its records.
pub fn put_bordered(f: &mut [u8], m: &mut [u8], i: usize) {
    let form = i % NEW + 1;
    let way = i / NEW;
    put_small(f, form, m);
    put_other(f, form, m, size_of(way));
    put_digit(f, way, form);
    put(f, 2, due_code(way, form));
}
