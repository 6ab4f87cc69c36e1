// Stores told by their directories, and the number that is due for each. The bytes of their chunks do not matter, and most are not there.
use tests_plain::bytes::{less, plus, put, put_4, repeat};
use tests_plain::case::{ONLY_REFUSALS, STORE, put_length, store};
use tests_plain::codes::store_code;
use tests_vaults::encode::{put_key, put_mark};

pub const ALL: usize = 62;

fn long(n: u32) -> usize {
    n as usize
}

fn entry_at(e: usize) -> usize {
    8 + 28 * (e % 65536)
}

// ---- of two entries or fewer: the directory ends at 8, 36 or 64

const FEW: usize = 40;

// The number of entries; offset and length of the first, of the second; the chunk whose fingerprint the second has; the length of the store;
// the number.
const FEW_STORES: [[u32; 8]; 40] = [
    // No entry: any length from 8 bytes on.
    [0, 0, 0, 0, 0, 1, 7, 5],
    [0, 0, 0, 0, 0, 1, 8, 0],
    [0, 0, 0, 0, 0, 1, 9, 0],
    [0, 0, 0, 0, 0, 1, 100, 0],
    // The directory cut short; the first chunk at its end, before it, behind it.
    [1, 36, 1, 0, 0, 1, 35, 6],
    [1, 36, 1, 0, 0, 1, 37, 0],
    [1, 35, 1, 0, 0, 1, 37, 7],
    [1, 37, 1, 0, 0, 1, 38, 0],
    [1, 0, 1, 0, 0, 1, 100, 7],
    [2, 63, 1, 64, 1, 1, 100, 7],
    // The last end: the store's, one beyond it, one before it.
    [1, 36, 64, 0, 0, 1, 100, 0],
    [1, 36, 65, 0, 0, 1, 100, 7],
    [1, 36, 63, 0, 0, 1, 100, 0],
    [1, 36, 1, 0, 0, 1, 36, 7],
    // The second chunk where the first ends, a byte before, a byte behind; before the first; in its place; in it.
    [2, 64, 10, 74, 1, 1, 100, 0],
    [2, 64, 10, 73, 1, 1, 100, 7],
    [2, 64, 10, 75, 1, 1, 100, 0],
    [2, 80, 10, 64, 10, 1, 100, 7],
    [2, 64, 1, 64, 1, 1, 100, 7],
    [2, 64, 10, 68, 2, 1, 100, 7],
    // Ends at 4,294,967,295 and beyond; where sums have 32 bits, some of these end within the store.
    [1, 0xFFFFFFFE, 1, 0, 0, 1, 100, 7],
    [1, 0xFFFFFFFF, 1, 0, 0, 1, 100, 20],
    [1, 0xFFFFFFFF, 38, 0, 0, 1, 100, 20],
    [1, 0xFFEFFFFF, 1048576, 0, 0, 1, 100, 7],
    [1, 0xFFF00000, 1048576, 0, 0, 1, 100, 20],
    [1, 0xFFFFFFFF, 0, 0, 0, 1, 100, 7],
    [1, 0xFFFFFFFF, 1048577, 0, 0, 1, 100, 7],
    // Of two entries, one is wrong and the other beyond; one ends beyond the store and the other beyond 32 bits; one is wrong twice.
    [2, 64, 0, 0xFFFFFFFF, 1, 1, 100, 7],
    [2, 0xFFFFFFFF, 1, 64, 0, 1, 100, 20],
    [2, 0xFFFFFFFF, 1, 64, 1, 1, 100, 20],
    [2, 64, 100, 0xFFFFFFFF, 1, 1, 100, 20],
    [2, 64, 100, 164, 1, 1, 100, 7],
    [2, 0xFFFFFFFE, 1, 0xFFFFFFFF, 1, 1, 100, 20],
    [2, 0xFFFFFFFE, 1, 0xFFFFFFFE, 2, 1, 100, 7],
    // A fingerprint twice: with no hole, a byte behind, a byte between; with a last end beyond the store, an overlap, an end beyond.
    [2, 64, 1, 65, 1, 0, 66, 8],
    [2, 64, 1, 65, 1, 0, 67, 8],
    [2, 64, 1, 66, 1, 0, 67, 8],
    [2, 64, 1, 65, 2, 0, 66, 7],
    [2, 64, 2, 65, 1, 0, 100, 7],
    [2, 64, 1, 0xFFFFFFFF, 1, 0, 100, 20],
];

// Number j of store i.
fn few(i: usize, j: usize) -> usize {
    if FEW <= i {
        return 0;
    }
    if 8 <= j {
        return 0;
    }
    long(FEW_STORES[i][j])
}

fn put_one(f: &mut [u8], e: usize, key: usize, offset: usize, size: usize) {
    let entry = plus(STORE, entry_at(e));
    put_key(f, entry, key);
    put_4(f, plus(entry, 20), offset);
    put_4(f, plus(entry, 24), size);
}

fn put_few(f: &mut [u8], i: usize) {
    put_mark(f, STORE, 0x56, 1, few(i, 0));
    put_one(f, 0, 0, few(i, 1), few(i, 2));
    put_one(f, 1, few(i, 5), few(i, 3), few(i, 4));
    put_length(f, 1, plus(STORE, few(i, 6)));
}

// ---- of 4,095 entries or more, of chunks of 1,048,576 bytes each: without holes, the chunk of entry 4,095 ends beyond 4,294,967,295

// The number of entries; an entry of another length, and that length; an entry whose chunk starts a byte before the end of the one before it;
// an entry that has the first one's fingerprint (9,999: none); how many bytes are missing at the directory's end; the hole before the first
// chunk; the number.
const STORES: [[u32; 8]; 22] = [
    [4096, 9999, 0, 9999, 9999, 0, 0, 20],
    [4097, 9999, 0, 9999, 9999, 0, 0, 20],
    [4095, 9999, 0, 9999, 9999, 0, 0, 7],
    // The last end is 4,294,967,295, and one more; the same with one entry less, by a hole.
    [4096, 4095, 933879, 9999, 9999, 0, 0, 7],
    [4096, 4095, 933880, 9999, 9999, 0, 0, 20],
    [4095, 9999, 0, 9999, 9999, 0, 933907, 7],
    [4095, 9999, 0, 9999, 9999, 0, 933908, 20],
    // A wrong length: before the entry that is beyond, its own, behind it.
    [4096, 4094, 0, 9999, 9999, 0, 0, 7],
    [4096, 4094, 1048577, 9999, 9999, 0, 0, 7],
    [4096, 4095, 0, 9999, 9999, 0, 0, 7],
    [4096, 4095, 1048577, 9999, 9999, 0, 0, 7],
    [4097, 4096, 0, 9999, 9999, 0, 0, 20],
    [4097, 4096, 1048577, 9999, 9999, 0, 0, 20],
    // An overlap likewise.
    [4096, 9999, 0, 4094, 9999, 0, 0, 7],
    [4096, 9999, 0, 4095, 9999, 0, 0, 7],
    [4097, 9999, 0, 4096, 9999, 0, 0, 20],
    // A fingerprint twice.
    [4096, 9999, 0, 9999, 1, 0, 0, 20],
    [4096, 9999, 0, 9999, 4095, 0, 0, 20],
    [4096, 4095, 933879, 9999, 1, 0, 0, 7],
    // The directory cut short.
    [4096, 9999, 0, 9999, 9999, 1, 0, 6],
    // The first chunk has one byte, so that nothing is beyond; and a chunk more.
    [4096, 0, 1, 9999, 9999, 0, 0, 7],
    [4097, 0, 1, 9999, 9999, 0, 0, 20],
];

// Number j of store i.
fn told(i: usize, j: usize) -> usize {
    if 22 <= i {
        return 0;
    }
    if 8 <= j {
        return 0;
    }
    long(STORES[i][j])
}

fn size_of(i: usize, e: usize) -> usize {
    if e == told(i, 1) {
        return told(i, 2);
    }
    1048576
}

fn offset_of(i: usize, e: usize, at: usize) -> usize {
    less(at, (e == told(i, 3)) as usize)
}

fn key_of(i: usize, e: usize) -> usize {
    if e == told(i, 4) { 0 } else { e }
}

// Entry e of store i, whose chunk starts at `at`; the offset behind the chunk.
fn put_entry(f: &mut [u8], i: usize, e: usize, at: usize) -> usize {
    let entry = plus(STORE, entry_at(e));
    repeat(f, entry, 20, 7);
    put_4(f, plus(entry, 16), key_of(i, e));
    put_4(f, plus(entry, 20), offset_of(i, e, at));
    put_4(f, plus(entry, 24), size_of(i, e));
    plus(at, size_of(i, e))
}

fn put_entries(f: &mut [u8], i: usize, n: usize, start: usize) {
    let mut at = start;
    for e in 0..n {
        at = put_entry(f, i, e, at);
    }
}

fn put_many(f: &mut [u8], i: usize) {
    let n = told(i, 0);
    let end = entry_at(n);
    put_mark(f, STORE, 0x56, 1, n);
    put_entries(f, i, n, plus(end, told(i, 6)));
    put_length(f, 1, less(plus(STORE, end), told(i, 5)));
}

// ---- all of them

fn put_told(f: &mut [u8], i: usize) {
    if i < FEW {
        return put_few(f, i);
    }
    put_many(f, less(i, FEW))
}

pub fn told_code(i: usize) -> u8 {
    let code = if i < FEW {
        few(i, 7)
    } else {
        told(less(i, FEW), 7)
    };
    (code % 256) as u8
}

// Store i becomes the store of a case, and the number of the plain check what is due.
pub fn put_beyond(f: &mut [u8], i: usize) {
    put_told(f, i);
    let code = store_code(store(f));
    put(f, 1, code);
    put(f, ONLY_REFUSALS, 1);
}
