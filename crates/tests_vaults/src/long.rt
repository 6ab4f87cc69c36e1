// An index and recipes of a file at the longest length.
ghost use Rattle.std.specs.Prelude.{◌≡◌, length};

use crate::encode::{put_key, put_mark};
use tests_plain::bytes::{copy, plus, put_4};

// Room for recipes of 65,539 fingerprints.
pub fn room() -> [u8; 1310800]
    ensures { 1310800 ≡ length result }
{
    [0; 1310800]
}

// An index of a chunk of `size` bytes and one of 1 byte, both with empty bodies, and the keyword AAA: 78 bytes.
pub fn put_long_index(out: &mut [u8], form: usize, size: usize) {
    put_mark(out, 0, 0x4D, form, 2);
    copy(out, 8, b"\x01\x00\x03AAA", 0, 6);
    put_long_entry(out, 14, 0, size);
    put_long_entry(out, 46, 1, 1);
}

fn put_long_entry(out: &mut [u8], at: usize, c: usize, size: usize) {
    put_key(out, at, c);
    put_4(out, plus(at, 20), size);
    put_4(out, plus(at, 24), 78);
    put_4(out, plus(at, 28), 0);
}

// One file that names chunk 0 n times.
fn put_long_file(out: &mut [u8], n: usize) {
    for i in 0..n {
        put_key(out, 8 + 20 * (i % 70000), 0);
    }
}

// The same, but with chunk c at the second place.
pub fn put_long_recipes(out: &mut [u8], n: usize, c: usize) {
    put_4(out, 0, 1);
    put_4(out, 4, n);
    put_long_file(out, n);
    put_key(out, 28, c);
}
