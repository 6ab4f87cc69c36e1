// What the search program prints, plainly computed. Functions that write return the place behind what they wrote.
ghost use Rattle.std.specs.Prelude.{◌≡◌, length};

use crate::bytes::{copy, get_4, num, plus, put};
use crate::case;
use crate::case::row_at;

// What is due where a file is too long, instead of a refusal's number: this and the file's number.
pub const TOO_LONG: u8 = 100;

// Room for a text and more.
pub fn room() -> [u8; 189400]
    ensures { 189400 ≡ length result }
{
    [0; 189400]
}

fn put_bytes(out: &mut [u8], at: usize, bytes: &[u8]) -> usize {
    let n = bytes.len();
    copy(out, at, bytes, 0, n);
    plus(at, n)
}

// ---- numbers

// The digit at a power of ten.
fn digit(n: usize, power: usize) -> usize {
    if power == 0 {
        return 0;
    }
    n / power % 10
}

// The digit at a power of ten would stand in front of the number.
fn is_front(n: usize, power: usize) -> bool {
    if power <= 1 {
        return false;
    }
    n < power
}

fn put_digit(out: &mut [u8], at: usize, front: bool, n: usize) -> usize {
    if front {
        return at;
    }
    put(out, at, (48 + n % 10) as u8);
    plus(at, 1)
}

// A number of at most ten digits.
fn put_number(out: &mut [u8], start: usize, n: usize) -> usize {
    let digits: usize = 10;
    let mut at = start;
    let mut power: usize = 1000000000;
    for i in 0..digits {
        at = put_digit(out, at, is_front(n, power), digit(n, power));
        power = power / 10;
    }
    at
}

// ---- lists

// The line of a row of the case's list.
fn put_line(out: &mut [u8], at: usize, f: &[u8], row: usize) -> usize {
    let from = row_at(f, row);
    let a = put_number(out, at, get_4(f, from));
    let b = put_bytes(out, a, b" ");
    let c = put_number(out, b, get_4(f, plus(from, 4)));
    let d = put_bytes(out, c, b" ");
    let e = put_number(out, d, num(f, plus(from, 8)));
    put_bytes(out, e, b"\n")
}

fn put_lines(out: &mut [u8], start: usize, f: &[u8], n: usize) -> usize {
    let mut at = start;
    for row in 0..n {
        at = put_line(out, at, f, row);
    }
    at
}

fn put_list(out: &mut [u8], at: usize, f: &[u8]) -> usize {
    let a = put_bytes(out, at, b"finds ");
    let b = put_number(out, a, case::count(f));
    let c = put_bytes(out, b, b"\n");
    put_lines(out, c, f, case::count(f))
}

// ---- the other answers

fn put_name(out: &mut [u8], at: usize, code: u8) -> usize {
    if code == TOO_LONG {
        return put_bytes(out, at, b"store.bin\n");
    }
    if code == TOO_LONG + 1 {
        return put_bytes(out, at, b"words.bin\n");
    }
    put_bytes(out, at, b"recipes.bin\n")
}

fn put_too_long(out: &mut [u8], at: usize, code: u8) -> usize {
    let a = put_bytes(out, at, b"too long ");
    put_name(out, a, code)
}

fn put_refused(out: &mut [u8], at: usize, code: u8) -> usize {
    let a = put_bytes(out, at, b"refused ");
    let b = put_number(out, a, code as usize);
    put_bytes(out, b, b"\n")
}

// The text where `code` is due; the case's list where it is 0.
pub(crate) fn put_text(out: &mut [u8], at: usize, f: &[u8], code: u8) -> usize {
    if code == 0 {
        return put_list(out, at, f);
    }
    if TOO_LONG <= code {
        return put_too_long(out, at, code);
    }
    put_refused(out, at, code)
}
