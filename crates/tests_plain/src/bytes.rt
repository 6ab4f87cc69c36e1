// Total access to bytes, and sums that wrap: the tests' own tools, written apart from the library that is tested.

// A byte, 0 past the end.
pub fn get(s: &[u8], i: usize) -> u8 {
    if i < s.len() { s[i] } else { 0 }
}

// A byte as a number.
pub fn num(s: &[u8], i: usize) -> usize {
    wide(get(s, i))
}

fn wide(b: u8) -> usize {
    b as usize
}

// Stores a byte, if it lies within.
pub fn put(s: &mut [u8], i: usize, b: u8) {
    if i < s.len() {
        s[i] = b;
    }
}

pub fn plus(a: usize, b: usize) -> usize {
    std::num::wrapping_add_usize(a, b)
}

// The difference, 0 where it would be negative.
pub fn less(a: usize, b: usize) -> usize {
    if b < a { a - b } else { 0 }
}

pub fn least(a: usize, b: usize) -> usize {
    if a < b { a } else { b }
}

// The n bytes from `at` on, or the empty part where they do not lie within.
pub fn part(s: &[u8], at: usize, n: usize) -> &[u8] {
    if s.len() < at {
        return &s[..0];
    }
    if s.len() - at < n {
        return &s[..0];
    }
    &s[at..at + n]
}

// Fields of 2, 3 and 4 bytes.
pub fn put_2(s: &mut [u8], at: usize, v: usize) {
    put(s, at, (v % 256) as u8);
    put(s, plus(at, 1), (v / 256 % 256) as u8);
}

pub fn put_3(s: &mut [u8], at: usize, v: usize) {
    put_2(s, at, v);
    put(s, plus(at, 2), (v / 65536 % 256) as u8);
}

pub fn put_4(s: &mut [u8], at: usize, v: usize) {
    put_2(s, at, v % 65536);
    put_2(s, plus(at, 2), v / 65536 % 65536);
}

fn get_2(s: &[u8], at: usize) -> usize {
    num(s, at) % 256 + num(s, plus(at, 1)) % 256 * 256
}

pub(crate) fn get_3(s: &[u8], at: usize) -> usize {
    get_2(s, at) % 65536 + num(s, plus(at, 2)) % 256 * 65536
}

pub fn get_4(s: &[u8], at: usize) -> usize {
    get_2(s, at) % 65536 + get_2(s, plus(at, 2)) % 65536 * 65536
}

// Copies n bytes.
pub fn copy(to: &mut [u8], at: usize, from: &[u8], start: usize, n: usize) {
    for i in 0..n {
        put(to, plus(at, i), get(from, plus(start, i)));
    }
}

// Stores b n times.
pub fn repeat(to: &mut [u8], at: usize, n: usize, b: u8) {
    for i in 0..n {
        put(to, plus(at, i), b);
    }
}

// Every byte of s becomes b.
pub fn fill(s: &mut [u8], b: u8) {
    let n = s.len();
    for i in 0..n {
        put(s, i, b);
    }
}

// n bytes of a from `at` on are those of b from `bt` on.
pub fn same(a: &[u8], at: usize, b: &[u8], bt: usize, n: usize) -> bool {
    for i in 0..n {
        if get(a, plus(at, i)) != get(b, plus(bt, i)) {
            return false;
        }
    }
    true
}

// Every byte of s from `at` on is b.
pub fn all(s: &[u8], at: usize, b: u8) -> bool {
    let n = s.len();
    for i in 0..n {
        if at <= i {
            if get(s, i) != b {
                return false;
            }
        }
    }
    true
}

// Numbers from a seed.
pub fn next(seed: u64) -> u64 {
    ((seed % 2147483647) * 48271 + 11) % 2147483647
}

// A number below n (0 where n is 0), from a seed.
pub fn pick(seed: u64, n: usize) -> usize {
    if n == 0 {
        return 0;
    }
    (seed % 2147483647 / 16) as usize % n
}
