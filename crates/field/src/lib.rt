// Little-endian fields of any width, runs of bytes copied into a buffer, and comparison of bytes.
#![tactic(auto)]

ghost use Rattle.std.specs.Prelude.{◌≡◌, ◌+◌, ◌≤◌, length};
ghost use Rattle.spec.specs.Bytes.{field_at, le_bytes, splice, same};

// The field of `width` bytes at `at`.
pub fn read(bytes: &[u8], at: usize, width: usize) -> u64
    requires { (width ≤ 8) × (at + width ≤ length bytes.now) }
    ensures { result ≡ field_at bytes.now at width }
{
    let mut v: u64 = 0;
    for k in (0..width).rev() {
        v = v * 256 + bytes[at + k] as u64;
    }
    v
}

// The same, for a width that only the index tells: 2 and 3, the widths of an offset inside a chunk, are each read without a loop.
pub fn read_offset(bytes: &[u8], at: usize, width: usize) -> u64
    requires { (width ≤ 8) × (at + width ≤ length bytes.now) }
    ensures { result ≡ field_at bytes.now at width }
{
    if width == 2 {
        return read(bytes, at, 2);
    }
    if width == 3 {
        return read(bytes, at, 3);
    }
    read(bytes, at, width)
}

// Writes a number as a field of `width` bytes at `at`.
pub fn write(out: &mut [u8], at: usize, width: usize, v: u64)
    requires { at + width ≤ length out.old }
    ensures { out.new ≡ splice out.old at (le_bytes width v) }
{
    let mut rest = v;
    for k in 0..width {
        out[at + k] = (rest % 256) as u8;
        rest = rest / 256;
    }
}

// Copies bytes into the buffer, from `at` on.
pub fn copy(out: &mut [u8], at: usize, bytes: &[u8])
    requires { at + length bytes.now ≤ length out.old }
    ensures { out.new ≡ splice out.old at bytes.now }
{
    for i in 0..bytes.len() {
        out[at + i] = bytes[i];
    }
}

// The two runs of bytes are the same.
pub fn equal(a: &[u8], b: &[u8]) -> bool
    ensures { result ≡ same a.now b.now }
{
    a == b
}
