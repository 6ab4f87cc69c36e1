// Bodies of a match index: whether bytes are the written form of records in range (document 01, "Notes file": "A body is good if ..").
#![tactic(auto)]

ghost use Rattle.std.specs.Prelude.{◌≡◌, true, [], ◌∷◌, ℕ, ◌+◌, ◌*◌, ◌≤◌, ◌<◌, length, get_or, take, drop};
ghost use Rattle.spec.specs.Bytes.{fields_of, begins};
ghost use Rattle.spec.specs.Form.{form_in};
ghost use Rattle.spec.specs.Records.{good_body};
ghost use Rattle.bodies.specs.Check.{good_size, record_part, set_part, offsets_in_range, offsets_good, Lengths, Head, KeywordLengths};

use spec::Format;

// The `count` fields of `width` bytes at `at` are offsets in order.
fn in_order(bytes: &[u8], at: usize, width: usize, count: usize, n: usize, size: usize) -> bool
    requires { (width ≤ 8) × (at + width * count ≤ length bytes.now) × (1 ≤ n) }
    ensures { result ≡ offsets_in_range n size (fields_of width count (drop at bytes.now)) }
{
    let mut least: usize = 0;
    for k in 0..count {
        let offset = field::read_offset(bytes, at + width * k, width) as usize;
        if offset < least || size < n || size - n < offset {
            return false;
        }
        least = offset + 1;
    }
    true
}

// The `count` offsets of `width` bytes at `at`: all there, the first one the head's, in order.
#[tactic(auto, unfolding(crate::specs::Check::offsets_good))]
fn offsets_good(bytes: &[u8], at: usize, width: usize, count: usize, n: usize, size: usize) -> bool
    requires { (5 + width ≤ length bytes.now) × (at ≤ length bytes.now) × (width ≤ 3) × (1 ≤ count) × (count < 16777216) × (1 ≤ n) }
    ensures { result ≡ offsets_good width n size bytes.now at count }
{
    width * count <= bytes.len() - at
        && field::read(bytes, 5, width) == field::read(bytes, at, width)
        && in_order(bytes, at, width, count, n, size)
}

// Kind 0: one byte, 1 prefix, 2 suffix, 3 both.
fn tiny(bytes: &[u8], format: Format, n: usize, size: usize) -> Option<usize>
    requires { (1 ≤ length bytes.now) × (get_or bytes.now 1 0 ≡ 0) × (1 ≤ n) }
    ensures { result ≡ good_size format n size bytes.now }
{
    if bytes.len() < 3 {
        return None;
    }
    let both = bytes[2];
    if !(1..=3).contains(&both) {
        return None;
    }
    let most = size.min(n - 1);
    if most < usize::from(both % 2) || most < usize::from(both / 2) {
        return None;
    }
    Some(3)
}

// Kind 1 without an offset: the field of the first one is 0, and the record is not tiny.
fn none(bytes: &[u8], format: Format, n: usize, size: usize) -> Option<usize>
    requires { Head format 1 n size bytes.now × (get_or bytes.now 4 0 ≡ 0) }
    ensures { result ≡ good_size format n size bytes.now }
{
    if field::read(bytes, 5, format.width) != 0 {
        return None;
    }
    if bytes[2] <= 1 && bytes[3] <= 1 {
        return None;
    }
    Some(5 + format.width)
}

// Kind 1 with an offset.
fn single(bytes: &[u8], format: Format, n: usize, size: usize) -> Option<usize>
    requires { Head format 1 n size bytes.now × (1 ≤ get_or bytes.now 4 0) }
    ensures { result ≡ good_size format n size bytes.now }
{
    if bytes[4] != 1 {
        return None;
    }
    let offset = field::read(bytes, 5, format.width) as usize;
    if size < offset || size - offset < n {
        return None;
    }
    Some(5 + format.width)
}

// Kind 2: 2 to 254 offsets.
fn several(bytes: &[u8], format: Format, n: usize, size: usize) -> Option<usize>
    requires { Head format 2 n size bytes.now }
    ensures { result ≡ good_size format n size bytes.now }
{
    let count = usize::from(bytes[4]);
    if !(2..=254).contains(&count) {
        return None;
    }
    let width = format.width;
    let at = 5 + width;
    if !offsets_good(bytes, at, width, count, n, size) {
        return None;
    }
    Some(at + width * count)
}

// Kind 3: 255 offsets or more, with their exact count.
fn many(bytes: &[u8], format: Format, n: usize, size: usize) -> Option<usize>
    requires { Head format 3 n size bytes.now }
    ensures { result ≡ good_size format n size bytes.now }
{
    let width = format.width;
    let at = 5 + 2 * width;
    if bytes.len() < at || bytes[4] != 255 {
        return None;
    }
    let count = field::read(bytes, 5 + width, width) as usize;
    if count < 255 {
        return None;
    }
    if !offsets_good(bytes, at, width, count, n, size) {
        return None;
    }
    Some(at + width * count)
}

// The size of the good record that the bytes start with, for a keyword of length n and a chunk of length `size`, if they start with one.
#[tactic(auto, unfolding(spec::specs::Records::reach))]
fn record_good(bytes: &[u8], format: Format, n: usize, size: usize) -> Option<usize>
    requires { (1 ≤ length bytes.now) × Lengths format n size }
    ensures { result ≡ good_size format n size bytes.now }
{
    if bytes.len() < 2 {
        return None;
    }
    let kind = bytes[1];
    if kind == 0 {
        return tiny(bytes, format, n, size);
    }
    if 3 < kind || bytes.len() < 5 + format.width {
        return None;
    }
    let most = size.min(n - 1);
    if most < usize::from(bytes[2]) || most < usize::from(bytes[3]) {
        return None;
    }
    match kind {
        2 => several(bytes, format, n, size),
        3 => many(bytes, format, n, size),
        _ if bytes[4] == 0 => none(bytes, format, n, size),
        _ => single(bytes, format, n, size),
    }
}

// The body's next number, at `at`, is k.
fn is_next(body: &[u8], at: usize, k: usize) -> bool
    ensures { result ≡ begins (k ∷ []) (drop at body.now) }
{
    at < body.len() && k == usize::from(body[at])
}

// How many bytes keyword k's record at `at` takes, where the body's next number is k: 0 where its set is next, None where the record is not good.
fn record_part(
    body: &[u8],
    at: usize,
    format: Format,
    k: usize,
    n: usize,
    size: usize,
) -> Option<usize>
    requires { (at ≤ length body.now) × (begins (k ∷ []) (drop at body.now) ≡ true) × Lengths format n size }
    ensures { result ≡ record_part format n k size (drop at body.now) }
{
    if body_sets::is_set(body, at, format, k) {
        return Some(0);
    }
    record_good(&body[at..], format, n, size)
}

// How many bytes keyword k's set at `at` takes: 0 where it is not next, None where it is not good.
fn set_part(
    body: &[u8],
    at: usize,
    format: Format,
    k: usize,
    n: usize,
    size: usize,
) -> Option<usize>
    requires { (at ≤ length body.now) × (n ≤ 32) }
    ensures { result ≡ set_part format n k size (drop at body.now) }
{
    if !body_sets::is_set(body, at, format, k) {
        return Some(0);
    }
    if body_sets::set_good(&body[at..], n, size) {
        Some(6)
    } else {
        None
    }
}

// The body is the written form of records in range, for keywords of these lengths and a chunk of length `size`.
pub fn body_good(body: &[u8], format: Format, lengths: &[usize], count: usize, size: usize) -> bool
    requires { KeywordLengths format count size lengths.now }
    ensures { result ≡ good_body (form_in format) (take count lengths.now) size body.now }
{
    let mut at: usize = 0;
    for (k, &n) in lengths[..count].iter().enumerate() {
        if !is_next(body, at, k) {
            continue;
        }
        let Some(first) = record_part(body, at, format, k, n, size) else {
            return false;
        };
        let behind = at + first;
        let Some(second) = set_part(body, behind, format, k, n, size) else {
            return false;
        };
        at = behind + second;
    }
    at == body.len()
}
