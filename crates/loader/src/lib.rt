// The match records of a chunk, read from its body in a match index as plain numbers. No offset is copied: a row says where the index
// has them. A set is read when it is asked for, behind the record of its keyword's row.
#![tactic(auto)]

ghost use Rattle.std.specs.Prelude.{◌≡◌, ◌++◌, ◌+◌, ◌≤◌, ◌<◌, length, drop, get_or};
ghost use Rattle.spec.specs.Bytes.{part};
ghost use Rattle.spec.specs.Form.{form_in};
ghost use Rattle.spec.specs.Records.{set_is_next, record_taken, set_taken, read_keyword};
ghost use Rattle.loader.specs.Loaded.{keyword_taken, row_at, row_end, set_at, rows_from, Loadable};

use spec::Format;

// What a suffix of length 1 adds to the tiny byte.
const TINY_STEP: usize = 2;

// A row is four numbers: prefix, suffix, the place of the list of offsets, and how many there are.
const PLACE: usize = 2;

const LEFT: usize = 3;

// The kind of a set, and its bytes: keyword number, kind, the set in four bytes.
const SET: u8 = 4;

const SET_SIZE: usize = 6;

// Keyword k's set is next.
fn is_set(index: &[u8], format: Format, at: usize, len: usize, k: usize) -> bool
    requires { at + len ≤ length index.now }
    ensures { result ≡ set_is_next (form_in format) k (part index.now at len) }
{
    format.sets && 2 <= len && usize::from(index[at]) == k && index[at + 1] == SET
}

// The row of keyword k, whose number is next with a kind other than 0, 1 and 2: a record with its exact count, or no prefix, suffix or offset
// where it has a set alone.
fn exact_at(index: &[u8], format: Format, at: usize, len: usize, k: usize) -> [usize; 4]
    requires { (at + len ≤ length index.now) × (keyword_taken (form_in format) k (part index.now at len) ≤ len) × (format.width ≤ 3)
        × (0 < len) × (get_or index.now at 0 ≡ k) × (3 ≤ get_or index.now (at + 1) 0) }
    ensures { result ≡ row_at format.width at (record_taken (form_in format) k (part index.now at len))
        (read_keyword (form_in format) k (part index.now at len)) }
{
    if is_set(index, format, at, len, k) {
        return [0, 0, at, 0];
    }
    let width = format.width;
    let prefix = usize::from(index[at + 2]);
    let suffix = usize::from(index[at + 3]);
    let exact = field::read_offset(index, at + (5 + width), width) as usize;
    [prefix, suffix, at + (5 + 2 * width), exact]
}

// The row of keyword k, whose number is next; `len` bytes of the body are left from there. Only a kind other than 0, 1 and 2 may be a set's.
fn record_at(index: &[u8], format: Format, at: usize, len: usize, k: usize) -> [usize; 4]
    requires { (at + len ≤ length index.now) × (keyword_taken (form_in format) k (part index.now at len) ≤ len) × (format.width ≤ 3)
        × (0 < len) × (get_or index.now at 0 ≡ k) }
    ensures { result ≡ row_at format.width at (record_taken (form_in format) k (part index.now at len))
        (read_keyword (form_in format) k (part index.now at len)) }
{
    let width = format.width;
    let kind = index[at + 1];
    let prefix = usize::from(index[at + 2]);
    if kind == 0 {
        return [prefix % TINY_STEP, prefix / TINY_STEP, at + 3, 0];
    }
    let suffix = usize::from(index[at + 3]);
    let count = usize::from(index[at + 4]);
    if kind == 1 {
        if count == 0 {
            return [prefix, suffix, at + (5 + width), 0];
        }
        return [prefix, suffix, at + 5, 1];
    }
    if kind == 2 {
        return [prefix, suffix, at + (5 + width), count];
    }
    exact_at(index, format, at, len, k)
}

// Where keyword k's set ends, if it is next at `behind`; `left` bytes of the body are left from there.
fn set_end(index: &[u8], format: Format, behind: usize, left: usize, k: usize) -> usize
    requires { behind + left ≤ length index.now }
    ensures { result ≡ behind + set_taken (form_in format) k (part index.now behind left) }
{
    if is_set(index, format, behind, left, k) {
        return behind + SET_SIZE;
    }
    behind
}

// The same, told by the number behind the record wherever that is another's: there is no set then, whatever the format.
fn next_at(index: &[u8], format: Format, behind: usize, left: usize, k: usize) -> usize
    requires { behind + left ≤ length index.now }
    ensures { result ≡ behind + set_taken (form_in format) k (part index.now behind left) }
{
    if left == 0 || usize::from(index[behind]) != k {
        return behind;
    }
    set_end(index, format, behind, left, k)
}

// A keyword's row, and where the next keyword's bytes start.
#[derive(Drop)]
struct Step {
    row: [usize; 4],
    next: usize,
}

// The row of keyword k: no prefix, suffix or offset where its number is not next. A record ends where its list of offsets does, and its set
// is behind it.
fn keyword_at(index: &[u8], format: Format, at: usize, len: usize, k: usize) -> Step
    requires { (at + len ≤ length index.now) × (keyword_taken (form_in format) k (part index.now at len) ≤ len) × (format.width ≤ 3) }
    ensures { (result.row ≡ row_at format.width at (record_taken (form_in format) k (part index.now at len))
        (read_keyword (form_in format) k (part index.now at len)))
        × (result.next ≡ at + keyword_taken (form_in format) k (part index.now at len)) }
{
    if len == 0 || usize::from(index[at]) != k {
        return Step {
            row: [0, 0, at, 0],
            next: at,
        };
    }
    let width = format.width;
    let row = record_at(index, format, at, len, k);
    let behind = row[PLACE] + width * row[LEFT];
    let next = next_at(index, format, behind, at + len - behind, k);
    Step { row, next }
}

// The rows of `count` keywords, from the body of `len` bytes at `at`.
pub fn load(
    index: &[u8],
    format: Format,
    at: usize,
    len: usize,
    count: usize,
    rows: &mut [[usize; 4]; 16],
)
    requires { Loadable format index.now at len count rows.old }
    ensures { rows.new ≡ rows_from (form_in format) 0 count at (part index.now at len) ++ drop count rows.old }
{
    let end = at + len;
    let mut place = at;
    for k in 0..count {
        let step = keyword_at(index, format, place, end - place, k);
        let row = step.row;
        rows[k] = row;
        place = step.next;
    }
}

// The set of keyword k, whose row is loaded from a body that ends at `end`; empty where it has none.
pub fn set_at(index: &[u8], format: Format, row: [usize; 4], end: usize, k: usize) -> u32
    requires { (row_end format.width row ≤ end) × (end ≤ length index.now) }
    ensures { result ≡ set_at (form_in format) index.now end row k }
{
    let at = row[PLACE] + format.width * row[LEFT];
    let left = end - at;
    if left < SET_SIZE || !is_set(index, format, at, left, k) {
        return 0;
    }
    field::read(index, at + 2, 4) as u32
}
