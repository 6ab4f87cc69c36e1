// The match records of a chunk in their written form but for the lists of offsets, from the tally of the log that the walk over the trie leaves; each
// with its set of inner starts behind it (request #108).
#![tactic(auto)]

ghost use Rattle.std.specs.Prelude.{◌≡◌, ℕ, ◌+◌, ◌≤◌, ◌<◌, min, length};
ghost use Rattle.spec.specs.Scan.{scan_body};
ghost use Rattle.spec.specs.Form.{newest};
ghost use Rattle.spec.specs.Records.{kind_of, set_bytes};
ghost use Rattle.offset_lists.specs.Patches.{patched};
ghost use Rattle.records.specs.Bodies.{found_at, start_of, place_of, started_of, Tells};
ghost use Rattle.records.specs.Summaries.{summary_of, empty_in, tiny_in, tiny_part, head_part, record_part, start_bytes, listed, Wrote, CanStart};

// ---- summaries: what decides how a record is written

#[derive(Clone, Copy)]
struct Summary {
    prefix: usize,
    suffix: usize,
    // how many offsets there are, and the first (0 where there is none)
    count: usize,
    first: usize,
    // the set of inner starts
    set: u32,
}

// The record is empty, so nothing is written of it but its set.
#[tactic(auto, unfolding(crate::specs::Summaries::empty_in))]
fn is_empty(s: Summary) -> bool
    ensures { result ≡ empty_in s }
{
    s.prefix == 0 && s.suffix == 0 && s.count == 0
}

// The longest prefix or suffix of a tiny record, and what a suffix of length 1 adds to its byte.
const TINY_MOST: usize = 1;

const TINY_STEP: usize = 2;

// The record is tiny.
#[tactic(auto, unfolding(crate::specs::Summaries::tiny_in))]
fn is_tiny(s: Summary) -> bool
    ensures { (n : ℕ) → result ≡ tiny_in newest n s }
{
    s.count == 0 && s.prefix <= TINY_MOST && s.suffix <= TINY_MOST && !is_empty(s)
}

// The most offsets of a record of kind 2; with more the exact count is written too, kind 3.
const LISTED_MOST: usize = 254;

// The kind of a full record.
fn kind_of(count: usize) -> u8
    ensures { result ≡ kind_of count }
{
    if count <= 1 {
        1
    } else if count <= LISTED_MOST {
        2
    } else {
        3
    }
}

// The smaller number, worked out from the comparison as 0 or 1, without a branch.
fn smaller(a: usize, b: usize) -> usize
    ensures { result ≡ min a b }
{
    let above = (b < a) as usize;
    a * (1 - above) + b * above
}

// The largest count byte.
const COUNT_MOST: usize = 255;

// The count byte: the smaller of the count and FF.
fn count_byte(count: usize) -> u8
    ensures { result ≡ min count 255 }
{
    smaller(count, COUNT_MOST) as u8
}

const TINY: usize = 3;

const HEAD: usize = 8;

// A set that is not written; the bytes of one that is: number, kind, and the set in 4 bytes.
const NO_STARTS: u32 = 0;

const SET: usize = 6;

// ---- lengths

// How many bytes the record has before its list of offsets.
fn record_size(s: Summary) -> usize
    ensures { (n k : ℕ) → result ≡ length (record_part newest n k s) }
{
    if is_empty(s) {
        0
    } else if is_tiny(s) {
        TINY
    } else if s.count <= LISTED_MOST {
        HEAD
    } else {
        HEAD + offset_lists::WIDTH
    }
}

// How many bytes the set has.
fn set_size(set: u32) -> usize
    ensures { (k : ℕ) → result ≡ length (set_bytes k set) }
{
    if set == NO_STARTS { 0 } else { SET }
}

// How many bytes stand before the list of offsets, the set included: a record that has a set lists no offsets.
fn start_size(s: Summary) -> usize
    ensures { (n k : ℕ) → result ≡ length (start_bytes newest n k s) }
{
    record_size(s) + set_size(s.set)
}

// How many offsets are listed.
#[tactic(auto, unfolding(crate::specs::Summaries::listed))]
fn listed_of(count: usize) -> usize
    ensures { result ≡ listed count }
{
    if count <= 1 { 0 } else { count }
}

// ---- writing

// Writes a tiny record at the buffer's start.
fn put_tiny(out: &mut [u8], k: usize, s: Summary) -> usize
    requires { (3 ≤ length out.old) × (k < 256) × (s.prefix ≤ 1) × (s.suffix ≤ 1) }
    ensures { Wrote out.old 0 (tiny_part newest k s) out.new result }
{
    out[0] = k as u8;
    out[1] = 0;
    out[2] = (s.prefix + TINY_STEP * s.suffix) as u8;
    TINY
}

// Writes the head of a full record at the buffer's start.
fn put_head(out: &mut [u8], k: usize, s: Summary) -> usize
    requires { (5 + newest.width ≤ length out.old) × (k < 256) × (s.prefix < 256) × (s.suffix < 256) }
    ensures { Wrote out.old 0 (head_part newest k s) out.new result }
{
    let kind = kind_of(s.count);
    let count = count_byte(s.count);
    out[0] = k as u8;
    out[1] = kind;
    out[2] = s.prefix as u8;
    out[3] = s.suffix as u8;
    out[4] = count;
    field::write(out, 5, offset_lists::WIDTH, s.first as u64);
    HEAD
}

// Writes keyword k's record up to its list of offsets at the buffer's start: nothing where the record is empty.
fn put_record(out: &mut [u8], k: usize, s: Summary) -> usize
    requires { CanStart out.old 0 k s }
    ensures { (n : ℕ) → Wrote out.old 0 (record_part newest n k s) out.new result }
{
    if is_empty(s) {
        return 0;
    }
    if is_tiny(s) {
        return put_tiny(out, k, s);
    }
    let head = put_head(out, k, s);
    let count = s.count;
    if count <= LISTED_MOST {
        return head;
    }
    field::write(out, head, offset_lists::WIDTH, count as u64);
    head + offset_lists::WIDTH
}

// Writes keyword k's set into the buffer at `at`: nothing where it is empty.
fn put_set(out: &mut [u8], at: usize, k: usize, set: u32) -> usize
    requires { (at + length (set_bytes k set) ≤ length out.old) × (k < 256) }
    ensures { Wrote out.old at (set_bytes k set) out.new result }
{
    if set == NO_STARTS {
        return at;
    }
    out[at] = k as u8;
    out[at + 1] = 4;
    field::write(out, at + 2, 4, set as u64);
    at + SET
}

// Writes what stands before the list of offsets of keyword k at the buffer's start: the record, and the set behind it.
fn put_start(out: &mut [u8], k: usize, s: Summary) -> usize
    requires { CanStart out.old 0 k s }
    ensures { (n : ℕ) → Wrote out.old 0 (start_bytes newest n k s) out.new result }
{
    let end = put_record(out, k, s);
    put_set(out, end, k, s.set)
}

// ---- bodies: the records of one chunk, by rising keyword number

// For each node and keyword, the length of the keyword's longest proper beginning that ends the node: as many numbers a node.
const TAILS: usize = 16;

// The summary of keyword k's record: count and first offset from the tally, the prefix from the walk's last node, suffix and set
// from the chunk.
fn summary_of(
    list: &[u8],
    words: keywords::Keywords,
    chunk: &[u8],
    tails: &[u8],
    last: usize,
    tally: logs::Tally,
    k: usize,
) -> Summary
    requires { Tells list.now words chunk.now tails.now last tally × (k < words.count) }
    ensures { result ≡ summary_of (found_at list.now chunk.now k) }
{
    let at = words.start[k];
    let word = &list[at..at + words.len[k]];
    Summary {
        prefix: tails[last * TAILS + k] as usize,
        suffix: matcher::suffix_of(word, chunk, words.flag),
        count: tally.counts[k],
        first: tally.firsts[k],
        set: matcher::set_of(word, chunk, words.flag),
    }
}

// The length of the chunk's body.
pub fn body_size(
    list: &[u8],
    words: keywords::Keywords,
    chunk: &[u8],
    tails: &[u8],
    last: usize,
    tally: logs::Tally,
) -> usize
    requires { Tells list.now words chunk.now tails.now last tally }
    ensures { result ≡ length (scan_body newest list.now chunk.now) }
{
    let mut size = 0;
    for k in 0..words.count {
        let s = summary_of(list, words, chunk, tails, last, tally, k);
        size += start_size(s) + offset_lists::WIDTH * listed_of(s.count);
    }
    size
}

// A body that is begun: its length, and where the list of offsets of each keyword goes.
#[derive(Clone, Copy)]
pub struct Started {
    pub size: usize,
    pub cursors: [usize; 16],
}

// Writes the chunk's body without the lists of offsets at the buffer's start.
pub fn put_starts(
    out: &mut [u8],
    list: &[u8],
    words: keywords::Keywords,
    chunk: &[u8],
    tails: &[u8],
    last: usize,
    tally: logs::Tally,
) -> Started
    requires { Tells list.now words chunk.now tails.now last tally × (length (scan_body newest list.now chunk.now) ≤ length out.old) }
    ensures { (out.new ≡ patched words.count (place_of list.now chunk.now) (start_of list.now
        chunk.now) out.old) × (result ≡ started_of list.now chunk.now) }
{
    let mut cursors = [0usize; 16];
    let mut size = 0;
    for k in 0..words.count {
        let s = summary_of(list, words, chunk, tails, last, tally, k);
        let end = size + put_start(&mut out[size..], k, s);
        cursors[k] = end;
        size = end + offset_lists::WIDTH * listed_of(s.count);
    }
    Started { size, cursors }
}
