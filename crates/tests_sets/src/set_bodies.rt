// Bodies of one chunk with sets of inner starts, good and damaged, told byte by byte. The keywords are ABABA, BAB, AB and 32 As; the chunk is A,
// BA or ABAB. Its one file names it once, and no body tells an occurrence, so that the list of a good one is empty.
use tests_plain::bytes::{get, less, plus, put, put_4};
use tests_plain::case;
use tests_plain::forms::SETS;
use tests_plain::model::file_at;
use tests_plain::records::note_all;
use tests_vaults::encode::encode;
use tests_vaults::fill::put_count;
use tests_vaults::small::{put_words, small_chunk};

pub(crate) const ALL: usize = 56;

// A line of 80 hexadecimal digits for each, with spaces behind: the chunk, what the body has (a counter), the number that is due under a mark
// with sets and under an older one, a byte each; then the body.
const BODIES: [u8; 4480] = *b"\
    0000000D0000030004040000000104020000000200010300030304FEFFFF7F                  \
    0000000D00040E000000                                                            \
    0000000D000002000408000000020003                                                \
    0000000D030402000000                                                            \
    0000000D030001030400000040                                                      \
    0100000D00010102000000000004020000000101020100000000020003                      \
    0100000D000406000000                                                            \
    0100000D0304FEFFFF3F                                                            \
    00010000000003020001030003                                                      \
    00010000                                                                        \
    00020D0D000003000405000000                                                      \
    00020D0D000401000000                                                            \
    00020D0D0300030304FFFFFF7F                                                      \
    01020D0D000403000000                                                            \
    00030D0D000003000414000000                                                      \
    00030D0D000410000000                                                            \
    00030D0D000420000000                                                            \
    00030D0D010404000000                                                            \
    01030D0D000408000000                                                            \
    01030D0D0304FEFFFF7F                                                            \
    00040D0D000003000404000080                                                      \
    00040D0D000400000080                                                            \
    00040D0D0304FEFFFFFF                                                            \
    01040D0D030400000080                                                            \
    00050D0D000003000400000000                                                      \
    00050D0D010400000000                                                            \
    01050D0D0001010200000000000400000000                                            \
    00060D0D000003000404000000000404000000                                          \
    00060D0D000404000000000408000000                                                \
    00060D0D030402000000030404000000                                                \
    00070D0D000404000000000003                                                      \
    00070D0D0304FEFFFF7F030003                                                      \
    01070D0D0004020000000001010200000000                                            \
    00080D0D000003020001000404000000                                                \
    00080D0D000003010402000000000404000000                                          \
    00080D0D0000030300030004040000000304FEFFFF7F                                    \
    00090D0D00000300                                                                \
    00090D0D0000030004                                                              \
    00090D0D000003000404                                                            \
    00090D0D00000300040400                                                          \
    00090D0D0000030004040000                                                        \
    00090D0D0004040000                                                              \
    00090D0D0000030004040000020001                                                  \
    000A0D0D020001020402000000                                                      \
    000A0D0D020402000000                                                            \
    000A0D0D020400000000                                                            \
    010B0D0D010402000000                                                            \
    010B0D0D0101020100000000010402000000                                            \
    020B0D0D000402000000                                                            \
    020B0D0D010402000000                                                            \
    000C0D0D040402000000                                                            \
    000C0D0D030003040402000000                                                      \
    000C0D0D000003FF0402000000                                                      \
    000D0D0D000502000000                                                            \
    000D0D0D000003000504000000                                                      \
    000D0D0D000503                                                                  ";

// ---- lines

fn digit(b: u8) -> u8 {
    if b < 0x41 {
        return std::num::wrapping_sub_u8(b, 0x30);
    }
    std::num::wrapping_sub_u8(b, 0x37)
}

// Byte j of line i.
fn told(i: usize, j: usize) -> u8 {
    let at = plus(80 * (i % ALL), 2 * (j % 40));
    digit(get(&BODIES, at)) % 16 * 16 + digit(get(&BODIES, plus(at, 1))) % 16
}

// Whether line i has a byte j.
fn is_there(i: usize, j: usize) -> bool {
    get(&BODIES, plus(80 * (i % ALL), 2 * (j % 40))) != 0x20
}

// Byte j of line i at a place, if it is there; the place behind.
fn put_byte(out: &mut [u8], at: usize, i: usize, j: usize) -> usize {
    if !is_there(i, j) {
        return at;
    }
    put(out, at, told(i, j));
    plus(at, 1)
}

// The body of line i from a place on; the place behind.
fn put_body(out: &mut [u8], start: usize, i: usize) -> usize {
    let n: usize = 40;
    let mut at = start;
    for j in 4..n {
        at = put_byte(out, at, i, j);
    }
    at
}

// The counter of body i under a mark.
pub(crate) fn kind_of(form: usize, i: usize) -> usize {
    if form < SETS {
        if told(i, 3) != 0 {
            return 14;
        }
    }
    told(i, 1) as usize % 14
}

fn code_of(form: usize, i: usize) -> u8 {
    if form < SETS { told(i, 3) } else { told(i, 2) }
}

// ---- cases

fn put_chunk(m: &mut [u8], c: u8) {
    if c == 0 {
        return small_chunk(m, 0, b"A");
    }
    if c == 1 {
        return small_chunk(m, 0, b"BA");
    }
    small_chunk(m, 0, b"ABAB")
}

fn put_model(m: &mut [u8], i: usize) {
    put_words(
        m,
        4,
        b"\x05ABABA\x03BAB\x02AB\x20AAAAAAAAAAAAAAAAAAAAAAAAAAAAAAAA",
    );
    put_chunk(m, told(i, 0));
    put(m, 2, 1);
    put(m, 3, 1);
    put(m, file_at(0), 1);
    note_all(m);
}

// The index's body becomes body i; its entry stands before it.
fn put_other_body(f: &mut [u8], i: usize) {
    let entry = plus(case::index_at(f), plus(8, case::length_of(f, 0)));
    let at = plus(entry, 32);
    let end = put_body(f, at, i);
    put_4(f, plus(entry, 28), less(end, at));
    case::put_length(f, 2, end);
}

// Body i under a mark, as a case.
pub(crate) fn put_case(f: &mut [u8], form: usize, i: usize) {
    let mut m = case::room();
    put_model(&mut m, i);
    encode(f, form, &m);
    put_other_body(f, i);
    put(f, 2, code_of(form, i));
    put_count(f, 0);
}
