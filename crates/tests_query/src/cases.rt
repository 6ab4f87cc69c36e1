// The cases of queries: generated vaults and vaults of small chunks, pairs of faults in the small vault, a file at the longest length, queries
// whose lines are told.
use crate::plain::{put_lines, query_code};
use crate::runs::query_runs;
use tests_plain::bytes::{copy, get, get_4, least, next, num, part, pick, plus, put};
use tests_plain::case;
use tests_plain::case::first;
use tests_plain::forms::{NEW, OLD};
use tests_plain::model::{file_at, keywords};
use tests_plain::records::note_all;
use tests_report::report;
use tests_report::report::report_cases;
use tests_report::tally::expect;
use tests_vaults::encode::encode;
use tests_vaults::fill::{put_damaged, settle_all};
use tests_vaults::long;
use tests_vaults::make::make;
use tests_vaults::small::{put_words, small, small_chunk};
use tests_vaults::tiny::make_small;

// What is queried: generated vaults; vaults of small chunks; the small vault with a pair of faults; a long file; one vault, with queries whose
// lines are told.
const AS_MADE: usize = 0;

const SMALL: usize = 1;

const FAULTY: usize = 2;

const LONG: usize = 3;

const TOLD: usize = 4;

// ---- a case

// The lines that are due where `code` is; how many bytes they are.
fn put_due(counts: &mut [u64], m: &[u8], query: &[u8], code: u8, due: &mut [u8]) -> usize {
    let mut text = [0u8; 1000];
    if code != 0 {
        return 0;
    }
    put_lines(counts, m, query, &mut text, due)
}

// The lines that are due go to `due`; how many bytes they are.
fn run_query(counts: &mut [u64], m: &[u8], f: &[u8], query: &[u8], due: &mut [u8]) -> usize {
    let code = first(case::join_code(f), query_code(m, query));
    let n = put_due(counts, m, query, code, due);
    let lines = part(due, 0, n);
    query_runs(counts, case::index(f), case::recipes(f), query, lines, code);
    n
}

// ---- generated vaults

// Lengths, mostly those of short queries.
const LENGTHS: [u8; 16] = *b"\x02\x02\x02\x02\x02\x03\x03\x04\x05\x06\x07\x08\x00\x01\x09\x0A";

// Numbers below the keyword count; in some queries one of them is the count, or one more. How many they are.
fn draw(query: &mut [u8], words: usize, seed: u64) -> usize {
    let n = num(&LENGTHS, pick(seed, 16));
    let mut s = next(seed);
    for i in 0..n {
        s = next(s);
        put(query, i, (pick(s, words) % 256) as u8);
    }
    let a = next(s);
    if pick(a, 12) == 0 {
        put(
            query,
            pick(next(a), n),
            (plus(words, pick(a / 4, 2)) % 256) as u8,
        );
    }
    n
}

// A query of a vault whose index is under a mark.
fn run_drawn(counts: &mut [u64], m: &[u8], form: usize, seed: u64) {
    let mut f = case::room();
    let mut query = [0u8; 10];
    let mut due = [0u8; 480];
    encode(&mut f, form, m);
    let n = draw(&mut query, keywords(m), seed);
    run_query(counts, m, &f, part(&query, 0, n), &mut due);
}

// Five queries, one under each of the older marks.
fn run_forms(counts: &mut [u64], m: &[u8], i: usize) {
    let n: usize = 5;
    for q in 0..n {
        let seed = next((8 * (i % 1000000) + q % 8) as u64);
        run_drawn(counts, m, least(q % 8 + OLD, NEW), next(seed));
    }
}

fn make_vault(m: &mut [u8], way: usize, i: usize) {
    let mut text = [0u8; 1000];
    if way == SMALL {
        return make_small(m, &mut text, i);
    }
    make(m, i)
}

fn run_vault(counts: &mut [u64], way: usize, i: usize) {
    let mut m = case::room();
    make_vault(&mut m, way, i);
    note_all(&mut m);
    run_forms(counts, &m, i);
}

// ---- refusals

// Numbers of a query that is none, by its length: 0, 1, 9; or by its second number, which is the keyword count of the small vault.
const BAD: [u8; 9] = *b"\x00\x02\x00\x00\x00\x00\x00\x00\x00";

const BAD_LENGTHS: [u8; 4] = *b"\x00\x01\x09\x02";

// Two faults of index or recipes, which are those from 29 on, under a mark.
fn run_faulty(counts: &mut [u64], t: usize) {
    let mut m = case::room();
    let mut f = case::room();
    let mut due = [0u8; 4];
    let form = t / 1296 % 3 + 1;
    let i = t / 36 % 36 + 29;
    let j = t % 36 + 29;
    small(&mut m);
    note_all(&mut m);
    put_damaged(&mut f, form, &m, i, j);
    settle_all(&mut f, form, i, j);
    let query = part(&BAD, 0, num(&BAD_LENGTHS, t % 4));
    run_query(counts, &m, &f, query, &mut due);
}

// A file that names chunk 0, of 65,535 bytes, 65,538 or 65,537 times, but another chunk at the second place: chunk 1, of 1 byte, or chunk 2, which
// is not there. What a query of one number must answer under each mark; then one of two numbers, which has no line.
const LONG_CODES: [u8; 14] = *b"\x10\x15\x11\x0F\x10\x15\x11\x0F\x10\x15\x15\x0F\x10\x00";

fn run_long(counts: &mut [u64], t: usize) {
    let mut index = [0u8; 78];
    let mut recipes = long::room();
    let n = plus(65537, num(b"\x01\x00\x00\x01", t % 4));
    long::put_long_index(&mut index, t / 4 % 3 + 1, 65535);
    long::put_long_recipes(&mut recipes, n, num(b"\x00\x00\x01\x02", t % 4));
    let r = part(&recipes, 0, 8 + 20 * (n % 70000));
    let query = part(b"\x00\x00", 0, t / 12 % 2 + 1);
    query_runs(counts, &index, r, query, &[0u8; 0], get(&LONG_CODES, t));
}

// ---- lines that are told

// The keywords are AAAA, AB and BA. The files: seven As, eight, ABBA, ABA, nothing, 32 As, ABAB.
fn put_told(m: &mut [u8]) {
    copy(m, 0, b"\x03\x00\x03\x07", 0, 4);
    put_chunks(m);
    put_files(m);
    put(m, file_at(5), 8);
    copy(m, file_at(6), b"\x04\x01\x02\x01\x02", 0, 5);
}

fn put_chunks(m: &mut [u8]) {
    put_words(m, 3, b"\x04AAAA\x02AB\x02BA");
    small_chunk(m, 0, b"AAAA");
    small_chunk(m, 1, b"A");
    small_chunk(m, 2, b"B");
}

// The first four files.
fn put_files(m: &mut [u8]) {
    copy(m, file_at(0), b"\x04\x00\x01\x01\x01", 0, 5);
    copy(m, file_at(1), b"\x02\x00\x00", 0, 3);
    copy(m, file_at(2), b"\x04\x01\x02\x02\x01", 0, 5);
    copy(m, file_at(3), b"\x03\x01\x02\x01", 0, 4);
}

// For each query its length and its numbers, in 10 bytes; the number that it must answer; how many fields its lines have, and the fields.
const LINES: [u8; 189] = *b"\
    \x02\x00\x00\x00\x00\x00\x00\x00\x00\x00\x00\x06\x01\x00\x04\x05\x00\x04\x00\x00\x00\
    \x02\x01\x02\x00\x00\x00\x00\x00\x00\x00\x00\x03\x02\x00\x02\x00\x00\x00\x00\x00\x00\
    \x02\x02\x01\x00\x00\x00\x00\x00\x00\x00\x00\x00\x00\x00\x00\x00\x00\x00\x00\x00\x00\
    \x02\x01\x01\x00\x00\x00\x00\x00\x00\x00\x00\x03\x06\x00\x02\x00\x00\x00\x00\x00\x00\
    \x08\x00\x00\x00\x00\x00\x00\x00\x00\x00\x00\x09\x05\x00\x04\x08\x0C\x10\x14\x18\x1C\
    \x09\x00\x00\x00\x00\x00\x00\x00\x00\x00\x15\x00\x00\x00\x00\x00\x00\x00\x00\x00\x00\
    \x01\x00\x00\x00\x00\x00\x00\x00\x00\x00\x15\x00\x00\x00\x00\x00\x00\x00\x00\x00\x00\
    \x00\x00\x00\x00\x00\x00\x00\x00\x00\x00\x15\x00\x00\x00\x00\x00\x00\x00\x00\x00\x00\
    \x02\x00\x03\x00\x00\x00\x00\x00\x00\x00\x15\x00\x00\x00\x00\x00\x00\x00\x00\x00\x00";

// The lines are those told at a place.
fn is_told(at: usize, lines: &[u8]) -> bool {
    let n = num(&LINES, plus(at, 11));
    if lines.len() / 4 != n {
        return false;
    }
    for i in 0..n {
        if get_4(lines, 4 * (i % 16)) != num(&LINES, plus(at, plus(12, i))) {
            return false;
        }
    }
    true
}

fn run_told(counts: &mut [u64], t: usize) {
    let mut m = case::room();
    let mut f = case::room();
    let mut due = [0u8; 480];
    let at = 21 * (t % 9);
    put_told(&mut m);
    note_all(&mut m);
    encode(&mut f, NEW, &m);
    let query = part(&LINES, plus(at, 1), num(&LINES, at));
    let n = run_query(counts, &m, &f, query, &mut due);
    expect(counts, is_told(at, part(&due, 0, n)));
    expect(counts, query_code(&m, query) == get(&LINES, plus(at, 10)));
}

// ---- all of them

// Case number i.
fn run_one(counts: &mut [u64], way: usize, i: usize) {
    if way < FAULTY {
        return run_vault(counts, way, i);
    }
    if way == FAULTY {
        return run_faulty(counts, i);
    }
    if way == LONG {
        return run_long(counts, i);
    }
    run_told(counts, i)
}

// n cases, under a name.
fn run_all(counts: &mut [u64], way: usize, n: usize, name: &[u8]) {
    for i in 0..n {
        run_one(counts, way, i);
    }
    report_cases(name, counts);
    report::queries(counts);
}

pub fn all_queries(counts: &mut [u64]) {
    run_all(counts, AS_MADE, 800, b"vaults queried under every mark");
    run_all(
        counts,
        SMALL,
        480,
        b"vaults of small chunks queried under every mark",
    );
    run_all(
        counts,
        FAULTY,
        3888,
        b"pairs of faults in the small vault queried",
    );
    run_all(counts, LONG, 14, b"files at the longest length queried");
    run_all(counts, TOLD, 9, b"queries whose lines are told");
    report::query_buffers(counts);
}
