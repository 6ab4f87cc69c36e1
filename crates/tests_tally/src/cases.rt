// The cases of keys and tallies: generated vaults, made-up records, vaults of small chunks, faults in the small vault, a file at the longest length,
// joins whose tallies are told, lists of joins into one tally.
use crate::draw::{draw_key, draw_room, draw_tally};
use crate::plain::{MOST, counted, due_of};
use crate::runs::{join_into, run_front};
use spec::Tally;
use tests_plain::bytes::{copy, get, less, next, num, part, plus};
use tests_plain::case;
use tests_plain::forms::NEW;
use tests_plain::records::note_all;
use tests_report::due::late;
use tests_report::report::report_cases;
use tests_report::tally::{bump, expect};
use tests_report::{report, tally};
use tests_runs::clients::no_counts;
use tests_vaults::fill::{put_damaged, put_joined, settle_all};
use tests_vaults::long;
use tests_vaults::make::{invent, make};
use tests_vaults::small::small;
use tests_vaults::tiny::make_small;

// What is joined: generated vaults, which are searched too; made-up records; vaults of small chunks; the small vault with a fault; a long file;
// the small vault, with tallies that are told; lists of joins.
const AS_MADE: usize = 0;

const INVENTED: usize = 1;

const SMALL: usize = 2;

const FAULTY: usize = 3;

const LONG: usize = 4;

const TOLD: usize = 5;

const LISTS: usize = 6;

// ---- vaults

// Vault number i, with records.
fn make_vault(m: &mut [u8], way: usize, i: usize) {
    let mut text = [0u8; 1000];
    if way == SMALL {
        make_small(m, &mut text, i);
        return note_all(m);
    }
    make(m, i);
    if way == INVENTED {
        return invent(m, i);
    }
    note_all(m)
}

// The mark of a vault's index: one that is searched has the newest.
fn form_of(way: usize, i: usize) -> usize {
    if way == AS_MADE { NEW } else { i % 3 + 1 }
}

// The small vault with one fault of index or recipes, which are those from 29 on, under a mark.
fn put_faulty(f: &mut [u8], m: &mut [u8], t: usize) {
    let form = t / 36 % 3 + 1;
    let i = t % 36 + 29;
    small(m);
    note_all(m);
    put_damaged(f, form, m, i, i);
    settle_all(f, form, i, i);
}

// Vault number i as a case.
fn put_vault(f: &mut [u8], way: usize, i: usize) {
    let mut m = case::room();
    if way == FAULTY {
        return put_faulty(f, &mut m, i);
    }
    make_vault(&mut m, way, i);
    put_joined(f, form_of(way, i), &m);
}

// A case joined with a key, a tally and a buffer that are drawn.
fn run_drawn(counts: &mut [u64], f: &[u8], searched: bool, buffer: &mut [u8], seed: u64) {
    let mut key = [0u8; 17];
    let rows = case::rows(f);
    let n = draw_key(&mut key, num(case::index(f), 8), seed);
    let k = part(&key, 0, n);
    let a = next(next(seed));
    let before = draw_tally(counted(rows, k), a);
    let room = draw_room(rows.len(), next(a));
    run_front(counts, f, searched, k, before, buffer, room);
}

// Four times.
fn run_calls(counts: &mut [u64], f: &[u8], searched: bool, buffer: &mut [u8], i: usize) {
    let n: usize = 4;
    for q in 0..n {
        let seed = next((8 * (i % 1000000) + q % 8) as u64);
        run_drawn(counts, f, searched, buffer, next(seed));
    }
}

fn run_vault(counts: &mut [u64], way: usize, i: usize) {
    let mut f = case::room();
    let mut buffer = case::room();
    put_vault(&mut f, way, i);
    run_calls(counts, &f, way == AS_MADE, &mut buffer, i);
}

// ---- a long file

// A file that names chunk 0, of 65,535 bytes, 65,538 or 65,537 times, but another chunk at the second place: chunk 1, of 1 byte, or chunk 2, which
// is not there. What is due before the test of the key, under each mark; the key is wrong, and each count is full.
const LONG_CODES: [u8; 12] = *b"\x10\x00\x11\x0F\x10\x00\x11\x0F\x10\x00\x00\x0F";

fn run_long(counts: &mut [u64], t: usize) {
    let mut index = [0u8; 78];
    let mut recipes = long::room();
    let mut buffer = [0u8; 9];
    let n = plus(65537, num(b"\x01\x00\x00\x01", t % 4));
    long::put_long_index(&mut index, t / 4 % 3 + 1, 65535);
    long::put_long_recipes(&mut recipes, n, num(b"\x00\x00\x01\x02", t % 4));
    let r = part(&recipes, 0, 8 + 20 * (n % 70000));
    let full = told_tally(b"\xFF\xFF\xFF\xFF", 0);
    let key = [4u8; 16];
    let rows = [0u8; 0];
    join_into(
        counts,
        &index,
        r,
        &rows,
        get(&LONG_CODES, t),
        &key,
        full,
        &mut buffer,
    );
}

// ---- tallies that are told

// The small vault lists keyword 0 twice and keyword 1 once. For each join: the key's length and its first two clients; the tally before; the
// buffer's length; the number that it must answer; the tally after. A count from 80 (hexadecimal) on is as far below 2 ^ 64 as below 100.
const JOINS: [u8; 247] = *b"\
    \x10\x00\x00\x00\x00\x00\x00\x1B\x00\x03\x00\x00\x00\
    \x10\x00\x01\x00\x00\x00\x00\x1B\x00\x02\x01\x00\x00\
    \x10\x03\x02\x01\x02\x03\x04\x1C\x00\x01\x02\x04\x06\
    \x10\x02\x03\xFF\xFF\x00\x00\x1B\x00\xFF\xFF\x02\x01\
    \x10\x02\x03\xFF\xFF\xFD\xFE\x1B\x00\xFF\xFF\xFF\xFF\
    \x10\x02\x03\xFF\xFF\xFE\xFE\x1B\x17\xFF\xFF\xFE\xFE\
    \x10\x02\x03\x00\x00\x00\xFF\x1B\x17\x00\x00\x00\xFF\
    \x10\x03\x02\x00\x00\x00\xFE\x1B\x17\x00\x00\x00\xFE\
    \x10\x00\x00\xFC\x00\x00\x00\x1B\x00\xFF\x00\x00\x00\
    \x10\x00\x00\xFD\x00\x00\x00\x1B\x17\xFD\x00\x00\x00\
    \x10\x04\x00\x05\x06\x07\x08\x1B\x16\x05\x06\x07\x08\
    \x10\x00\x04\x05\x06\x07\x08\x1B\x16\x05\x06\x07\x08\
    \x10\x00\xFF\xFF\xFF\xFF\xFF\x1B\x16\xFF\xFF\xFF\xFF\
    \x00\x00\x00\x05\x06\x07\x08\x1B\x16\x05\x06\x07\x08\
    \x0F\x00\x00\x05\x06\x07\x08\x1B\x16\x05\x06\x07\x08\
    \x11\x00\x00\x05\x06\x07\x08\x1B\x16\x05\x06\x07\x08\
    \x10\x04\x00\x05\x06\x07\x08\x1A\x12\x05\x06\x07\x08\
    \x10\x00\x01\xFF\xFF\xFF\xFF\x1A\x12\xFF\xFF\xFF\xFF\
    \x10\x00\x01\x05\x06\x07\x08\x1A\x12\x05\x06\x07\x08";

fn told_count(told: &[u8], at: usize) -> u64 {
    let b = num(told, at);
    if b < 0x80 {
        return b as u64;
    }
    std::num::wrapping_sub_u64(MOST, less(0xFF, b) as u64)
}

// Four counts from a place on.
fn told_tally(told: &[u8], at: usize) -> Tally {
    Tally {
        client0: told_count(told, at),
        client1: told_count(told, plus(at, 1)),
        client2: told_count(told, plus(at, 2)),
        client3: told_count(told, plus(at, 3)),
    }
}

fn put_small(f: &mut [u8]) {
    let mut m = case::room();
    small(&mut m);
    note_all(&mut m);
    put_joined(f, NEW, &m);
}

// What the plain computation says of a join is what is told.
fn is_told(f: &[u8], key: &[u8], before: Tally, room: usize, code: u8) -> bool {
    let rows = case::rows(f);
    let due = due_of(late(0, rows.len(), room, 18), rows, key, 2, before);
    due.code == code
}

// The join that is told at a place.
fn run_at(counts: &mut [u64], f: &[u8], at: usize) {
    let mut buffer = [0u8; 28];
    let mut key = [0xFFu8; 17];
    copy(&mut key, 0, &JOINS, plus(at, 1), 2);
    let k = part(&key, 0, num(&JOINS, at));
    let before = told_tally(&JOINS, plus(at, 3));
    let room = num(&JOINS, plus(at, 7));
    let after = run_front(counts, f, true, k, before, &mut buffer, room);
    expect(counts, after == told_tally(&JOINS, plus(at, 9)));
    expect(
        counts,
        is_told(f, k, before, room, get(&JOINS, plus(at, 8))),
    );
}

// Join number t.
fn run_told(counts: &mut [u64], t: usize) {
    let mut f = case::room();
    put_small(&mut f);
    run_at(counts, &f, 13 * (t % 19));
}

// ---- lists of joins

// The tally as the joins left it, and the sums of what the accepted ones list.
#[derive(Drop)]
struct Sums {
    got: Tally,
    due: Tally,
}

// The sums behind a join into a buffer of `room` bytes.
fn add_due(counts: &mut [u64], f: &[u8], key: &[u8], room: usize, sums: Tally) -> Tally {
    let rows = case::rows(f);
    let early = late(case::join_code(f), rows.len(), room, 18);
    let due = due_of(early, rows, key, num(case::index(f), 8), sums);
    bump(counts, plus(tally::CLIENTS + 27, (due.code != 0) as usize));
    due.tally
}

// One more join, of a case, with a key and a buffer that are drawn.
fn run_next(counts: &mut [u64], f: &[u8], buffer: &mut [u8], seed: u64, sums: Sums) -> Sums {
    let mut key = [0u8; 17];
    let n = draw_key(&mut key, num(case::index(f), 8), seed);
    let k = part(&key, 0, n);
    let room = draw_room(case::rows(f).len(), next(seed));
    let got = sums.got;
    let due = sums.due;
    Sums {
        got: run_front(counts, f, false, k, got, buffer, room),
        due: add_due(counts, f, k, room, due),
    }
}

// The join of case number t.
fn run_listed(counts: &mut [u64], t: usize, sums: Sums) -> Sums {
    let mut f = case::room();
    let mut buffer = case::room();
    put_vault(&mut f, t % 3, t);
    let seed = next(next((t % 1000000) as u64 + 9));
    run_next(counts, &f, &mut buffer, seed, sums)
}

// List number i, of eight joins into a tally that begins at zero.
fn run_list(counts: &mut [u64], i: usize) {
    let n: usize = 8;
    let mut sums = Sums {
        got: no_counts(),
        due: no_counts(),
    };
    for j in 0..n {
        sums = run_listed(counts, plus(8 * (i % 1000000), j), sums);
    }
    let got = sums.got;
    let due = sums.due;
    expect(counts, got == due);
}

// ---- all of them

// Case number i.
fn run_one(counts: &mut [u64], way: usize, i: usize) {
    if way < LONG {
        return run_vault(counts, way, i);
    }
    if way == LONG {
        return run_long(counts, i);
    }
    if way == TOLD {
        return run_told(counts, i);
    }
    run_list(counts, i)
}

// n cases, under a name.
fn run_all(counts: &mut [u64], way: usize, n: usize, name: &[u8]) {
    for i in 0..n {
        run_one(counts, way, i);
    }
    report_cases(name, counts);
}

fn run_vaults(counts: &mut [u64]) {
    run_all(counts, AS_MADE, 800, b"joins of vaults for clients");
    run_all(
        counts,
        INVENTED,
        800,
        b"joins of made-up records for clients",
    );
    run_all(counts, SMALL, 240, b"joins of small chunks for clients");
    run_all(
        counts,
        FAULTY,
        108,
        b"joins of faults in the small vault for clients",
    );
}

pub fn all_tallies(counts: &mut [u64]) {
    run_vaults(counts);
    run_all(
        counts,
        LONG,
        12,
        b"joins of files at the longest length for clients",
    );
    run_all(counts, TOLD, 19, b"joins whose tallies are told");
    run_all(counts, LISTS, 100, b"joins in lists into one tally");
    report::clients(counts);
}
