// The longest file: 65,537 chunks of 65,535 bytes have 4,294,967,295 bytes, and one chunk more is refused with 16, as 4,096 chunks of 1,048,576
// bytes are; and the order of 15, 16 and 17 in such a file.
use tests_plain::bytes::{part, plus};
use tests_plain::forms::{NEW, OLD, SETS};
use tests_report::report::report_cases;
use tests_report::tally;
use tests_report::tally::{bump, compared};
use tests_runs::clients::join_for_one;
use tests_runs::runs::code_of;
use tests_vaults::long::{put_long_index, put_long_recipes, room};

// The count and the join of a file that names chunk 0 n times, with chunk c at the second place; chunk 2 is not in the index. The index has
// chunk 0 of `size` bytes and a mark.
fn long_file(
    counts: &mut [u64],
    recipes: &mut [u8],
    form: usize,
    size: usize,
    n: usize,
    c: usize,
    expected: u8,
) {
    let mut index = [0u8; 78];
    put_long_index(&mut index, form, size);
    put_long_recipes(recipes, n, c);
    let r = part(recipes, 0, 8 + 20 * (n % 70000));
    count_and_join(counts, &index, r, expected);
}

fn count_and_join(counts: &mut [u64], index: &[u8], recipes: &[u8], expected: u8) {
    let mut buffer = [0u8; 9];
    let counted = code_of(join::count(index, recipes));
    let j = join_for_one(index, recipes, &mut buffer);
    let joined = j.outcome;
    compared(counts, tally::COUNT, counted, expected, true);
    compared(counts, tally::JOIN, code_of(joined), expected, true);
    bump(counts, tally::CASES);
}

// `most` chunks of `size` bytes have at most 4,294,967,295, and one chunk more has more.
fn around(counts: &mut [u64], recipes: &mut [u8], form: usize, size: usize, most: usize) {
    long_file(counts, recipes, form, size, most, 0, 0);
    long_file(counts, recipes, form, size, plus(most, 1), 0, 16);
}

// The number of a file that has a chunk of 1 byte inside, under a mark.
fn short_code(form: usize) -> u8 {
    if form < SETS { 17 } else { 0 }
}

// The same with another chunk at the second place.
fn broken(counts: &mut [u64], recipes: &mut [u8], form: usize, size: usize, most: usize) {
    long_file(counts, recipes, form, size, plus(most, 2), 1, 16);
    long_file(counts, recipes, form, size, most, 1, short_code(form));
    long_file(counts, recipes, form, size, plus(most, 1), 2, 15);
}

fn both(counts: &mut [u64], recipes: &mut [u8], form: usize, size: usize, most: usize) {
    around(counts, recipes, form, size, most);
    broken(counts, recipes, form, size, most);
}

// Under a newer mark, with chunks of the longest length too.
fn both_lengths(counts: &mut [u64], form: usize) {
    let mut recipes = room();
    both(counts, &mut recipes, form, 65535, 65537);
    both(counts, &mut recipes, form, 1048576, 4095);
}

fn oldest(counts: &mut [u64]) {
    let mut recipes = room();
    both(counts, &mut recipes, OLD, 65535, 65537);
}

fn newer(counts: &mut [u64]) {
    let end = NEW + 1;
    for form in OLD + 1..end {
        both_lengths(counts, form);
    }
}

pub fn longest(counts: &mut [u64]) {
    oldest(counts);
    newer(counts);
    report_cases(b"files at the longest length", counts);
}
