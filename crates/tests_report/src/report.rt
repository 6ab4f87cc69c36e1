// Lines of the report.
use crate::{kinds, tally};
use tests_plain::bytes::{part, plus};

const OUT: i32 = 1;

// A line: a name, a space, a number.
fn line(name: &[u8], n: u64) {
    io::write_all(OUT, name);
    io::write_all(OUT, b" ");
    io::print_decimal(OUT, n);
    io::write_all(OUT, b"\n");
}

fn count_at(counts: &[u64], i: usize) -> u64 {
    if i < counts.len() { counts[i] } else { 0 }
}

// Names of 40 bytes each, a line for each of the first n counters.
fn lines(names: &[u8], counts: &[u64], from: usize, n: usize) {
    for i in 0..n {
        line(
            part(names, 40 * (i % 64), 40),
            count_at(counts, plus(from, i)),
        );
    }
}

// The number of cases since the last line, under a name.
pub fn report_cases(name: &[u8], counts: &mut [u64]) {
    if tally::CASES < counts.len() {
        line(name, counts[tally::CASES]);
        counts[tally::CASES] = 0;
    }
}

// n counters, since the last such report.
fn report_lines(names: &[u8], counts: &mut [u64], from: usize, n: usize) {
    lines(names, counts, from, n);
    tally::clear(counts, from, n);
}

// Names, 40 bytes each.
const KIND_NAMES: [u8; 1200] = *b"\
    - without chunks                        \
    - without files                         \
    - with an empty file                    \
    - with a chunk named twice              \
    - with 16 keywords                      \
    - with a keyword of 1 byte              \
    - with a keyword of 2 bytes             \
    - with a keyword of 32 bytes            \
    - with a keyword that overlaps itself   \
    - with a keyword inside another         \
    - with fold flag 0                      \
    - with fold flag 1                      \
    - with flag 0 and a byte of @ [ ` {     \
    - with flag 1 and a byte of @ [ ` {     \
    - with a chunk of 1 byte                \
    - with a chunk of 40 bytes              \
    - with 253 occurrences in a chunk       \
    - with 254 occurrences in a chunk       \
    - with 255 occurrences in a chunk       \
    - with 256 occurrences in a chunk       \
    - with 257 occurrences in a chunk       \
    - with a tie of keywords at an offset   \
    - with an occurrence across a cut       \
    - with one between own ones of another  \
    - with flag 0 and one of C0 D6 D8 DE    \
    - with flag 1 and one of C0 D6 D8 DE    \
    - with flag 0 and one of BF D7 DF F7 FF \
    - with flag 1 and one of BF D7 DF F7 FF \
    - with keywords alike by an accent      \
    - with an occurrence by an accent       ";

const OPERATION_NAMES: [u8; 560] = *b"\
    keyword checks                          \
    store checks                            \
    scan sizes                              \
    scans                                   \
    index checks                            \
    counts                                  \
    joins                                   \
    chunk lookups                           \
    body lookups                            \
    searches                                \
    compaction sizes                        \
    compactions                             \
    query counts                            \
    queries                                 ";

const BUFFER_NAMES: [u8; 320] = *b"\
    exact buffers, scan                     \
    exact buffers, join                     \
    exact buffers, list of a search         \
    exact buffers, index of a search        \
    a byte short, scan                      \
    a byte short, join                      \
    a byte short, list of a search          \
    a byte short, index of a search         ";

const HOLE_NAMES: [u8; 280] = *b"\
    - without holes                         \
    - with a hole before the first chunk    \
    - with a hole between chunks            \
    - with a hole behind the last chunk     \
    - with a keyword from chunk into hole   \
    - with a keyword from hole into chunk   \
    - with a hole and no chunks             ";

const STORE_NAMES: [u8; 240] = *b"\
    - accepted                              \
    - refused with 5                        \
    - refused with 6                        \
    - refused with 7                        \
    - refused with 8                        \
    - refused with 20                       ";

const NUMBER_NAMES: [u8; 960] = *b"\
    answered 0                              \
    answered 1                              \
    answered 2                              \
    answered 3                              \
    answered 4                              \
    answered 5                              \
    answered 6                              \
    answered 7                              \
    answered 8                              \
    answered 9                              \
    answered 10                             \
    answered 11                             \
    answered 12                             \
    answered 13                             \
    answered 14                             \
    answered 15                             \
    answered 16                             \
    answered 17                             \
    answered 18                             \
    answered 19                             \
    answered 20                             \
    answered 21                             \
    answered 22                             \
    answered 23                             ";

// The first n kinds by the holes.
fn holes(counts: &mut [u64], n: usize) {
    report_lines(&HOLE_NAMES, counts, plus(tally::KINDS, kinds::HOLES), n);
}

// The kinds of the cases.
pub fn report_kinds(counts: &mut [u64]) {
    report_lines(&KIND_NAMES, counts, tally::KINDS, kinds::ALL);
    holes(counts, kinds::ALL_HOLES);
}

// Stores by their numbers.
pub fn stores(counts: &mut [u64]) {
    report_lines(&STORE_NAMES, counts, tally::STORES, 6);
}

// Torn stores by their numbers, and by the holes of those that are accepted.
pub fn torn(counts: &mut [u64]) {
    let accepted = count_at(counts, tally::STORES);
    stores(counts);
    line(b"torn stores accepted", accepted);
    holes(counts, kinds::ALL_HOLES);
}

const LANE_NAMES: [u8; 680] = *b"\
    - with a chunk of 255 bytes             \
    - with a chunk of 256 bytes             \
    - with a chunk of 4,099 bytes           \
    - with quarters and no byte behind      \
    - with quarters and 1 byte behind       \
    - with quarters and 2 bytes behind      \
    - with quarters and 3 bytes behind      \
    - with a keyword across quarters        \
    - with one at a quarter's start         \
    - with one at a quarter's end           \
    - with one cut by the next chunk        \
    - with a keyword that ends another      \
    - with a keyword that begins another    \
    - with 513 nodes                        \
    - with links followed                   \
    - with fold flag 0                      \
    - with fold flag 1                      ";

// The kinds of the cases with long chunks.
pub fn lanes(counts: &mut [u64]) {
    lines(
        &LANE_NAMES,
        counts,
        plus(tally::KINDS, kinds::LANES),
        kinds::ALL_LANES,
    );
    holes(counts, kinds::CHUNK_HOLES);
}

const WIDE_NAMES: [u8; 520] = *b"\
    - with a chunk of 65,535 bytes          \
    - with a chunk of 65,536 bytes          \
    - with a chunk of 65,537 bytes          \
    - with a chunk of 131,072 bytes         \
    - with a chunk of 140,000 bytes         \
    - with a keyword across windows         \
    - with one at a window's start          \
    - with one at a window's end            \
    - with one cut by the next chunk        \
    - with more than 65,535 occurrences     \
    - with links followed                   \
    - with fold flag 0                      \
    - with fold flag 1                      ";

// The kinds of the cases with a chunk of about a window, or longer.
pub fn wide(counts: &mut [u64]) {
    lines(
        &WIDE_NAMES,
        counts,
        plus(tally::KINDS, kinds::WIDE),
        kinds::ALL_WIDE,
    );
    holes(counts, kinds::CHUNK_HOLES);
}

const MOVE_NAMES: [u8; 440] = *b"\
    scans whose moves were compared         \
    - into a buffer of the bound            \
    - into a longer one                     \
    - into one a byte shorter               \
    - into a shorter one                    \
    - of a store without chunks             \
    - of chunks below 256 bytes             \
    - of a chunk of 256 bytes or more       \
    - of a chunk longer than a window       \
    - with links followed                   \
    - of two stores                         ";

const ORDER_NAMES: [u8; 160] = *b"\
    - with another order of the index       \
    - with holes in neither                 \
    - with holes in one                     \
    - with holes in both                    ";

const OTHER_HOLE_NAMES: [u8; 120] = *b"\
    - with other bytes in their holes       \
    - with more bytes behind                \
    - with fewer bytes behind               ";

const PAIR_NAMES: [u8; 240] = *b"\
    - that list occurrences                 \
    - that list none                        \
    - that the scan refuses                 \
    - that the join refuses                 \
    answers of two stores compared          \
    - whose tallies were added to           ";

// Stores in another order.
pub fn orders(counts: &mut [u64]) {
    lines(&ORDER_NAMES, counts, tally::ORDERS, 4);
    report_lines(&PAIR_NAMES, counts, tally::PAIRS, 6);
}

// Stores with other holes.
pub fn other_holes(counts: &mut [u64]) {
    lines(&OTHER_HOLE_NAMES, counts, tally::OTHER_HOLES, 3);
    report_lines(&PAIR_NAMES, counts, tally::PAIRS, 6);
}

const OUTPUT_NAMES: [u8; 160] = *b"\
    - that list occurrences                 \
    - that list none                        \
    - that tell a refusal                   \
    - that name a file as too long          ";

const OUTPUT_BUFFER_NAMES: [u8; 120] = *b"\
    outputs into longer buffers             \
    outputs into exact buffers              \
    outputs into buffers a byte short       ";

// The outputs since the last such report.
pub fn outputs(counts: &mut [u64]) {
    report_lines(&OUTPUT_NAMES, counts, tally::OUTPUTS, 4);
}

pub fn output_buffers(counts: &[u64]) {
    lines(&OUTPUT_BUFFER_NAMES, counts, tally::OUTPUT_BUFFERS, 3);
}

const COMPACTION_NAMES: [u8; 240] = *b"\
    - that drop a chunk                     \
    - that give back a hole                 \
    - that change nothing                   \
    - that name a chunk twice               \
    - that name nothing                     \
    - that a join refuses with 16 or 17     ";

const COMPACTED_NAMES: [u8; 320] = *b"\
    cases of compaction accepted            \
    cases of compaction refused with 5      \
    cases of compaction refused with 6      \
    cases of compaction refused with 7      \
    cases of compaction refused with 8      \
    cases of compaction refused with 20     \
    cases of compaction refused with 14     \
    cases of compaction refused with 15     ";

const COMPACTION_BUFFER_NAMES: [u8; 160] = *b"\
    compactions into longer buffers         \
    compactions into exact buffers          \
    compactions into buffers a byte short   \
    compactions refused whatever the buffer ";

// The compactions since the last such report, and the searches of both stores.
pub fn compactions(counts: &mut [u64]) {
    report_lines(&COMPACTION_NAMES, counts, tally::COMPACTION_KINDS, 6);
    report_lines(&PAIR_NAMES, counts, tally::PAIRS, 6);
}

pub fn compacted(counts: &[u64]) {
    lines(&COMPACTED_NAMES, counts, tally::COMPACTED, 8);
    lines(
        &COMPACTION_BUFFER_NAMES,
        counts,
        tally::COMPACTION_BUFFERS,
        4,
    );
}

// Names of sets: L is a chunk's length, n a keyword's.
const SET_NAMES: [u8; 840] = *b"\
    - with a chunk of 1 byte                \
    - with a chunk of 4 bytes               \
    - with a keyword of 3 bytes             \
    - with a keyword of 32 bytes            \
    - with fold flag 0                      \
    - with fold flag 1                      \
    - with a set and no other record        \
    - with a set behind a tiny record       \
    - with a set behind a full record       \
    - with a set of one start               \
    - with a set of several starts          \
    - with a set of start 1                 \
    - with a set of the last start          \
    - with a set of start 30                \
    - with one chunk twice in an occurrence \
    - with one as first, between and last   \
    - with an occurrence inside a prefix    \
    - with an occurrence inside a suffix    \
    - with a file that ends inside one      \
    - that older marks refuse with 17       \
    - that older marks join                 ";

const SPAN_NAMES: [u8; 1240] = *b"\
    - occurrences over 2 chunks             \
    - occurrences over 3 chunks             \
    - occurrences over 4 chunks             \
    - occurrences over 5 chunks             \
    - occurrences over 6 chunks             \
    - occurrences over 7 chunks             \
    - occurrences over 8 chunks             \
    - occurrences over 9 chunks             \
    - occurrences over 10 chunks            \
    - occurrences over 11 chunks            \
    - occurrences over 12 chunks            \
    - occurrences over 13 chunks            \
    - occurrences over 14 chunks            \
    - occurrences over 15 chunks            \
    - occurrences over 16 chunks            \
    - occurrences over 17 chunks            \
    - occurrences over 18 chunks            \
    - occurrences over 19 chunks            \
    - occurrences over 20 chunks            \
    - occurrences over 21 chunks            \
    - occurrences over 22 chunks            \
    - occurrences over 23 chunks            \
    - occurrences over 24 chunks            \
    - occurrences over 25 chunks            \
    - occurrences over 26 chunks            \
    - occurrences over 27 chunks            \
    - occurrences over 28 chunks            \
    - occurrences over 29 chunks            \
    - occurrences over 30 chunks            \
    - occurrences over 31 chunks            \
    - occurrences over 32 chunks            ";

const BODY_NAMES: [u8; 600] = *b"\
    - good, with a set                      \
    - good, without a set                   \
    - with start 0                          \
    - with start n - L or one behind it     \
    - with start 31                         \
    - with an empty set                     \
    - with a second set                     \
    - with a set before its record          \
    - with one behind the next keyword's    \
    - with a set cut short                  \
    - with one for a keyword of 2 bytes     \
    - with one for n - 1 bytes or more      \
    - with one for a keyword not there      \
    - with a kind that is not there         \
    - with a set under an older mark        ";

// The kinds of the cases of small chunks, and their occurrences.
pub fn sets(counts: &mut [u64]) {
    report_lines(
        &SET_NAMES,
        counts,
        plus(tally::KINDS, kinds::SETS),
        kinds::ALL_SETS,
    );
    report_lines(&SPAN_NAMES, counts, tally::SPANS, 31);
}

// Bodies with sets.
pub fn bodies(counts: &[u64]) {
    lines(&BODY_NAMES, counts, tally::BODIES, 15);
}

const QUERY_NAMES: [u8; 520] = *b"\
    - with lines                            \
    - without a line                        \
    - refused for the index                 \
    - refused with 14                       \
    - refused with 15                       \
    - refused with 16                       \
    - refused with 17                       \
    - refused with 21                       \
    - files with a line                     \
    - files without a line                  \
    - lines that skip an overlap            \
    - lines with adjacent occurrences       \
    - lines with one across a chunk border  ";

const QUERY_BUFFER_NAMES: [u8; 240] = *b"\
    queries into longer buffers             \
    queries into exact buffers              \
    queries into buffers a byte short       \
    lines into an empty buffer              \
    no line into an empty buffer            \
    queries refused whatever the buffer     ";

// The queries since the last such report.
pub fn queries(counts: &mut [u64]) {
    report_lines(&QUERY_NAMES, counts, tally::QUERY_KINDS, 13);
}

pub fn query_buffers(counts: &[u64]) {
    lines(&QUERY_BUFFER_NAMES, counts, tally::QUERY_BUFFERS, 6);
}

const CLIENT_NAMES: [u8; 1160] = *b"\
    - that list occurrences                 \
    - that list none                        \
    - refused for the index or the recipes  \
    - refused with 18                       \
    - refused with 22                       \
    - refused with 23                       \
    - with FF behind the last keyword       \
    - with a key of 0 bytes                 \
    - with a key of 15 bytes                \
    - with a key of 17 bytes                \
    - with client 4 for keyword 0           \
    - with client 255 for keyword 0         \
    - with client 4 for the last keyword    \
    - with client 255 for the last keyword  \
    - with a wrong key and nothing to list  \
    - with 18 before 22                     \
    - with 18 before 23                     \
    - with 22 before 23                     \
    - into a tally at zero                  \
    - that add to all four clients          \
    - with a full count that stays          \
    - that fill a count                     \
    - with client 0 alone past 64 bits      \
    - with client 1 alone past 64 bits      \
    - with client 2 alone past 64 bits      \
    - with client 3 alone past 64 bits      \
    - with several clients past 64 bits     \
    - accepted, in a list of joins          \
    - refused, in a list of joins           ";

// The joins with a key and a tally.
pub fn clients(counts: &[u64]) {
    lines(&CLIENT_NAMES, counts, tally::CLIENTS, 29);
}

pub fn totals(counts: &[u64]) {
    lines(&MOVE_NAMES, counts, tally::MOVES, 11);
    lines(&BUFFER_NAMES, counts, tally::BUFFERS, 8);
    lines(&OPERATION_NAMES, counts, tally::OPERATIONS, 14);
    lines(&NUMBER_NAMES, counts, 0, 24);
    line(b"not as expected", count_at(counts, tally::DIFFERENCES));
}
