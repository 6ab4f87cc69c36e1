// Queries, each compared with what is due: the number, how many lines, every byte of the buffer. Buffers are filled with a pattern first; a
// longer one, an exact one, one a byte short and an empty one are tried.
use spec::Refusal;
use tests_plain::bytes::{less, part, plus, repeat};
use tests_report::due::{PATTERN, as_due, late, value_as_due};
use tests_report::tally;
use tests_report::tally::{bump, compared};
use tests_runs::runs::{code_of, value_of};

// 0 where the buffer is longer, 1 where it is exact, 2 where it is a byte short, 3 where it is empty, 4 where it is empty and no line is due, 5
// where another number than 18 is due.
fn buffer_kind(code: u8, n: usize, room: usize) -> usize {
    if code == 18 {
        return if room == 0 { 3 } else { 2 };
    }
    if code != 0 {
        return 5;
    }
    if room != n {
        return 0;
    }
    if n == 0 { 4 } else { 1 }
}

// 0 where lines are due, 1 where none is, 2 where the index is refused, then 14 to 17, then 21.
fn case_kind(code: u8, n: usize) -> usize {
    if code == 0 {
        return (n == 0) as usize;
    }
    if code < 14 {
        return 2;
    }
    if code == 21 {
        7
    } else {
        less(code as usize, 11)
    }
}

// How many lines these bytes are.
fn lines_in(query: &[u8], due: &[u8]) -> usize {
    due.len() / (4 + 4 * (query.len() % 16))
}

// Into the first `room` bytes of the buffer. The refusal where the buffer is shorter is none of a query's.
fn query_front(
    index: &[u8],
    recipes: &[u8],
    query: &[u8],
    buffer: &mut [u8],
    room: usize,
) -> Result<usize, Refusal> {
    if room <= buffer.len() {
        return query::query(index, recipes, query, &mut buffer[..room]);
    }
    Err(Refusal::FileNumberWrong)
}

// Where `early` is due before the test of the buffer.
fn query_into(
    counts: &mut [u64],
    index: &[u8],
    recipes: &[u8],
    query: &[u8],
    due: &[u8],
    early: u8,
    room: usize,
) {
    let mut buffer = [PATTERN; 600];
    let lines = lines_in(query, due);
    let code = late(early, due.len(), room, 18);
    let o = query_front(index, recipes, query, &mut buffer, room);
    let ok = as_due(value_of(o), code, lines, part(&buffer, 0, room), due);
    compared(counts, tally::QUERY, code_of(o), code, ok);
    bump(
        counts,
        tally::QUERY_BUFFERS + buffer_kind(code, due.len(), room) % 8,
    );
}

// Into a longer buffer and an empty one; where lines are due, into an exact one and one a byte short as well.
fn into_buffers(
    counts: &mut [u64],
    index: &[u8],
    recipes: &[u8],
    query: &[u8],
    due: &[u8],
    early: u8,
) {
    let n = due.len();
    query_into(counts, index, recipes, query, due, early, plus(n, 40));
    query_into(counts, index, recipes, query, due, early, 0);
    if n != 0 {
        query_into(counts, index, recipes, query, due, early, n);
        query_into(counts, index, recipes, query, due, early, less(n, 1));
    }
}

// Where lines are due, or a number before the test of the buffer.
pub(crate) fn query_runs(
    counts: &mut [u64],
    index: &[u8],
    recipes: &[u8],
    query: &[u8],
    due: &[u8],
    early: u8,
) {
    let o = query::count(index, recipes, query);
    let ok = value_as_due(value_of(o), early, lines_in(query, due));
    compared(counts, tally::QUERY_COUNT, code_of(o), early, ok);
    into_buffers(counts, index, recipes, query, due, early);
    bump(counts, tally::QUERY_KINDS + case_kind(early, due.len()) % 8);
    bump(counts, tally::CASES);
}
