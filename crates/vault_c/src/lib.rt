// The library for C and other languages: numbers, byte slices (a pointer and a length) and single numbers by reference. A call answers
// document 01's number, 0 for accepted, found or done. A number by reference is told the length, the moves or the count where the work is done, and stays
// as it was on a refusal. include/vault.h declares these functions.
#![tactic(auto)]

ghost use Rattle.std.specs.Prelude.{◌≡◌, length};
ghost use Rattle.spec.specs.Keywords.{keyword_code};
ghost use Rattle.spec.specs.Store.{store_code};
ghost use Rattle.spec.specs.Form.{newest, form_of};
ghost use Rattle.spec.specs.Index.{index_code};
ghost use Rattle.spec.specs.Lookup.{find_chunk, chunk_start, chunk_length, find_body, body_start, body_length};
ghost use Rattle.spec.specs.Outcome.{code_of, told_value};
ghost use Rattle.spec.specs.Scan.{size_outcome, scan_answer, scan_buffer, scanned_code, told_length, told_moves};
ghost use Rattle.spec.specs.Join.{counts_of, tally_of, lent, count_outcome, join_outcome, join_buffer, join_tally};
ghost use Rattle.spec.specs.Query.{query_count, query_outcome, query_buffer};
ghost use Rattle.spec.specs.Compact.{compact_size, compact_outcome, compact_buffer};
ghost use Rattle.spec.specs.Search.{search_outcome, search_buffer, search_tally, searched_code, told_size, told_count};
ghost use Rattle.spec.specs.Refusal.{number, outcome_of};
ghost use Rattle.spec.specs.Searched.{searched_of};

use spec::{Refusal, SearchDone, SearchRefusal, Tally};

// ---- what a call tells

// The number of a check's answer.
fn told_check(answer: Result<(), Refusal>) -> u8
    ensures { result ≡ number answer }
{
    match answer {
        Ok(()) => 0,
        Err(refusal) => refusal.number(),
    }
}

// The number of an answer; where the work is done, `number` is told the length or the count.
fn told(answer: Result<usize, Refusal>, number: &mut u64) -> u8
    ensures { (result ≡ code_of (outcome_of answer)) × (number.new ≡ told_value (outcome_of answer) number.old) }
{
    match answer {
        Ok(done) => {
            *number = done as u64;
            0
        }
        Err(refusal) => refusal.number(),
    }
}

// The same of a search: the index's length is told where the scan is done, the count where the join is.
fn told_search(answer: Result<SearchDone, SearchRefusal>, size: &mut u64, count: &mut u64) -> u8
    ensures { (result ≡ searched_code (searched_of answer)) × (size.new ≡ told_size (searched_of answer) size.old)
        × (count.new ≡ told_count (searched_of answer) count.old) }
{
    match answer {
        Ok(done) => {
            *size = done.size as u64;
            *count = done.count as u64;
            0
        }
        Err(SearchRefusal::Scan(refusal)) => refusal.number(),
        Err(SearchRefusal::Join(indexed, refusal)) => {
            *size = indexed as u64;
            refusal.number()
        }
    }
}

// Four counts that are lent one by one, as a tally (request #110).
fn four(client0: u64, client1: u64, client2: u64, client3: u64) -> Tally
    ensures { result ≡ tally_of client0 client1 client2 client3 }
{
    Tally {
        client0,
        client1,
        client2,
        client3,
    }
}

// ---- checks

#[unsafe(no_mangle)]
pub extern "C" fn vault_check_keywords(list: &[u8]) -> u8
    ensures { result ≡ keyword_code list.now }
{
    told_check(keywords::check(list))
}

#[unsafe(no_mangle)]
pub extern "C" fn vault_check_store(store: &[u8]) -> u8
    ensures { result ≡ store_code store.now }
{
    told_check(store::check(store))
}

#[unsafe(no_mangle)]
pub extern "C" fn vault_check_index(index: &[u8]) -> u8
    ensures { result ≡ index_code (form_of index.now) index.now }
{
    told_check(index::check(index))
}

// ---- scan and join

#[unsafe(no_mangle)]
pub extern "C" fn vault_scan_size(list: &[u8], store: &[u8], size: &mut u64) -> u8
    ensures { (result ≡ code_of (size_outcome newest list.now store.now))
        × (size.new ≡ told_value (size_outcome newest list.now store.now) size.old) }
{
    told(scan::size(list, store), size)
}

#[unsafe(no_mangle)]
pub extern "C" fn vault_scan(
    list: &[u8],
    store: &[u8],
    out: &mut [u8],
    size: &mut u64,
    moves: &mut u64,
) -> u8
    ensures { (result ≡ scanned_code (scan_answer newest list.now store.now (length out.old)))
        × (size.new ≡ told_length (scan_answer newest list.now store.now (length out.old)) size.old)
        × (moves.new ≡ told_moves (scan_answer newest list.now store.now (length out.old)) moves.old)
        × (out.new ≡ scan_buffer newest list.now store.now out.old) }
{
    match scan::scan(list, store, out) {
        Ok(done) => {
            *size = done.size as u64;
            *moves = done.moves;
            0
        }
        Err(refusal) => refusal.number(),
    }
}

#[unsafe(no_mangle)]
pub extern "C" fn vault_count(index: &[u8], recipes: &[u8], count: &mut u64) -> u8
    ensures { (result ≡ code_of (count_outcome (form_of index.now) index.now recipes.now))
        × (count.new ≡ told_value (count_outcome (form_of index.now) index.now recipes.now) count.old) }
{
    told(join::count(index, recipes), count)
}

// The tally's four counts are lent one by one.
#[unsafe(no_mangle)]
pub extern "C" fn vault_join(
    index: &[u8],
    recipes: &[u8],
    key: &[u8],
    out: &mut [u8],
    count: &mut u64,
    client0: &mut u64,
    client1: &mut u64,
    client2: &mut u64,
    client3: &mut u64,
) -> u8
    ensures { (result ≡ code_of (join_outcome (form_of index.now) index.now recipes.now (lent key.now (tally_of client0.old client1.old client2.old client3.old)) (length out.old)))
        × (count.new ≡ told_value (join_outcome (form_of index.now) index.now recipes.now (lent key.now (tally_of client0.old client1.old client2.old client3.old)) (length out.old)) count.old)
        × (out.new ≡ join_buffer (form_of index.now) index.now recipes.now (lent key.now (tally_of client0.old client1.old client2.old client3.old)) out.old)
        × (counts_of (tally_of client0.new client1.new client2.new client3.new) ≡ join_tally (form_of index.now) index.now recipes.now (lent key.now (tally_of client0.old client1.old client2.old client3.old)) (length out.old)) }
{
    let before = four(*client0, *client1, *client2, *client3);
    let joined = join::tallied(index, recipes, key, out, before);
    let tally = joined.tally;
    *client0 = tally.client0;
    *client1 = tally.client1;
    *client2 = tally.client2;
    *client3 = tally.client3;
    told(joined.outcome, count)
}

// ---- queries

#[unsafe(no_mangle)]
pub extern "C" fn vault_query_count(
    index: &[u8],
    recipes: &[u8],
    query: &[u8],
    lines: &mut u64,
) -> u8
    ensures { (result ≡ code_of (query_count (form_of index.now) index.now recipes.now query.now))
        × (lines.new ≡ told_value (query_count (form_of index.now) index.now recipes.now query.now) lines.old) }
{
    told(query::count(index, recipes, query), lines)
}

#[unsafe(no_mangle)]
pub extern "C" fn vault_query(
    index: &[u8],
    recipes: &[u8],
    query: &[u8],
    out: &mut [u8],
    lines: &mut u64,
) -> u8
    ensures { (result ≡ code_of (query_outcome (form_of index.now) index.now recipes.now query.now (length out.old)))
        × (lines.new ≡ told_value (query_outcome (form_of index.now) index.now recipes.now query.now (length out.old)) lines.old)
        × (out.new ≡ query_buffer (form_of index.now) index.now recipes.now query.now out.old) }
{
    told(query::query(index, recipes, query, out), lines)
}

// ---- lookups: the number, where the slice starts, how long it is

#[unsafe(no_mangle)]
pub extern "C" fn vault_find_chunk(store: &[u8], key: &[u8]) -> u8
    ensures { result ≡ find_chunk store.now key.now }
{
    told_check(store::find_chunk(store, key))
}

#[unsafe(no_mangle)]
pub extern "C" fn vault_chunk_start(store: &[u8], key: &[u8]) -> u64
    ensures { result ≡ chunk_start store.now key.now }
{
    store::chunk_start(store, key) as u64
}

#[unsafe(no_mangle)]
pub extern "C" fn vault_chunk_length(store: &[u8], key: &[u8]) -> u64
    ensures { result ≡ chunk_length store.now key.now }
{
    store::chunk_length(store, key) as u64
}

#[unsafe(no_mangle)]
pub extern "C" fn vault_find_body(index: &[u8], key: &[u8]) -> u8
    ensures { result ≡ find_body (form_of index.now) index.now key.now }
{
    told_check(index::find_body(index, key))
}

#[unsafe(no_mangle)]
pub extern "C" fn vault_body_start(index: &[u8], key: &[u8]) -> u64
    ensures { result ≡ body_start (form_of index.now) index.now key.now }
{
    index::body_start(index, key) as u64
}

#[unsafe(no_mangle)]
pub extern "C" fn vault_body_length(index: &[u8], key: &[u8]) -> u64
    ensures { result ≡ body_length (form_of index.now) index.now key.now }
{
    index::body_length(index, key) as u64
}

// ---- compaction

#[unsafe(no_mangle)]
pub extern "C" fn vault_compact_size(store: &[u8], recipes: &[u8], size: &mut u64) -> u8
    ensures { (result ≡ code_of (compact_size store.now recipes.now))
        × (size.new ≡ told_value (compact_size store.now recipes.now) size.old) }
{
    told(compact::size(store, recipes), size)
}

#[unsafe(no_mangle)]
pub extern "C" fn vault_compact(store: &[u8], recipes: &[u8], out: &mut [u8], size: &mut u64) -> u8
    ensures { (result ≡ code_of (compact_outcome store.now recipes.now (length out.old)))
        × (size.new ≡ told_value (compact_outcome store.now recipes.now (length out.old)) size.old)
        × (out.new ≡ compact_buffer store.now recipes.now out.old) }
{
    told(compact::compact(store, recipes, out), size)
}

// ---- the search whole

#[unsafe(no_mangle)]
pub extern "C" fn vault_search(
    list: &[u8],
    store: &[u8],
    recipes: &[u8],
    key: &[u8],
    index: &mut [u8],
    out: &mut [u8],
    index_length: &mut u64,
    count: &mut u64,
    client0: &mut u64,
    client1: &mut u64,
    client2: &mut u64,
    client3: &mut u64,
) -> u8
    ensures { (result ≡ searched_code (search_outcome newest list.now store.now recipes.now (lent key.now (tally_of client0.old client1.old client2.old client3.old)) (length index.old) (length out.old)))
        × (index_length.new ≡ told_size (search_outcome newest list.now store.now recipes.now (lent key.now (tally_of client0.old client1.old client2.old client3.old)) (length index.old) (length out.old)) index_length.old)
        × (count.new ≡ told_count (search_outcome newest list.now store.now recipes.now (lent key.now (tally_of client0.old client1.old client2.old client3.old)) (length index.old) (length out.old)) count.old)
        × (index.new ≡ scan_buffer newest list.now store.now index.old)
        × (out.new ≡ search_buffer newest list.now store.now recipes.now (lent key.now (tally_of client0.old client1.old client2.old client3.old)) (length index.old) out.old)
        × (counts_of (tally_of client0.new client1.new client2.new client3.new) ≡ search_tally newest list.now store.now recipes.now (lent key.now (tally_of client0.old client1.old client2.old client3.old)) (length index.old) (length out.old)) }
{
    let before = four(*client0, *client1, *client2, *client3);
    let answer = search::search(list, store, recipes, key, index, out, before);
    let counts = answer.tally;
    *client0 = counts.client0;
    *client1 = counts.client1;
    *client2 = counts.client2;
    *client3 = counts.client3;
    told_search(answer.searched, index_length, count)
}
