// The search whole: a scan, and then a join of the index that it wrote. The two are put together through their contracts alone, and the
// answer is that of a direct search of the restored files (demand 3).
#![tactic(auto)]

ghost use Rattle.std.specs.Prelude.{◌≡◌, length};
ghost use Rattle.spec.specs.Form.{newest};
ghost use Rattle.spec.specs.Scan.{scan_buffer};
ghost use Rattle.spec.specs.Join.{counts_of, lent};
ghost use Rattle.spec.specs.Searched.{searched_of};
ghost use Rattle.spec.specs.Search.{search_outcome, search_buffer, search_tally};
ghost use Rattle.search.specs.Searching.{Joins};

use spec::{SearchDone, SearchRefusal};

// The answer of a search, and the tally after it.
#[derive(Drop)]
pub struct Answer {
    pub searched: Result<SearchDone, SearchRefusal>,
    pub tally: spec::Tally,
}

// A join, with its answer as a search's.
fn joined(index: &[u8], recipes: &[u8], key: &[u8], out: &mut [u8], before: spec::Tally) -> Answer
    ensures { Joins index.now recipes.now (lent key.now before) out.old out.new (searched_of result.searched) (counts_of result.tally) }
{
    let size = index.len();
    let j = join::tallied(index, recipes, key, out, before);
    let tally = j.tally;
    match j.outcome {
        Err(refusal) => Answer {
            searched: Err(SearchRefusal::Join(size, refusal)),
            tally,
        },
        Ok(count) => Answer {
            searched: Ok(SearchDone { size, count }),
            tally,
        },
    }
}

// Searches the restored files of `recipes` for the keywords of `list`: `index` gets the store's index and `out` the list of occurrences,
// each if it has room; what is listed is added to the tally, by the key (request #110). The index buffer is left as the scan leaves it.
pub fn search(
    list: &[u8],
    store: &[u8],
    recipes: &[u8],
    key: &[u8],
    index: &mut [u8],
    out: &mut [u8],
    before: spec::Tally,
) -> Answer
    ensures { (searched_of result.searched ≡ search_outcome newest list.now store.now recipes.now (lent key.now before) (length index.old) (length out.old))
        × (index.new ≡ scan_buffer newest list.now store.now index.old)
        × (out.new ≡ search_buffer newest list.now store.now recipes.now (lent key.now before) (length index.old) out.old)
        × (counts_of result.tally ≡ search_tally newest list.now store.now recipes.now (lent key.now before) (length index.old) (length out.old)) }
{
    match scan::scan(list, store, index) {
        Err(refusal) => Answer {
            searched: Err(SearchRefusal::Scan(refusal)),
            tally: before,
        },
        Ok(done) => joined(&index[..done.size], recipes, key, out, before),
    }
}
