// What the operations on an index and recipes share: the index check, the chains of its fingerprints, the keywords' tables, 14, and a survey of the
// files, which tests each and counts its rows: its occurrences, or for a query its line. It writes no list: who lists goes by the plan, and a
// refusal has changed no byte of a list's buffer.
#![tactic(auto)]

ghost use Rattle.std.specs.Prelude.{◌≡◌, ℕ, ◌^◌, ◌≤◌, ◌<◌, length, replicate, get_or, IfOk};
ghost use Rattle.spec.specs.Bytes.{written};
ghost use Rattle.spec.specs.Keywords.{folded_keywords};
ghost use Rattle.spec.specs.Index.{list_in, lengths_in};
ghost use Rattle.tables.specs.Tabled.{tables_of};
ghost use Rattle.spec.specs.Join.{sums};
ghost use Rattle.walk.specs.Walking.{file_list, keyword_counts, Directory, File};
ghost use Rattle.index.specs.Stages.{examined_chains};
ghost use Rattle.directory.specs.Chains.{Empty};
ghost use Rattle.spec.specs.Refusal.{number};
ghost use Rattle.plan.specs.Plans.{rows, counted, plan_code, plan_of, planned_tables, Prepared, Joinable};

use spec::Refusal;

// The count of all rows, how many occurrences each keyword has (where there is no query), the opened index, and whether each file has a row, so that
// who lists looks at no place of the others.
#[derive(Clone, Copy)]
pub struct Plan {
    pub total: usize,
    pub counts: [usize; 16],
    pub opened: spec::Opened,
    pub has_rows: [bool; 65535],
}

// The index check, then 14. It leaves the chains of the index's fingerprints in the array.
fn prepare(index: &[u8], recipes: &[u8], chains: &mut [u32]) -> Result<(), Refusal>
    requires { Empty chains.old }
    ensures { Prepared index.now recipes.now chains.old chains.new (number result) }
{
    index::examine(index, chains)?;
    recipes::check(recipes)
}

// How many rows a file has in the answer: its occurrences, which are added to their keywords' counts (request #110), or for a query (request #109)
// its line, if it has one.
fn rows_in(
    source: &walk::Source,
    choosing: walk::Choosing,
    file: &[u8],
    slots: &[u32],
    query: &[u8],
    counts: &mut [usize],
) -> usize
    requires directory { Directory source.now.index.now source.now.opened source.now.chains.now
        × (source.now.tables.now ≡ tables_of (folded_keywords (list_in source.now.index.now))) }
    requires file { File source.now.index.now file.now slots.now }
    requires query_len_bound { (length query.now ≤ 8) × (choosing.lengths ≡ written (replicate 16 0) (lengths_in source.now.index.now)) }
    requires counts_len { (length counts.old ≡ 16) × ((k : ℕ) → k < 16 → get_or counts.old k 0 < 2 ^ 62) }
    ensures { (result ≡ rows (lengths_in source.now.index.now) query.now choosing.number
        (file_list choosing.number source.now.index.now file.now))
        × (counts.new ≡ sums counts.old
        (keyword_counts (counted query.now (file_list choosing.number source.now.index.now file.now)))) }
{
    if query.is_empty() {
        return walk::count_file(source, file, slots, counts);
    }
    let choice = walk::choose_file(source, choosing, file, slots, query);
    usize::from(choice.step == query.len())
}

// What a survey goes by: the opened index, and the keywords' lengths.
#[derive(Drop)]
struct Survey {
    opened: spec::Opened,
    lengths: [usize; 16],
}

// Tests each file and counts its rows, file by file. A file is counted right after it is tested, while its slots hold its entries.
fn survey_files(
    index: &[u8],
    recipes: &[u8],
    survey: Survey,
    chains: &[u32],
    tables: &[[[u32; 32]; 32]; 16],
    query: &[u8],
) -> Result<Plan, Refusal>
    requires joinable { Joinable index.now recipes.now survey.opened chains.now tables.now }
    requires query_len_bound { (length query.now ≤ 8) × (survey.lengths ≡ written (replicate 16 0) (lengths_in index.now)) }
    ensures { (number result ≡ plan_code index.now recipes.now)
        × IfOk result (λ p. p ≡ plan_of index.now recipes.now query.now) }
{
    let Survey { opened, lengths } = survey;
    let source = walk::Source {
        index,
        opened,
        chains,
        tables,
    };
    let mut slots = [0u32; 65536];
    let mut has_rows = [false; 65535];
    let mut counts = [0usize; 16];
    let files = recipes::count_at(recipes, 0);
    let mut total: usize = 0;
    let mut at: usize = 4;
    for k in 0..files {
        let file = recipes::file_at(recipes, at);
        files::check_file(file, index, opened, chains, &mut slots)?;
        let choosing = walk::Choosing { number: k, lengths };
        let n = rows_in(&source, choosing, file, &slots, query, &mut counts);
        has_rows[k] = n != 0;
        total += n;
        at += 4 + file.len();
    }
    Ok(Plan {
        total,
        counts,
        opened,
        has_rows,
    })
}

// The plan of an index, recipes and a query; an empty query asks for all occurrences. It leaves the chains of the index's fingerprints and the
// keywords' tables in the arrays.
pub fn make(
    index: &[u8],
    recipes: &[u8],
    query: &[u8],
    chains: &mut [u32],
    tables: &mut [[[u32; 32]; 32]; 16],
) -> Result<Plan, Refusal>
    requires { Empty chains.old × (length query.now ≤ 8) }
    ensures { (number result ≡ plan_code index.now recipes.now)
        × IfOk result (λ p. p ≡ plan_of index.now recipes.now query.now)
        × (chains.new ≡ examined_chains index.now chains.old)
        × (tables.new ≡ planned_tables index.now recipes.now tables.old) }
{
    prepare(index, recipes, chains)?;
    let opened = index::opened(index);
    let list = &index[8..];
    let words = keywords::parse(list);
    *tables = tables::tables_of(list, words);
    let lengths = words.len;
    let survey = Survey { opened, lengths };
    survey_files(index, recipes, survey, chains, tables, query)
}
