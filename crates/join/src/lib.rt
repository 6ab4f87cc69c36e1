// The join: the logical phase of the search, over a match index and recipes alone (document 01, "Recipes and the join"). It is given no
// store. The plan tests and counts each file first, so that a refusal changes no byte; then the files that have occurrences are listed. What is
// listed is added to the tally of the clients, by a key (request #110).
#![tactic(auto)]

ghost use Rattle.std.specs.Prelude.{◌≡◌, [], ◌*◌, ◌≤◌, length, Err};
ghost use Rattle.spec.specs.Bytes.{splice};
ghost use Rattle.spec.specs.Form.{form_of};
ghost use Rattle.spec.specs.Refusal.{outcome_of};
ghost use Rattle.spec.specs.Join.{counts_of, lent, join_list, list_bytes, count_outcome, join_outcome, join_buffer, join_tally};
ghost use Rattle.plan.specs.Plans.{Planned};

use spec::Refusal;

// Lists the occurrences of all files.
fn list_files(
    index: &[u8],
    recipes: &[u8],
    made: plan::Plan,
    chains: &[u32],
    tables: &[[[u32; 32]; 32]; 16],
    out: &mut [u8],
)
    requires planned { Planned index.now recipes.now [] made chains.now tables.now }
    requires recipes_in_bounds { 9 * length (join_list (form_of index.now) index.now recipes.now) ≤ length out.old }
    ensures { out.new
        ≡ splice out.old 0 (list_bytes (join_list (form_of index.now) index.now recipes.now)) }
{
    let source = walk::Source {
        index,
        opened: made.opened,
        chains,
        tables,
    };
    let files = recipes::count_at(recipes, 0);
    let mut place: usize = 0;
    let mut at: usize = 4;
    for number in 0..files {
        let file = recipes::file_at(recipes, at);
        let listing = walk::Listing {
            number,
            place,
            has_rows: made.has_rows[number],
        };
        place = walk::list_file(&source, listing, file, out);
        at += 4 + file.len();
    }
}

// The count that a join would report, whatever the buffer, or the refusal.
pub fn count(index: &[u8], recipes: &[u8]) -> Result<usize, Refusal>
    ensures { outcome_of result ≡ count_outcome (form_of index.now) index.now recipes.now }
{
    let mut chains = [0u32; 130536];
    let mut tables = [[[0u32; 32]; 32]; 16];
    let counted = plan::make(index, recipes, &[], &mut chains, &mut tables)?;
    Ok(counted.total)
}

// The answer of a join, and the tally after it.
#[derive(Clone, Copy)]
pub struct Joined {
    pub outcome: Result<usize, Refusal>,
    pub tally: spec::Tally,
}

fn refused(refusal: Refusal, before: spec::Tally) -> Joined
    ensures { (result.outcome ≡ Err refusal) × (result.tally ≡ before) }
{
    Joined {
        outcome: Err(refusal),
        tally: before,
    }
}

// The join with a tally by value (request #110). 22 and 23 are tested behind 18, and before a byte is written.
pub fn tallied(
    index: &[u8],
    recipes: &[u8],
    key: &[u8],
    out: &mut [u8],
    before: spec::Tally,
) -> Joined
    ensures { (outcome_of result.outcome ≡ join_outcome (form_of index.now) index.now recipes.now (lent key.now before) (length out.old))
        × (out.new ≡ join_buffer (form_of index.now) index.now recipes.now (lent key.now before) out.old)
        × (counts_of result.tally ≡ join_tally (form_of index.now) index.now recipes.now (lent key.now before) (length out.old)) }
{
    let mut chains = [0u32; 130536];
    let mut tables = [[[0u32; 32]; 32]; 16];
    let p = match plan::make(index, recipes, &[], &mut chains, &mut tables) {
        Ok(plan) => plan,
        Err(refusal) => return refused(refusal, before),
    };
    if out.len() / 9 < p.total {
        return refused(Refusal::ListTooLong, before);
    }
    let counts = p.counts;
    let after = match tally::add(key, p.opened.keywords, counts, before) {
        Ok(sums) => sums,
        Err(keyed) => return refused(keyed, before),
    };
    list_files(index, recipes, p, &chains, &tables, out);
    Joined {
        outcome: Ok(p.total),
        tally: after,
    }
}

// The join: the count, or the refusal, which changes no byte of the buffer and no count of the tally that is lent.
pub fn join(
    index: &[u8],
    recipes: &[u8],
    key: &[u8],
    out: &mut [u8],
    tally: &mut spec::Tally,
) -> Result<usize, Refusal>
    ensures { (outcome_of result ≡ join_outcome (form_of index.now) index.now recipes.now (lent key.now tally.old) (length out.old))
        × (out.new ≡ join_buffer (form_of index.now) index.now recipes.now (lent key.now tally.old) out.old)
        × (counts_of tally.new ≡ join_tally (form_of index.now) index.now recipes.now (lent key.now tally.old) (length out.old)) }
{
    let j = tallied(index, recipes, key, out, *tally);
    *tally = j.tally;
    j.outcome
}
