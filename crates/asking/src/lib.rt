// Whether bytes are a query (request #109), the query that a plan is asked with, and 21, which stands behind the plan's refusal and before 18.
#![tactic(auto)]

ghost use Rattle.std.specs.Prelude.{◌≡◌, ℕ, [], ◌∷◌, not, cond, ◌&&◌, length, leb};
ghost use Rattle.spec.specs.Outcome.{first_number, whole, query_wrong};
ghost use Rattle.spec.specs.Refusal.{number};
ghost use Rattle.spec.specs.Query.{is_query};

use spec::Refusal;

// Whether a query may have that many numbers.
fn may_number(n: usize) -> bool
    ensures { result ≡ (leb 2 n && leb n 8) }
{
    (2..=8).contains(&n)
}

// Whether a query has 2 to 8 numbers, each below the keyword count.
#[tactic(auto, unfolding(spec::specs::Query::is_query))]
fn is_query(query: &[u8], count: usize) -> bool
    ensures { result ≡ is_query count query.now }
{
    may_number(query.len()) && query.iter().all(|&k| usize::from(k) < count)
}

// The query, or nothing where it has another length than 2 to 8: who is refused with 21 has the files tested first.
pub fn askable<'a>(query: &'a [u8]) -> &'a [u8]
    ensures { result.now ≡ cond (leb 2 (length query.now) && leb (length query.now) 8) query.now [] }
{
    if may_number(query.len()) { query } else { &[] }
}

// 21, the last refusal before 18. It stands behind the plan's, whatever number that has: who asks passes the plan's on first.
pub fn check(query: &[u8], keywords: usize) -> Result<(), Refusal>
    ensures { (planned : ℕ) → first_number (whole planned ∷ whole (number result) ∷ [])
        ≡ first_number (whole planned ∷ (not (is_query keywords query.now), query_wrong) ∷ []) }
{
    if is_query(query, keywords) {
        Ok(())
    } else {
        Err(Refusal::QueryWrong)
    }
}
