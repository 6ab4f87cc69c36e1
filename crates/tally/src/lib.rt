// The tally of four clients' counts (request #110): a key gives each keyword its client, and what a join lists is added client by client, by value.
#![tactic(auto)]

ghost use Rattle.std.specs.Prelude.{◌≡◌, true, ℕ, ◌+◌, ◌^◌, ◌≤◌, ◌<◌, ltb, length, get_or};
ghost use Rattle.std.specs.Result.{result_unwrap_or};
ghost use Rattle.spec.specs.Join.{counts_of, sums, is_key, fit64};
ghost use Rattle.spec.specs.Refusal.{number};
ghost use Rattle.tally.specs.Tallying.{client_sum, client_sums, add_code, added_to};

use spec::{Refusal, Tally};

// The key has 16 bytes, and gives each of the keywords a client from 0 to 3.
fn is_key(key: &[u8], keywords: usize) -> bool
    requires { keywords ≤ 16 }
    ensures { result ≡ is_key keywords key.now }
{
    key.len() == 16 && key[..keywords].iter().all(|&client| client <= 3)
}

// The sum of the counts of a client's keywords.
fn client_sum(key: &[u8], keywords: usize, counts: [usize; 16], client: u8) -> u64
    requires { (keywords ≤ 16) × (keywords ≤ length key.now) × ((k : ℕ) → k < 16 → get_or counts k 0 < 2 ^ 59) }
    ensures { result ≡ client_sum key.now counts keywords client }
{
    let mut sum: u64 = 0;
    for k in 0..keywords {
        if key[k] == client {
            sum += counts[k] as u64;
        }
    }
    sum
}

// The sums of all four clients.
#[tactic(auto, unfolding(crate::specs::Tallying::client_sums))]
fn client_sums(key: &[u8], keywords: usize, counts: [usize; 16]) -> Tally
    requires { (keywords ≤ 16) × (keywords ≤ length key.now) × ((k : ℕ) → k < 16 → get_or counts k 0 < 2 ^ 59) }
    ensures { counts_of result ≡ client_sums key.now counts keywords }
{
    let client0 = client_sum(key, keywords, counts, 0);
    let client1 = client_sum(key, keywords, counts, 1);
    let client2 = client_sum(key, keywords, counts, 2);
    let client3 = client_sum(key, keywords, counts, 3);
    Tally {
        client0,
        client1,
        client2,
        client3,
    }
}

// Two counts need no more than 64 bits together.
fn fit(a: u64, b: u64) -> bool
    ensures { result ≡ ltb (a + b) (2 ^ 64) }
{
    b <= u64::MAX - a
}

// No count of the sum passes 64 bits.
#[tactic(auto, unfolding(spec::specs::Join::fit64))]
fn fit_all(tally: Tally, more: Tally) -> bool
    ensures { result ≡ fit64 (sums (counts_of tally) (counts_of more)) }
{
    fit(tally.client0, more.client0)
        && fit(tally.client1, more.client1)
        && fit(tally.client2, more.client2)
        && fit(tally.client3, more.client3)
}

// A tally with the counts of another.
#[tactic(auto, unfolding(spec::specs::Join::fit64))]
fn added(tally: Tally, more: Tally) -> Tally
    requires { fit64 (sums (counts_of tally) (counts_of more)) ≡ true }
    ensures { counts_of result ≡ sums (counts_of tally) (counts_of more) }
{
    let client0 = tally.client0 + more.client0;
    let client1 = tally.client1 + more.client1;
    let client2 = tally.client2 + more.client2;
    let client3 = tally.client3 + more.client3;
    Tally {
        client0,
        client1,
        client2,
        client3,
    }
}

// Adds the keywords' counts to a tally, client by client. The key is tested before the sums, and all four sums before any count is changed.
pub fn add(key: &[u8], keywords: usize, counts: [usize; 16], tally: Tally) -> Result<Tally, Refusal>
    requires { (keywords ≤ 16) × ((k : ℕ) → k < 16 → get_or counts k 0 < 2 ^ 59) }
    ensures { (number result ≡ add_code key.now counts keywords (counts_of tally))
        × (counts_of (result_unwrap_or result tally) ≡ added_to key.now counts keywords (counts_of tally)) }
{
    if !is_key(key, keywords) {
        return Err(Refusal::KeyWrong);
    }
    let more = client_sums(key, keywords, counts);
    if !fit_all(tally, more) {
        return Err(Refusal::CountTooLarge);
    }
    Ok(added(tally, more))
}
