// The log that the walk over the trie leaves of a chunk (request #103), and its tally. The log may come in parts, one after the other: their tallies are
// joined.
#![tactic(auto)]

ghost use Rattle.std.specs.Prelude.{◌≡◌, cond, length, eqb};
ghost use Rattle.logs.specs.Log.{AllFit};
ghost use Rattle.logs.specs.Tallies.{CanCount, OneMore, Kept, tally_of, tally_both, CanJoin};

// ---- the tally: how many offsets each keyword has, and the first

#[derive(Clone, Copy)]
pub struct Tally {
    pub counts: [usize; 16],
    // 0 where there is none
    pub firsts: [usize; 16],
}

// Counts the keywords that end at one place, and keeps their offsets: each starts its length before the end.
fn count_entry(counts: &mut [usize], firsts: &mut [usize], len: &[usize], members: u32, end: usize)
    requires { CanCount counts.old firsts.old len.now members end }
    ensures { OneMore members counts.old counts.new × Kept members end len.now firsts.old
        firsts.new }
{
    let mut rest = members;
    let mut from: usize = 0;
    while rest != 0 {
        let z = rest.trailing_zeros();
        let k = from + z as usize;
        counts[k] += 1;
        firsts[k] = end - len[k];
        rest = (rest >> z) / 2;
        from = k + 1;
    }
}

// An entry of the log is a node's number times this, and the place in the chunk of the byte that led there.
pub const PLACES: u32 = 1048576;

// The tally of a log, from its last entry to its first, so that the first offset is the one kept.
pub fn tally_of(log: &[u32], ends: &[u32], len: &[usize]) -> Tally
    requires { (length len.now ≡ 16) × AllFit ends.now len.now log.now }
    ensures { result ≡ tally_of ends.now len.now log.now }
{
    let mut counts = [0usize; 16];
    let mut firsts = [0usize; 16];
    for &entry in log.iter().rev() {
        let node = (entry / PLACES) as usize;
        let end = (entry % PLACES) as usize + 1;
        count_entry(&mut counts, &mut firsts, len, ends[node], end);
    }
    Tally { counts, firsts }
}

// The first offset of a log in two parts: the second part's where the first has none.
fn first_of(count: usize, first: usize, other: usize) -> usize
    ensures { result ≡ cond (eqb count 0) other first }
{
    if count == 0 { other } else { first }
}

// The tally of two logs, one after the other, from the tally of each.
pub fn tally_with(before: Tally, more: Tally) -> Tally
    requires { CanJoin before more }
    ensures { result ≡ tally_both before more }
{
    let more_counts = more.counts;
    let more_firsts = more.firsts;
    let mut counts = before.counts;
    let mut firsts = before.firsts;
    for k in 0..16 {
        firsts[k] = first_of(counts[k], firsts[k], more_firsts[k]);
        counts[k] += more_counts[k];
    }
    Tally { counts, firsts }
}
