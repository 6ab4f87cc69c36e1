// One keyword against bytes: whether it occurs at an offset, the suffix of its match record (the papers' "short backward look"), and the record's set
// of inner starts (request #108). Keyword and chunk are slices of the keyword list and of the store, never copied.
#![tactic(auto)]

ghost use Rattle.std.specs.Prelude.{◌≡◌, ◌≤◌, length};
ghost use Rattle.spec.specs.Bytes.{occurs_at};
ghost use Rattle.spec.specs.Keywords.{folded};
ghost use Rattle.spec.specs.Records.{reach, suffix_of, inner_of};

// Whether the keyword occurs at the offset of the chunk.
pub fn occurs_at(keyword: &[u8], chunk: &[u8], at: usize, flag: u8) -> bool
    ensures { result ≡ occurs_at (folded flag keyword.now) (folded flag chunk.now) at }
{
    if keyword.is_empty() {
        return true;
    }
    if chunk.len() < at || chunk.len() - at < keyword.len() {
        return false;
    }
    for (k, &b) in keyword.iter().enumerate() {
        if folding::fold(flag, b) != folding::fold(flag, chunk[at + k]) {
            return false;
        }
    }
    true
}

// The record's suffix: the longest beginning of the chunk that ends the keyword and is not all of it.
pub fn suffix_of(keyword: &[u8], chunk: &[u8], flag: u8) -> usize
    ensures { result ≡ suffix_of (folded flag keyword.now) (folded flag chunk.now) }
{
    let reach = keyword.len().saturating_sub(1).min(chunk.len());
    for j in (1..=reach).rev() {
        let from = keyword.len() - j;
        if occurs_at(&keyword[from..], chunk, 0, flag) {
            return j;
        }
    }
    0
}

// The record's set: bit p for each start p from 1 to n - 1 - L at which the chunk is the keyword's L bytes from p. Where the chunk has more than
// n - 2 bytes there is no such start.
pub fn set_of(keyword: &[u8], chunk: &[u8], flag: u8) -> u32
    requires { length keyword.now ≤ 32 }
    ensures { result ≡ inner_of (folded flag keyword.now) (folded flag chunk.now) }
{
    let size = chunk.len();
    let mut set = 0;
    for p in 1..keyword.len().saturating_sub(size) {
        if occurs_at(&keyword[p..p + size], chunk, 0, flag) {
            set += 1 << p;
        }
    }
    set
}
