// Directories: the entry of a fingerprint, whether a fingerprint is there twice, and the check of the entries.
// Fingerprints are found by hash chains in one array of the caller, the heads and behind them the links, built from the last entry to the first.
#![tactic(auto)]

ghost use Rattle.std.specs.Prelude.{◌≡◌, cond, ℕ, suc, ◌+◌, ◌-◌, ◌*◌, ◌≤◌, ◌<◌, length};
ghost use Rattle.spec.specs.Bytes.{part, same, twice, position_of, written};
ghost use Rattle.spec.specs.Directory.{entries_code};
ghost use Rattle.directory.specs.Chains.{hash_of, keys_from, chains_of, place_from, Starts, Linked, Chained, Inserted, Lies, Empty, layout_of};

// How many hashes there may be, each with a head.
const HEADS: usize = 65536;

// The hash of a key of 20 bytes. Its five products do not wait for each other, and one remainder is taken.
fn hash(key: &[u8]) -> usize
    requires { length key.now ≡ 20 }
    ensures value { result ≡ hash_of key.now }
    ensures small { result < 65521 }
{
    let sum = field::read(key, 0, 4) * 506832829
        + field::read(key, 4, 4) * 374761393
        + field::read(key, 8, 4) * 466882007
        + field::read(key, 12, 4) * 298632863
        + field::read(key, 16, 4) * 413158511;
    (sum % 65521) as usize
}

// Two keys of 20 bytes are the same: field by field, as that takes a fourth of the loads.
fn same_key(a: &[u8], b: &[u8]) -> bool
    requires { (length a.now ≡ 20) × (length b.now ≡ 20) }
    ensures { result ≡ same a.now b.now }
{
    for k in 0..5 {
        if field::read(a, 4 * k, 4) != field::read(b, 4 * k, 4) {
            return false;
        }
    }
    true
}

// The key of entry e, a slice of the bytes.
pub fn key(bytes: &[u8], start: usize, stride: usize, e: usize) -> &[u8]
    requires { start + stride * e + 20 ≤ length bytes.now }
    ensures { result.now ≡ part bytes.now (start + stride * e) 20 }
{
    let at = start + stride * e;
    &bytes[at..at + 20]
}

// A directory in some bytes: where its first entry starts, the bytes of an entry, how many there are.
#[derive(Clone, Copy)]
struct Extent {
    start: usize,
    stride: usize,
    count: usize,
}

// Follows a chain to the first entry with the key; `count` where there is none. `from` is the number of entries from the chain's first on.
fn follow(bytes: &[u8], dir: Extent, chains: &[u32], from: usize, probe: &[u8]) -> usize
    requires lies { Lies bytes.now dir.start dir.stride dir.count }
    requires linked { Linked (keys_from bytes.now dir.start dir.stride dir.count) (dir.count - from) chains.now }
    requires starts { Starts probe.now (keys_from bytes.now dir.start dir.stride dir.count) from }
    requires probe_len { length probe.now ≡ 20 }
    ensures { result ≡ place_from probe.now (keys_from bytes.now dir.start dir.stride dir.count) (dir.count - from) }
{
    let mut n = from;
    while 0 < n {
        let e = dir.count - n;
        if same_key(probe, key(bytes, dir.start, dir.stride, e)) {
            return e;
        }
        n = chains[HEADS + e] as usize;
    }
    dir.count
}

// The first entry with the key; `count` where there is none.
pub fn find(
    bytes: &[u8],
    start: usize,
    stride: usize,
    count: usize,
    chains: &[u32],
    probe: &[u8],
) -> usize
    requires lies { Lies bytes.now start stride count }
    requires chained { Chained (keys_from bytes.now start stride count) 0 chains.now }
    requires probe_len { length probe.now ≡ 20 }
    ensures { result ≡ position_of probe.now (keys_from bytes.now start stride count) }
{
    let dir = Extent {
        start,
        stride,
        count,
    };
    let h = hash(probe);
    follow(bytes, dir, chains, chains[h] as usize, probe)
}

// Puts entry e in front of those after it; whether its key is one of theirs.
fn insert(bytes: &[u8], dir: Extent, e: usize, chains: &mut [u32]) -> bool
    requires lies { Lies bytes.now dir.start dir.stride dir.count }
    requires chained { Chained (keys_from bytes.now dir.start dir.stride dir.count) (suc e) chains.old }
    requires e_lt_count { e < dir.count }
    ensures { Inserted (keys_from bytes.now dir.start dir.stride dir.count) e chains.old chains.new result }
{
    let probe = key(bytes, dir.start, dir.stride, e);
    let h = hash(probe);
    let from = chains[h] as usize;
    let duplicate = follow(bytes, dir, chains, from, probe);
    chains[HEADS + e] = chains[h];
    chains[h] = (dir.count - e) as u32;
    duplicate < dir.count
}

// Puts all entries into an empty index; whether some two keys are the same.
pub fn build(bytes: &[u8], start: usize, stride: usize, count: usize, chains: &mut [u32]) -> bool
    requires lies { Lies bytes.now start stride count }
    requires empty { Empty chains.old }
    ensures { (result ≡ twice (keys_from bytes.now start stride count))
        × (chains.new ≡ written chains.old (chains_of (keys_from bytes.now start stride count))) }
{
    let dir = Extent {
        start,
        stride,
        count,
    };
    let mut duplicate = false;
    for e in (0..count).rev() {
        duplicate |= insert(bytes, dir, e, chains);
    }
    duplicate
}

// The check of the entries, one after the other: lengths from 1 to `most`, offsets where the one before ended, and the last end.
pub fn entries(
    bytes: &[u8],
    start: usize,
    stride: usize,
    sizes: usize,
    offsets: usize,
    lengths: usize,
    most: usize,
    count: usize,
) -> bool
    requires { (start + stride * count ≤ length bytes.now) × (sizes + 4 ≤ stride) × (offsets + 4 ≤ stride) × (lengths + 4 ≤ stride) }
    ensures { (code : ℕ) → cond result 0 code
        ≡ entries_code (layout_of start stride sizes offsets lengths) bytes.now most code count 0 (start + stride * count) }
{
    let mut at = start + stride * count;
    for k in 0..count {
        let base = start + stride * k;
        let size = field::read(bytes, base + sizes, 4) as usize;
        if !(1..=most).contains(&size) {
            return false;
        }
        if field::read(bytes, base + offsets, 4) as usize != at {
            return false;
        }
        let long = field::read(bytes, base + lengths, 4) as usize;
        // past the end no later end can be right, and the sum cannot wrap
        if bytes.len() - at < long {
            return false;
        }
        at += long;
    }
    at == bytes.len()
}
