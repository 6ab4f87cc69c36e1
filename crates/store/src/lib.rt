// Stores: their check (of the entries: store_entries), the lookup of a chunk by its fingerprint, and their entries one by one. Document 01, "Store" and "The two lookups".
#![tactic(auto)]

ghost use Rattle.std.specs.Prelude.{◌≡◌, ◌+◌, ◌*◌, ◌≤◌, [], length, get_or};
ghost use Rattle.spec.specs.Bytes.{position_of};
ghost use Rattle.spec.specs.Outcome.{answer};
ghost use Rattle.spec.specs.Directory.{entry_field, offset_at};
ghost use Rattle.spec.specs.Store.{store_layout, store_keys, store_code, chunk_count, chunk_at};
ghost use Rattle.spec.specs.Lookup.{find_chunk, chunk_start, chunk_length, chunk_of};
ghost use Rattle.spec.specs.Refusal.{number, outcome_of};
ghost use Rattle.directory.specs.Chains.{Empty};
ghost use Rattle.store.specs.Examined.{examined_chains, StoreEntry, Findable};

use spec::Refusal;

// 44 56 31 0A
const MARK: [u8; 4] = [0x44, 0x56, 0x31, 0x0A];

// The chunk count.
pub fn chunk_count(store: &[u8]) -> usize
    requires { 8 ≤ length store.now }
    ensures { result ≡ chunk_count store.now }
{
    field::read(store, 4, 4) as usize
}

// The store check; it leaves the chains of the store's fingerprints in the array, once the directory is seen to be
// whole.
pub fn examine(store: &[u8], chains: &mut [u32]) -> Result<(), Refusal>
    requires { Empty chains.old }
    ensures { (number result ≡ store_code store.now)
        × (chains.new ≡ examined_chains store.now chains.old) }
{
    if store.len() < 8 {
        return Err(Refusal::StoreMarkWrong);
    }
    if !field::equal(&store[..4], &MARK) {
        return Err(Refusal::StoreMarkWrong);
    }
    let c = chunk_count(store);
    if 65000 < c {
        return Err(Refusal::StoreDirectoryCut);
    }
    if store.len() < 8 + 28 * c {
        return Err(Refusal::StoreDirectoryCut);
    }
    store_entries::entries(store, c)?;
    if directory::build(store, 8, 28, c, chains) {
        Err(Refusal::StoreDuplicate)
    } else {
        Ok(())
    }
}

// The store check.
pub fn check(store: &[u8]) -> Result<(), Refusal>
    ensures { number result ≡ store_code store.now }
{
    let mut chains = [0u32; 130536];
    examine(store, &mut chains)
}

// The entry of a fingerprint; the chunk count where there is none.
pub fn position(store: &[u8], count: usize, chains: &[u32], fp: &[u8]) -> usize
    requires { Findable store.now count chains.now × (length fp.now ≡ 20) }
    ensures { result ≡ position_of fp.now (store_keys store.now) }
{
    directory::find(store, 8, 28, count, chains, fp)
}

// The entry of a fingerprint, or why the lookup is refused.
fn locate(store: &[u8], fp: &[u8]) -> Result<usize, Refusal>
    ensures { outcome_of result ≡ answer (find_chunk store.now fp.now) (position_of fp.now (store_keys store.now)) }
{
    let mut chains = [0u32; 130536];
    examine(store, &mut chains)?;
    if fp.len() != 20 {
        return Err(Refusal::FingerprintLength);
    }
    let c = chunk_count(store);
    let k = position(store, c, &chains, fp);
    if k == c {
        return Err(Refusal::NotFound);
    }
    Ok(k)
}

// Whether a lookup finds the fingerprint, or why it is refused.
pub fn find_chunk(store: &[u8], fp: &[u8]) -> Result<(), Refusal>
    ensures { number result ≡ find_chunk store.now fp.now }
{
    locate(store, fp)?;
    Ok(())
}

// The field of entry k that starts at byte `at` of it.
fn entry_field(store: &[u8], k: usize, at: usize) -> usize
    requires { StoreEntry store.now k × (at + 4 ≤ 28) }
    ensures { result ≡ entry_field store_layout store.now at k }
{
    field::read(store, 8 + 28 * k + at, 4) as usize
}

// The fingerprint of entry k.
pub fn key_at(store: &[u8], k: usize) -> &[u8]
    requires { StoreEntry store.now k }
    ensures { result.now ≡ get_or (store_keys store.now) k [] }
{
    directory::key(store, 8, 28, k)
}

// The chunk of entry k: the store's own slice, uncopied.
pub fn chunk_at(store: &[u8], k: usize) -> &[u8]
    requires { StoreEntry store.now k }
    ensures { (result.now ≡ chunk_at store.now k)
        × (result.ref_ptr.0 ≡ store.entry.ref_ptr.0)
        × (result.ref_ptr.1 ≡ offset_at store_layout store.now k + store.entry.ref_ptr.1) }
{
    let at = entry_field(store, k, 20);
    let n = entry_field(store, k, 24);
    &store[at..at + n]
}

// Where the chunk of a fingerprint starts; 0 on a refusal.
pub fn chunk_start(store: &[u8], fp: &[u8]) -> usize
    ensures { result ≡ chunk_start store.now fp.now }
{
    match locate(store, fp) {
        Ok(k) => entry_field(store, k, 20),
        Err(_) => 0,
    }
}

// How long the chunk of a fingerprint is; 0 on a refusal.
pub fn chunk_length(store: &[u8], fp: &[u8]) -> usize
    ensures { result ≡ chunk_length store.now fp.now }
{
    match locate(store, fp) {
        Ok(k) => entry_field(store, k, 24),
        Err(_) => 0,
    }
}

// The chunk of a fingerprint: a slice of the store itself, never of the fingerprint; the empty slice at the store's start on a refusal.
pub fn chunk<'a, 'b>(store: &'a [u8], fp: &'b [u8]) -> &'a [u8]
    ensures { (result.now ≡ chunk_of store.now fp.now)
        × (result.ref_ptr.0 ≡ store.entry.ref_ptr.0)
        × (result.ref_ptr.1 ≡ chunk_start store.now fp.now + store.entry.ref_ptr.1) }
{
    match locate(store, fp) {
        Ok(k) => chunk_at(store, k),
        Err(_) => &store[..0],
    }
}
