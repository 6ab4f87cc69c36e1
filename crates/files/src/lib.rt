// A file against a directory: a fingerprint that is not there, a file that is too long, an inner chunk that is too short for the index's format
// (document 01, refusals 15, 16, 17). A file is the bytes of its fingerprints. Every place is looked up once; the entries of the first places
// are left in slots, so that who walks the file next need not look them up again.
#![tactic(auto)]

ghost use Rattle.std.specs.Prelude.{◌≡◌, true, false, ◌+◌, ◌*◌, ◌≤◌, ◌<◌, min, length, take, set, MatchResult};
ghost use Rattle.spec.specs.Bytes.{part, position_of, written};
ghost use Rattle.spec.specs.declared.Refusal.TheVariants.{NotFound};
ghost use Rattle.spec.specs.Refusal.{number};
ghost use Rattle.spec.specs.Recipes.{named, file_code};
ghost use Rattle.directory.specs.Chains.{Lies, Chained};
ghost use Rattle.files.specs.Measures.{keys_at, sizes_at, least_in, inner_short, entries_in, Measured};

use spec::Refusal;

// The entry of fingerprint j of a file; the number of entries where there is none.
pub fn entry_of(file: &[u8], j: usize, index: &[u8], opened: spec::Opened, chains: &[u32]) -> usize
    requires lies { Lies index.now opened.directory 32 opened.entries }
    requires chained { Chained (keys_at index.now opened.directory opened.entries) 0 chains.now }
    requires j_in_bounds { 20 * j + 20 ≤ length file.now }
    ensures { result ≡ position_of (part file.now (20 * j) 20) (keys_at index.now opened.directory opened.entries) }
{
    directory::find(
        index,
        opened.directory,
        32,
        opened.entries,
        chains,
        &file[20 * j..20 * j + 20],
    )
}

// Writes the entry of place j to its slot, if it has one.
fn keep(slots: &mut [u32], j: usize, k: usize)
    requires { k < 4294967296 }
    ensures { slots.new ≡ set slots.old j k }
{
    if j < slots.len() {
        slots[j] = k as u32;
    }
}

// The chunk's length of entry k.
fn size_of(index: &[u8], opened: spec::Opened, k: usize) -> usize
    requires lies { Lies index.now opened.directory 32 opened.entries }
    requires k_lt_entries { k < opened.entries }
    ensures { result ≡ sizes_at index.now opened.directory k }
{
    field::read(index, opened.directory + 32 * k + 20, 4) as usize
}

// The least length of a chunk that is neither first nor last in its file.
#[tactic(auto, unfolding(crate::specs::Measures::least_in))]
fn inner_least(opened: spec::Opened) -> usize
    ensures { result ≡ least_in opened }
{
    if opened.format.sets {
        0
    } else {
        opened.longest.saturating_sub(1)
    }
}

// The chunk at place j of n is neither first nor last, and shorter than is due.
fn inner_short(j: usize, n: usize, size: usize, innerLeast: usize) -> bool
    requires { j < n }
    ensures { result ≡ inner_short j n size innerLeast }
{
    0 < j && j + 1 < n && size < innerLeast
}

// What the tests of a file ask where no fingerprint is missing: its length, up to 4294967296, and whether an inner chunk is too short.
#[derive(Drop)]
struct Measure {
    total: usize,
    short: bool,
}

// Measures a file; the first fingerprint that is missing refuses.
fn measure_file(
    file: &[u8],
    index: &[u8],
    opened: spec::Opened,
    chains: &[u32],
    slots: &mut [u32],
) -> Result<Measure, Refusal>
    requires lies { Lies index.now opened.directory 32 opened.entries }
    requires chained { Chained (keys_at index.now opened.directory opened.entries) 0 chains.now }
    ensures { MatchResult result
        (λ m. Measured (keys_at index.now opened.directory opened.entries) (sizes_at index.now opened.directory) (least_in opened) (named file.now)
        slots.old slots.new false m.total m.short)
        (λ r. (r ≡ NotFound) × Measured (keys_at index.now opened.directory opened.entries) (sizes_at index.now opened.directory) (least_in opened)
        (named file.now) slots.old slots.new true 0 false) }
{
    let least = inner_least(opened);
    let count = opened.entries;
    let n = file.len() / 20;
    let mut total: usize = 0;
    let mut short = false;
    for j in 0..n {
        let k = entry_of(file, j, index, opened, chains);
        if count <= k {
            return Err(Refusal::NotFound);
        }
        keep(slots, j, k);
        let size = size_of(index, opened, k);
        // a sum that stays at 4294967296 once it gets there
        total = total.saturating_add(size).min(4294967296);
        short |= inner_short(j, n, size, least);
    }
    Ok(Measure { total, short })
}

// The check of a file. It leaves the entries of the file's first places in the slots, up to the first fingerprint that is missing.
pub fn check_file(
    file: &[u8],
    index: &[u8],
    opened: spec::Opened,
    chains: &[u32],
    slots: &mut [u32],
) -> Result<(), Refusal>
    requires lies { Lies index.now opened.directory 32 opened.entries }
    requires chained { Chained (keys_at index.now opened.directory opened.entries) 0 chains.now }
    ensures { (number result ≡ file_code (keys_at index.now opened.directory opened.entries) (sizes_at index.now opened.directory)
        (least_in opened) (named file.now))
        × (slots.new ≡ written slots.old (take (length slots.old)
        (entries_in (keys_at index.now opened.directory opened.entries) (named file.now)))) }
{
    let m = measure_file(file, index, opened, chains, slots)?;
    if 4294967295 < m.total {
        return Err(Refusal::FileTooLong);
    }
    if m.short {
        return Err(Refusal::InnerChunkShort);
    }
    Ok(())
}
