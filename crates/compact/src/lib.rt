// Compaction (request #107): a store without holes that has exactly the chunks that some recipe names, in their old order. The entries that recipes
// name are marked, one lookup a place; then one pass over the entries measures the new store, and one writes it.
#![tactic(auto)]

ghost use Rattle.std.specs.Prelude.{◌≡◌, false, [], ◌++◌, map, ℕ, ◌+◌, ◌*◌, ◌≤◌, length, get_or};
ghost use Rattle.spec.specs.Bytes.{le_bytes, splice};
ghost use Rattle.spec.specs.Store.{gapless, store_directory_bytes, store_bytes, chunk_count, chunk_at, store_keys};
ghost use Rattle.spec.specs.Recipes.{named, recipes_code};
ghost use Rattle.spec.specs.Compact.{compactable_code, compact_size, compact_outcome, compact_buffer};
ghost use Rattle.directory.specs.Chains.{Empty};
ghost use Rattle.store.specs.Examined.{StoreEntry, Findable};
ghost use Rattle.compact.specs.Marking.{MarkedFile, MarkedAll, Marks, marked_from, marked_at, chunk_bytes};
ghost use Rattle.compact.specs.Writing.{CanPutChunk, CanPutMarked, CanPutStore, Examined};
ghost use Rattle.spec.specs.Refusal.{number, outcome_of};

use spec::Refusal;

// The mark of a store.
const MARK: [u8; 4] = [0x44, 0x56, 0x31, 0x0A];

// ---- which chunks

// Marks the entries that a file names, or refuses it where a fingerprint is missing.
fn mark_file(
    file: &[u8],
    store: &[u8],
    count: usize,
    chains: &[u32],
    marks: &mut [bool],
) -> Result<(), Refusal>
    requires { Findable store.now count chains.now × (chunk_count store.now ≤ length marks.old) }
    ensures { MarkedFile (store_keys store.now) (named file.now) marks.old marks.new (number result) }
{
    let n = file.len() / 20;
    for j in 0..n {
        let key = directory::key(file, 0, 20, j);
        let k = store::position(store, count, chains, key);
        if count <= k {
            return Err(Refusal::NotFound);
        }
        marks[k] = true;
    }
    Ok(())
}

// Marks the entries that some file names, or refuses the first file of which a fingerprint is missing.
fn mark_files(
    recipes: &[u8],
    store: &[u8],
    count: usize,
    chains: &[u32],
    marks: &mut [bool],
) -> Result<(), Refusal>
    requires { Findable store.now count chains.now × (chunk_count store.now ≤ length marks.old) × (recipes_code recipes.now ≡ 0) }
    ensures { MarkedAll store.now recipes.now marks.old marks.new (number result) }
{
    let files = recipes::count_at(recipes, 0);
    let mut at: usize = 4;
    for _ in 0..files {
        let file = recipes::file_at(recipes, at);
        mark_file(file, store, count, chains, marks)?;
        at += 4 + file.len();
    }
    Ok(())
}

// ---- measuring

// How many chunks are marked, and how many bytes they have.
#[derive(Drop)]
struct Sum {
    count: usize,
    size: usize,
}

// Adds up the marked chunks. A mark is a factor of 0 or 1, so there is no branch.
fn measure(store: &[u8], count: usize, marks: &[bool]) -> Sum
    requires { Marks store.now count marks.now }
    ensures { (result.count ≡ length (marked_from store.now marks.now 0))
        × (result.size ≡ length (chunk_bytes (marked_from store.now marks.now 0)))
        × (result.count ≤ 65000)
        × (result.size ≤ 68157440000) }
{
    let mut n: usize = 0;
    let mut size: usize = 0;
    for k in 0..count {
        let chunk = store::chunk_at(store, k);
        let mark = usize::from(marks[k]);
        n += mark;
        size += mark * chunk.len();
    }
    Sum { count: n, size }
}

// ---- writing

// Where the next entry and the next chunk go.
#[derive(Drop)]
struct Place {
    entry: usize,
    at: usize,
}

// Writes chunk k and its entry: where the next ones go.
fn put_chunk(out: &mut [u8], place: Place, store: &[u8], k: usize) -> Place
    requires { CanPutChunk out.old place.entry place.at store.now k }
    ensures { (out.new ≡ splice (splice out.old place.at (chunk_at store.now k)) place.entry
        (get_or (store_keys store.now) k [] ++ le_bytes 4 place.at ++ le_bytes 4 (length (chunk_at store.now k))))
        × (result.entry ≡ place.entry + 28)
        × (result.at ≡ place.at + length (chunk_at store.now k)) }
{
    let entry = place.entry;
    let at = place.at;
    let chunk = store::chunk_at(store, k);
    let key = store::key_at(store, k);
    field::copy(out, at, chunk);
    field::copy(out, entry, key);
    field::write(out, entry + 20, 4, at as u64);
    field::write(out, entry + 24, 4, chunk.len() as u64);
    Place {
        entry: entry + 28,
        at: at + chunk.len(),
    }
}

// Writes chunk k and its entry where it is marked.
fn put_marked(out: &mut [u8], place: Place, store: &[u8], k: usize, marked: bool) -> Place
    requires { CanPutMarked out.old place.entry place.at store.now k marked }
    ensures { (out.new ≡ splice (splice out.old place.at (chunk_bytes (marked_at store.now marked k))) place.entry
        (store_directory_bytes place.at (map gapless (marked_at store.now marked k))))
        × (result.entry ≡ place.entry + 28 * length (marked_at store.now marked k))
        × (result.at ≡ place.at + length (chunk_bytes (marked_at store.now marked k))) }
{
    if marked {
        put_chunk(out, place, store, k)
    } else {
        place
    }
}

// Writes the marked chunks, `n` of them, and their entries.
fn put_chunks(out: &mut [u8], store: &[u8], count: usize, marks: &[bool], n: usize)
    requires { CanPutStore out.old store.now count marks.now n }
    ensures { out.new ≡ splice out.old 8
        (store_directory_bytes (8 + 28 * n) (map gapless (marked_from store.now marks.now 0))
        ++ chunk_bytes (marked_from store.now marks.now 0)) }
{
    let mut place = Place {
        entry: 8,
        at: 8 + 28 * n,
    };
    for k in 0..count {
        place = put_marked(out, place, store, k, marks[k]);
    }
}

// Writes the store of the marked chunks, `n` of them, at the buffer's start.
fn put_store(out: &mut [u8], store: &[u8], count: usize, marks: &[bool], n: usize)
    requires { CanPutStore out.old store.now count marks.now n }
    ensures { out.new ≡ splice out.old 0 (store_bytes (marked_from store.now marks.now 0)) }
{
    field::copy(out, 0, &MARK);
    field::write(out, 4, 4, n as u64);
    put_chunks(out, store, count, marks, n);
}

// ---- the operation

// The refusals before 9; where there is none, the marks of the entries that some recipe names.
fn examine(store: &[u8], recipes: &[u8], marks: &mut [bool]) -> Result<(), Refusal>
    requires { ((e : ℕ) → get_or marks.old e false ≡ false) × (length marks.old ≡ 65000) }
    ensures { Examined store.now recipes.now marks.new (number result) }
{
    let mut chains = [0u32; 130536];
    store::examine(store, &mut chains)?;
    recipes::check(recipes)?;
    let count = store::chunk_count(store);
    mark_files(recipes, store, count, &chains, marks)
}

// The length of the store that a compaction would write, whatever the buffer, or the refusal.
pub fn size(store: &[u8], recipes: &[u8]) -> Result<usize, Refusal>
    ensures { outcome_of result ≡ compact_size store.now recipes.now }
{
    let mut marks = [false; 65000];
    examine(store, recipes, &mut marks)?;
    let count = store::chunk_count(store);
    let sum = measure(store, count, &marks);
    Ok(8 + 28 * sum.count + sum.size)
}

// The compaction: the new store's length, or the refusal, which changes no byte of the buffer.
pub fn compact(store: &[u8], recipes: &[u8], out: &mut [u8]) -> Result<usize, Refusal>
    ensures { (outcome_of result ≡ compact_outcome store.now recipes.now (length out.old))
        × (out.new ≡ compact_buffer store.now recipes.now out.old) }
{
    let mut marks = [false; 65000];
    examine(store, recipes, &mut marks)?;
    let count = store::chunk_count(store);
    let sum = measure(store, count, &marks);
    let len = 8 + 28 * sum.count + sum.size;
    if out.len() < len {
        return Err(Refusal::OutputTooLong);
    }
    put_store(out, store, count, &marks, sum.count);
    Ok(len)
}
