// Match indexes: the index check ("notes check"), and the lookup of a body by a fingerprint (document 01, "Refusals by operation", "The two lookups").
#![tactic(auto)]

ghost use Rattle.std.specs.Prelude.{◌≡◌, ◌+◌, ◌*◌, ◌≤◌, ◌<◌, length};
ghost use Rattle.spec.specs.Bytes.{position_of};
ghost use Rattle.spec.specs.Outcome.{answer};
ghost use Rattle.spec.specs.Store.{chunk_count};
ghost use Rattle.spec.specs.Form.{form_of, format_of};
ghost use Rattle.spec.specs.Directory.{entry_field, offset_at};
ghost use Rattle.spec.specs.Index.{index_layout, index_keys, body_at, good_at, all_good, index_code, header_code, directory_code};
ghost use Rattle.spec.specs.Opened.{opened_of};
ghost use Rattle.spec.specs.Lookup.{find_body, body_start, body_length, body_of};
ghost use Rattle.spec.specs.Refusal.{number, outcome_of};
ghost use Rattle.directory.specs.Chains.{Empty};
ghost use Rattle.index.specs.Stages.{examined_chains, Headed, Laid, Lens, IndexEntry};

use spec::{Format, Refusal};

// Fewer than 8 bytes, another mark than the format's, or a chunk count above 65,000.
fn header(index: &[u8], format: Format) -> Result<(), Refusal>
    requires { format ≡ format_of (form_of index.now) }
    ensures { number result ≡ header_code (form_of index.now) index.now }
{
    if index.len() < 8 {
        return Err(Refusal::IndexMarkWrong);
    }
    let digit = 0x30 + format.number;
    let mark: [u8; 4] = [0x44, 0x4D, digit, 0x0A];
    if !field::equal(&index[..4], &mark) {
        return Err(Refusal::IndexMarkWrong);
    }
    if field::read(index, 4, 4) <= 65000 {
        Ok(())
    } else {
        Err(Refusal::IndexMarkWrong)
    }
}

// The chunk count.
fn chunk_count(index: &[u8]) -> usize
    requires { 8 ≤ length index.now }
    ensures { result ≡ chunk_count index.now }
{
    field::read(index, 4, 4) as usize
}

// The directory cut short, an entry wrong, or the last end not the index's.
fn entries(index: &[u8], format: Format, start: usize, count: usize) -> Result<(), Refusal>
    requires { Headed index.now start count × (format ≡ format_of (form_of index.now)) }
    ensures { number result ≡ directory_code (form_of index.now) index.now }
{
    if index.len() < start + 32 * count {
        return Err(Refusal::IndexEntryWrong);
    }
    if directory::entries(index, start, 32, 20, 24, 28, format.longest, count) {
        Ok(())
    } else {
        Err(Refusal::IndexEntryWrong)
    }
}

// The body of entry e is good.
fn entry_good(
    index: &[u8],
    format: Format,
    start: usize,
    e: usize,
    lens: &[usize],
    words: usize,
) -> bool
    requires { Laid index.now start (chunk_count index.now) × (e < chunk_count index.now) × Lens index.now words lens.now
        × (format ≡ format_of (form_of index.now)) }
    ensures { result ≡ good_at (form_of index.now) index.now e }
{
    let base = start + 32 * e;
    let size = field::read(index, base + 20, 4) as usize;
    let at = field::read(index, base + 24, 4) as usize;
    let n = field::read(index, base + 28, 4) as usize;
    bodies::body_good(&index[at..at + n], format, lens, words, size)
}

// All bodies are good.
fn all_good(
    index: &[u8],
    format: Format,
    start: usize,
    count: usize,
    lens: &[usize],
    words: usize,
) -> bool
    requires { Laid index.now start count × Lens index.now words lens.now × (format ≡ format_of (form_of index.now)) }
    ensures { result ≡ all_good (form_of index.now) index.now }
{
    for e in 0..count {
        if !entry_good(index, format, start, e, lens, words) {
            return false;
        }
    }
    true
}

// The index check; it leaves the chains of the index's fingerprints in the array, once the directory is seen to be whole.
pub fn examine(index: &[u8], chains: &mut [u32]) -> Result<(), Refusal>
    requires { Empty chains.old }
    ensures { (number result ≡ index_code (form_of index.now) index.now)
        × (chains.new ≡ examined_chains index.now chains.old) }
{
    let format = format::of(index);
    header(index, format)?;
    keywords::check_front(&index[8..])?;
    let list = keywords::parse(&index[8..]);
    let start = 8 + list.size;
    let c = chunk_count(index);
    entries(index, format, start, c)?;
    if directory::build(index, start, 32, c, chains) {
        return Err(Refusal::IndexDuplicate);
    }
    if all_good(index, format, start, c, &list.len, list.count) {
        Ok(())
    } else {
        Err(Refusal::BodyNotGood)
    }
}

// The index check.
pub fn check(index: &[u8]) -> Result<(), Refusal>
    ensures { number result ≡ index_code (form_of index.now) index.now }
{
    let mut chains = [0u32; 130536];
    examine(index, &mut chains)
}

// What the readers of an index that passed its check go by: where its directory starts, how many entries and keywords it has, the longest
// keyword's length, and its format.
pub fn opened(index: &[u8]) -> spec::Opened
    requires { index_code (form_of index.now) index.now ≡ 0 }
    ensures { result ≡ opened_of index.now }
{
    let list = keywords::parse(&index[8..]);
    let start = 8 + list.size;
    let c = chunk_count(index);
    let format = format::of(index);
    spec::Opened {
        directory: start,
        entries: c,
        keywords: list.count,
        longest: list.most,
        format,
    }
}

// The entry of a fingerprint, or why the lookup is refused.
fn locate(index: &[u8], fp: &[u8]) -> Result<usize, Refusal>
    ensures { outcome_of result ≡ answer (find_body (form_of index.now) index.now fp.now)
        (position_of fp.now (index_keys index.now)) }
{
    let mut chains = [0u32; 130536];
    examine(index, &mut chains)?;
    if fp.len() != 20 {
        return Err(Refusal::FingerprintLength);
    }
    let known = opened(index);
    let c = known.entries;
    let k = directory::find(index, known.directory, 32, c, &chains, fp);
    if k == c {
        return Err(Refusal::NotFound);
    }
    Ok(k)
}

// Whether a lookup finds the fingerprint, or why it is refused.
pub fn find_body(index: &[u8], fp: &[u8]) -> Result<(), Refusal>
    ensures { number result ≡ find_body (form_of index.now) index.now fp.now }
{
    locate(index, fp)?;
    Ok(())
}

// The field of entry k that starts at byte `at` of it.
fn entry_field(index: &[u8], k: usize, at: usize) -> usize
    requires { IndexEntry index.now k × (at + 4 ≤ 32) }
    ensures { result ≡ entry_field (index_layout index.now) index.now at k }
{
    let known = opened(index);
    let start = known.directory;
    field::read(index, start + 32 * k + at, 4) as usize
}

// The body of entry k: the index's own slice.
fn body_at(index: &[u8], k: usize) -> &[u8]
    requires { IndexEntry index.now k }
    ensures { (result.now ≡ body_at index.now k)
        × (result.ref_ptr.0 ≡ index.entry.ref_ptr.0)
        × (result.ref_ptr.1 ≡ offset_at (index_layout index.now) index.now k + index.entry.ref_ptr.1) }
{
    let at = entry_field(index, k, 24);
    let n = entry_field(index, k, 28);
    &index[at..at + n]
}

// Where the body of a fingerprint starts; 0 on a refusal.
pub fn body_start(index: &[u8], fp: &[u8]) -> usize
    ensures { result ≡ body_start (form_of index.now) index.now fp.now }
{
    match locate(index, fp) {
        Ok(k) => entry_field(index, k, 24),
        Err(_) => 0,
    }
}

// How long the body of a fingerprint is; 0 on a refusal.
pub fn body_length(index: &[u8], fp: &[u8]) -> usize
    ensures { result ≡ body_length (form_of index.now) index.now fp.now }
{
    match locate(index, fp) {
        Ok(k) => entry_field(index, k, 28),
        Err(_) => 0,
    }
}

// The body of a fingerprint: a slice of the index itself, never of the fingerprint; the empty slice at the index's start on a refusal.
pub fn body<'a, 'b>(index: &'a [u8], fp: &'b [u8]) -> &'a [u8]
    ensures { (result.now ≡ body_of (form_of index.now) index.now fp.now)
        × (result.ref_ptr.0 ≡ index.entry.ref_ptr.0)
        × (result.ref_ptr.1 ≡ body_start (form_of index.now) index.now fp.now + index.entry.ref_ptr.1) }
{
    match locate(index, fp) {
        Ok(k) => body_at(index, k),
        Err(_) => &index[..0],
    }
}
