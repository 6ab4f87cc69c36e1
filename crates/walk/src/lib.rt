// The occurrences of a file, place by place. A file is a run of fingerprints in the recipes; the entry of each is taken from its slot, or
// looked up in the index where it has none, when the place before it is counted or listed.
#![tactic(auto)]

ghost use Rattle.std.specs.Prelude.{◌≡◌, false, [], ℕ, ◌+◌, ◌*◌, ◌/◌, ◌^◌, ◌≤◌, ◌<◌, length, drop, get_or};
ghost use Rattle.spec.specs.Bytes.{splice};
ghost use Rattle.spec.specs.Keywords.{folded_keywords};
ghost use Rattle.spec.specs.Form.{form_of};
ghost use Rattle.spec.specs.Records.{record_at};
ghost use Rattle.spec.specs.Index.{list_in, index_records};
ghost use Rattle.spec.specs.Join.{keyword_at, sums, list_bytes};
ghost use Rattle.tables.specs.Tabled.{tables_of};
ghost use Rattle.spans.specs.Spans.{crossing_set};
ghost use Rattle.walk.specs.Walking.{chunks_in, file_list, keyword_counts, Checked, Directory, File, EntryAt, SetsBehind, LoadedEntry, Crossable};
ghost use Rattle.walk.specs.Walking.{Filled, cells, crossings, Startable, Prefixed, LoadedAt, LoadedPair};
ghost use Rattle.listing.specs.Choosing.{chosen_from, no_choice};

// A row is prefix, suffix, the place of the list of offsets, and how many there are.
const PREFIX: usize = 0;

const SUFFIX: usize = 1;

const PLACE: usize = 2;

const LEFT: usize = 3;

// What a file is searched by: the match index, opened; the chains of its fingerprints; and the keywords' tables.
#[derive(Clone, Copy)]
pub struct Source<'a> {
    pub index: &'a [u8],
    pub opened: spec::Opened,
    pub chains: &'a [u32],
    pub tables: &'a [[[u32; 32]; 32]; 16],
}

// The entry of place n of a file; the number of entries behind the last place.
fn entry_at(source: &Source, file: &[u8], slots: &[u32], n: usize) -> usize
    requires directory { Directory source.now.index.now source.now.opened source.now.chains.now }
    requires file { File source.now.index.now file.now slots.now }
    ensures { EntryAt source.now.index.now file.now n result }
{
    if file.len() / 20 <= n {
        return source.opened.entries;
    }
    if n < slots.len() {
        return slots[n] as usize;
    }
    files::entry_of(file, n, source.index, source.opened, source.chains)
}

// Loads the rows of entry e, and returns its chunk's size. Behind the last entry nothing is to be crossed into.
fn load(source: &Source, e: usize, rows: &mut [[usize; 4]; 16]) -> usize
    requires { Checked source.now.index.now source.now.opened × (e ≤ source.now.opened.entries) × (source.now.opened.keywords ≤ length rows.old) }
    ensures { LoadedEntry source.now.index.now source.now.opened e rows.new result }
{
    let Source { index, opened, .. } = *source;
    if opened.entries <= e {
        let none = [[0usize; 4]; 16];
        *rows = none;
        return 0;
    }
    let entry = opened.directory + 32 * e;
    let from = field::read(index, entry + 24, 4) as usize;
    let long = field::read(index, entry + 28, 4) as usize;
    loader::load(index, opened.format, from, long, opened.keywords, rows);
    field::read(index, entry + 20, 4) as usize
}

// The set of keyword k in entry e, which lies behind its row's record.
fn inner_at(source: &Source, e: usize, rows: &[[usize; 4]; 16], k: usize) -> u32
    requires checked { Checked source.now.index.now source.now.opened × (e < source.now.opened.entries) × (k < source.now.opened.keywords) }
    requires sets_behind { SetsBehind source.now.index.now source.now.opened e rows.now }
    ensures { result ≡ (record_at (index_records (form_of source.now.index.now) source.now.index.now e) k).inner }
{
    let Source { index, opened, .. } = *source;
    let entry = opened.directory + 32 * e;
    let from = field::read(index, entry + 24, 4) as usize;
    let long = field::read(index, entry + 28, 4) as usize;
    loader::set_at(index, opened.format, rows[k], from + long, k)
}

// A keyword's starts that cross the end of a place where it has this prefix; `place` is the number of the place behind.
#[derive(Drop)]
struct Start {
    keyword: usize,
    prefix: usize,
    place: usize,
}

// The starts of a keyword that cross the end of a place, over as many places as it takes: each start is carried on until it ends, or no longer can.
fn crossing(source: &Source, start: Start, file: &[u8], slots: &[u32]) -> u32
    requires directory { Directory source.now.index.now source.now.opened source.now.chains.now }
    requires tables_value { source.now.tables.now ≡ tables_of (folded_keywords (list_in source.now.index.now)) }
    requires file { File source.now.index.now file.now slots.now × Startable source.now.index.now start.keyword start.prefix }
    ensures { result ≡ crossing_set (keyword_at (folded_keywords (list_in source.now.index.now)) start.keyword) start.keyword start.prefix
        (drop start.place (chunks_in source.now.index.now file.now)) }
{
    let tables = source.tables;
    let k = start.keyword;
    let i = start.prefix;
    if i == 0 {
        return 0;
    }
    let mut rows = [[0usize; 4]; 16];
    let mut live = spans::starts_of(tables, k, i);
    let mut found = 0;
    let mut gone = 0;
    for n in start.place..file.len() / 20 {
        if live == 0 {
            return found;
        }
        let e = entry_at(source, file, slots, n);
        let size = load(source, e, &mut rows);
        let ends = spans::ends_of(tables, k, rows[k][SUFFIX]);
        let inner = inner_at(source, e, &rows, k);
        let ended = spans::going(ends, live, i, gone);
        found = spans::either(found, ended);
        live = spans::going(inner, live, i, gone);
        gone += size;
    }
    found
}

// Fills the streams of a place, before they are opened: its own offsets, and its starts that end in the next place. It returns how many
// occurrences that is.
fn cross(
    size: usize,
    count: usize,
    tables: &[[[u32; 32]; 32]; 16],
    here: &[[usize; 4]; 16],
    next: &[[usize; 4]; 16],
    streams: &mut [[usize; 5]; 16],
) -> usize
    requires { (count ≤ 16) × (count ≤ length streams.old) × Crossable size count here.now next.now }
    ensures { Filled size count (cells tables.now here.now next.now) here.now streams.new result }
{
    let mut many = 0;
    for k in 0..count {
        let i = here[k][PREFIX];
        let j = next[k][SUFFIX];
        let set = tables[k][i][j] as usize;
        let at = here[k][PLACE];
        let left = here[k][LEFT];
        let s = [size, at, left, size - i, set];
        streams[k] = s;
        many += listing::offsets_in(s);
    }
    many
}

// A place of a file: its number, and its chunk's size.
#[derive(Drop)]
struct Here {
    place: usize,
    size: usize,
}

// The same where a keyword may go on over the next place.
fn cross_over(
    source: &Source,
    spot: Here,
    file: &[u8],
    slots: &[u32],
    here: &[[usize; 4]; 16],
    streams: &mut [[usize; 5]; 16],
) -> usize
    requires directory { Directory source.now.index.now source.now.opened source.now.chains.now
        × (source.now.tables.now ≡ tables_of (folded_keywords (list_in source.now.index.now))) }
    requires file { File source.now.index.now file.now slots.now × (source.now.opened.keywords ≤ length streams.old) }
    requires prefixed { Prefixed source.now.index.now spot.size source.now.opened.keywords here.now × (spot.place < 2 ^ 63) }
    ensures { Filled spot.size source.now.opened.keywords (crossings (folded_keywords (list_in source.now.index.now)) here.now
        (drop (spot.place + 1) (chunks_in source.now.index.now file.now))) here.now streams.new result }
{
    let size = spot.size;
    let place = spot.place + 1;
    let mut many = 0;
    for k in 0..source.opened.keywords {
        let i = here[k][PREFIX];
        let start = Start {
            keyword: k,
            prefix: i,
            place,
        };
        let set = crossing(source, start, file, slots) as usize;
        let at = here[k][PLACE];
        let left = here[k][LEFT];
        let stream = [size, at, left, size - i, set];
        streams[k] = stream;
        many += listing::offsets_in(stream);
    }
    many
}

// A place whose streams are filled: the size of the place behind it, and how many occurrences it has.
#[derive(Drop)]
struct Ahead {
    size: usize,
    many: usize,
}

// Fills the streams of a place from its rows, and loads the rows of the place behind it.
fn fill(
    source: &Source,
    spot: Here,
    file: &[u8],
    slots: &[u32],
    rows: &mut [[usize; 4]; 16],
    streams: &mut [[usize; 5]; 16],
) -> Ahead
    requires directory { Directory source.now.index.now source.now.opened source.now.chains.now
        × (source.now.tables.now ≡ tables_of (folded_keywords (list_in source.now.index.now))) }
    requires file { File source.now.index.now file.now slots.now × (spot.place < length file.now / 20) × (source.now.opened.keywords ≤ length streams.old) }
    requires loaded_at { LoadedAt source.now.index.now source.now.opened (chunks_in source.now.index.now file.now) spot.place rows.old spot.size }
    ensures { LoadedAt source.now.index.now source.now.opened (chunks_in source.now.index.now file.now) (spot.place + 1)
        rows.new result.size × Filled spot.size source.now.opened.keywords (crossings (folded_keywords (list_in source.now.index.now)) rows.old
        (drop (spot.place + 1) (chunks_in source.now.index.now file.now))) rows.old streams.new result.many }
{
    let opened = source.opened;
    let size = spot.size;
    let first = *rows;
    let e = entry_at(source, file, slots, spot.place + 1);
    let behind = load(source, e, rows);
    if opened.longest <= behind + 1 {
        let many = cross(size, opened.keywords, source.tables, &first, rows, streams);
        return Ahead { size: behind, many };
    }
    let many = cross_over(source, spot, file, slots, &first, streams);
    Ahead { size: behind, many }
}

// How many occurrences a file has; each keyword's are added to its count (request #110).
pub fn count_file(source: &Source, file: &[u8], slots: &[u32], counts: &mut [usize]) -> usize
    requires directory { Directory source.now.index.now source.now.opened source.now.chains.now }
    requires tables_value { source.now.tables.now ≡ tables_of (folded_keywords (list_in source.now.index.now)) }
    requires file { File source.now.index.now file.now slots.now }
    requires counts_len { (length counts.old ≡ 16) × ((k : ℕ) → k < 16 → get_or counts.old k 0 < 2 ^ 62) }
    ensures { (result ≡ length (file_list 0 source.now.index.now file.now))
        × (counts.new ≡ sums counts.old (keyword_counts (file_list 0 source.now.index.now file.now))) }
{
    let opened = source.opened;
    let mut rows = [[0usize; 4]; 16];
    let mut streams = [[0usize; 5]; 16];
    let start = entry_at(source, file, slots, 0);
    let mut size = load(source, start, &mut rows);
    let mut sum = 0;
    for n in 0..file.len() / 20 {
        let first = rows;
        let e = entry_at(source, file, slots, n + 1);
        let after = load(source, e, &mut rows);
        let many = if opened.longest <= after + 1 {
            cross(
                size,
                opened.keywords,
                source.tables,
                &first,
                &rows,
                &mut streams,
            )
        } else {
            let spot = Here { place: n, size };
            cross_over(source, spot, file, slots, &first, &mut streams)
        };
        listing::count_place(&streams, opened.keywords, many, counts);
        sum += many;
        size = after;
    }
    sum
}

// What a listing of a file goes by: the file's number, where in the buffer its list starts, and whether it has occurrences:
// where it has none, none of its places is looked at.
#[derive(Drop)]
pub struct Listing {
    pub number: usize,
    pub place: usize,
    pub has_rows: bool,
}

// Lists the occurrences of a file, from a place of the buffer on, and returns the place behind. Every place is looked up.
pub fn list_file(source: &Source, listing: Listing, file: &[u8], out: &mut [u8]) -> usize
    requires file_value { listing.has_rows ≡ false → file_list listing.number source.now.index.now file.now ≡ [] }
    requires directory { Directory source.now.index.now source.now.opened source.now.chains.now }
    requires tables_value { source.now.tables.now ≡ tables_of (folded_keywords (list_in source.now.index.now)) }
    requires file { File source.now.index.now file.now [] }
    requires file_in_bounds { listing.place + 9 * length (file_list listing.number source.now.index.now file.now) ≤ length out.old }
    ensures { (result ≡ listing.place + 9 * length (file_list listing.number source.now.index.now file.now))
        × (out.new ≡ splice out.old listing.place (list_bytes (file_list listing.number source.now.index.now file.now))) }
{
    if !listing.has_rows {
        return listing.place;
    }
    let opened = source.opened;
    let width = opened.format.width;
    let slots = [0u32; 0];
    let mut rows = [[0usize; 4]; 16];
    let mut streams = [[0usize; 5]; 16];
    let start = entry_at(source, file, &slots, 0);
    let mut size = load(source, start, &mut rows);
    let mut base = 0;
    let mut p = listing.place;
    for n in 0..file.len() / 20 {
        let first = rows;
        let e = entry_at(source, file, &slots, n + 1);
        let behind = load(source, e, &mut rows);
        let many = if opened.longest <= behind + 1 {
            cross(
                size,
                opened.keywords,
                source.tables,
                &first,
                &rows,
                &mut streams,
            )
        } else {
            let spot = Here { place: n, size };
            cross_over(source, spot, file, &slots, &first, &mut streams)
        };
        let place = listing::Place {
            file: listing.number,
            base,
            size,
            width,
            count: opened.keywords,
            many,
            at: p,
        };
        p = listing::list_place(source.index, place, &streams, out);
        base += size;
        size = behind;
    }
    p
}

// What a query's choice in a file goes by: the file's number, and the keywords' lengths.
#[derive(Drop)]
pub struct Choosing {
    pub number: usize,
    pub lengths: [usize; 16],
}

// The earliest choice of a file's occurrences for a query (request #109), as far as there is one. No place is looked at behind the one that
// completes it.
pub fn choose_file(
    source: &Source,
    choosing: Choosing,
    file: &[u8],
    slots: &[u32],
    query: &[u8],
) -> listing::Choice
    requires directory { Directory source.now.index.now source.now.opened source.now.chains.now
        × (source.now.tables.now ≡ tables_of (folded_keywords (list_in source.now.index.now))) }
    requires file { File source.now.index.now file.now slots.now }
    requires query_len_bound { (length query.now ≤ 8) × (length choosing.lengths ≡ 16) × ((k : ℕ) → k < 16 → get_or choosing.lengths k 0 ≤ 32) }
    ensures { result ≡ chosen_from choosing.lengths query.now (file_list choosing.number source.now.index.now file.now) no_choice }
{
    let opened = source.opened;
    let lengths = choosing.lengths;
    let mut rows = [[0usize; 4]; 16];
    let mut streams = [[0usize; 5]; 16];
    let start = entry_at(source, file, slots, 0);
    let mut size = load(source, start, &mut rows);
    let mut choice = listing::nothing_chosen();
    let mut passed = 0;
    for n in 0..file.len() / 20 {
        if query.len() <= choice.step {
            return choice;
        }
        let spot = Here { place: n, size };
        let ahead = fill(source, spot, file, slots, &mut rows, &mut streams);
        let place = listing::Place {
            file: choosing.number,
            base: passed,
            size,
            width: opened.format.width,
            count: opened.keywords,
            many: ahead.many,
            at: 0,
        };
        choice = listing::choose_place(source.index, place, &streams, &lengths, query, choice);
        passed += size;
        size = ahead.size;
    }
    choice
}
