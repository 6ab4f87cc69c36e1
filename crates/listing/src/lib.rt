// The occurrences at one place of a file. Each keyword has a stream of offsets in the place's chunk: first its offsets inside the chunk, as
// the index holds them, then its starts that cross into the next chunk, as a set. The streams are merged.
#![tactic(auto)]

ghost use Rattle.std.specs.Prelude.{◌≡◌, ℕ, ◌+◌, ◌*◌, ◌^◌, ◌≤◌, ◌<◌, length, get_or};
ghost use Rattle.spec.specs.Bytes.{splice};
ghost use Rattle.spec.specs.Join.{sums, occurrence_bytes, list_bytes};
ghost use Rattle.listing.specs.Streams.{small, numbers, ReadableStream, Pulled, stream_of, ReadableStreams, numbers_of, total, Held, Least};
ghost use Rattle.listing.specs.Streams.{place_list, given, OpenedStreams, NextTaken};
ghost use Rattle.listing.specs.Choosing.{advanced, chosen_from, no_choice};

// A stream is five numbers: its next offset (the chunk's size where it has ended); where the index has the offsets behind that, and how
// many; where the starts are counted from, and the set of those that are left.
const HEAD: usize = 0;

const AT: usize = 1;

const LEFT: usize = 2;

const FROM: usize = 3;

const SET: usize = 4;

// The stream whose next offset is taken off what is unread.
fn pull(index: &[u8], width: usize, size: usize, stream: [usize; 5]) -> [usize; 5]
    requires { (width ≤ 8) × ReadableStream index.now width size stream }
    ensures { Pulled index.now width size stream result }
{
    let at = stream[AT];
    let left = stream[LEFT];
    let from = stream[FROM];
    let set = stream[SET];
    if 0 < left {
        let x = field::read_offset(index, at, width) as usize;
        return [x, at + width, left - 1, from, set];
    }
    if set == 0 {
        return [size, at, left, from, set];
    }
    let z = (set as u32).trailing_zeros();
    let y = from + z as usize;
    [y, at, left, y + 1, (set >> z) / 2]
}

// The first of the streams whose next offsets are least.
fn least(streams: &[[usize; 5]; 16], count: usize) -> usize
    requires { (0 < count) × (count ≤ 16) }
    ensures { Least streams.now count result }
{
    let mut k = 0;
    let mut y = streams[0][HEAD];
    for i in 1..count {
        let x = streams[i][HEAD];
        if x < y {
            k = i;
            y = x;
        }
    }
    k
}

// The streams of a place, opened: each has its first offset ready.
fn open(
    index: &[u8],
    width: usize,
    size: usize,
    count: usize,
    streams: &[[usize; 5]; 16],
) -> [[usize; 5]; 16]
    requires { (count ≤ 16) × (width ≤ 8) × ReadableStreams index.now width size count streams.now }
    ensures { OpenedStreams index.now width size count streams.now result }
{
    let mut opened = [[0usize; 5]; 16];
    for k in 0..count {
        opened[k] = pull(index, width, size, streams[k]);
    }
    opened
}

// An occurrence at a place: its keyword, and its offset in the chunk.
#[derive(Drop)]
struct Taken {
    keyword: usize,
    offset: usize,
}

// Takes the next occurrence off open streams that give one.
fn next(
    index: &[u8],
    width: usize,
    size: usize,
    count: usize,
    streams: &mut [[usize; 5]; 16],
) -> Taken
    requires count_nonzero { (0 < count) × (count ≤ 16) × (width ≤ 8) }
    requires held { Held index.now width size count streams.old × (0 < length (given index.now width size count streams.old)) }
    ensures { NextTaken index.now width size count streams.old streams.new result.keyword result.offset }
{
    let k = least(streams, count);
    let s = streams[k];
    streams[k] = pull(index, width, size, s);
    Taken {
        keyword: k,
        offset: s[HEAD],
    }
}

// Writes an occurrence's 9 bytes.
fn put(out: &mut [u8], place: usize, file: u64, offset: u64, keyword: usize)
    requires { (place + 9 ≤ length out.old) × (keyword < 256) }
    ensures { out.new ≡ splice out.old place (occurrence_bytes (record { file = file; offset = offset; keyword = keyword })) }
{
    field::write(out, place, 4, file);
    field::write(out, place + 4, 4, offset);
    field::write(out, place + 8, 1, keyword as u64);
}

// How many offsets a stream that is not open yet has.
pub fn offsets_in(stream: [usize; 5]) -> usize
    requires { small stream }
    ensures { result ≡ numbers stream }
{
    let left = stream[LEFT];
    let set = stream[SET];
    left + (set as u32).count_ones() as usize
}

// Adds each keyword's number of occurrences at a place, of which there are `many`, to its count (request #110). The streams are not open yet.
pub fn count_place(streams: &[[usize; 5]; 16], count: usize, many: usize, counts: &mut [usize])
    requires count_bound { (count ≤ 16) × (count ≤ length streams.now) × (length counts.old ≡ 16) × (many ≡ total streams.now count) }
    requires by_index { (k : ℕ) → k < count → small (stream_of streams.now k) × (get_or counts.old k 0 < 2 ^ 63) }
    ensures { counts.new ≡ sums counts.old (numbers_of streams.now count) }
{
    if many == 0 {
        return;
    }
    for keyword in 0..count {
        counts[keyword] += offsets_in(streams[keyword]);
    }
}

// What is listed at a place of a file: the file's number, where the place starts in the file, the chunk's size, bytes of an offset, how many
// keywords there are, how many occurrences, and where in the buffer their list starts.
#[derive(Drop)]
pub struct Place {
    pub file: usize,
    pub base: usize,
    pub size: usize,
    pub width: usize,
    pub count: usize,
    pub many: usize,
    pub at: usize,
}

// Lists the occurrences at a place, and returns the place of the buffer behind them. The streams are not open yet.
pub fn list_place(index: &[u8], place: Place, streams: &[[usize; 5]; 16], out: &mut [u8]) -> usize
    requires count_nonzero { (0 < place.count) × (place.count ≤ 16) × (place.width ≤ 8) × (place.base + place.size < 2 ^ 64) }
    requires readable_streams { ReadableStreams index.now place.width place.size place.count streams.now × (place.many ≡ total streams.now place.count) }
    requires streams_in_bounds { place.at + 9 * length (place_list place index.now streams.now) ≤ length out.old }
    ensures { (result ≡ place.at + 9 * length (place_list place index.now streams.now))
        × (out.new ≡ splice out.old place.at (list_bytes (place_list place index.now streams.now))) }
{
    if place.many == 0 {
        return place.at;
    }
    let mut opened = open(index, place.width, place.size, place.count, streams);
    let mut p = place.at;
    for _ in 0..place.many {
        let t = next(index, place.width, place.size, place.count, &mut opened);
        let offset = place.base + t.offset;
        put(out, p, place.file as u64, offset as u64, t.keyword);
        p += 9;
    }
    p
}

// A query's choice in the making (request #109): how many of the query's numbers have their occurrence, where the next may start at the
// earliest, and the offsets so far.
#[derive(Drop)]
pub struct Choice {
    pub step: usize,
    pub from: usize,
    pub offsets: [usize; 8],
}

// Nothing is chosen yet.
pub fn nothing_chosen() -> Choice
    ensures { result ≡ no_choice }
{
    Choice {
        step: 0,
        from: 0,
        offsets: [0; 8],
    }
}

// The choice after one occurrence more: taken where it is one of the keyword that is asked for next, and starts at or after the end of the one
// before.
fn advance(
    choice: Choice,
    keyword: usize,
    offset: usize,
    lengths: &[usize; 16],
    query: &[u8],
) -> Choice
    requires { (keyword < 16) × (length query.now ≤ 8) × (offset + get_or lengths.now keyword 0 < 2 ^ 64) }
    ensures { result ≡ advanced lengths.now query.now choice (record { file = 0; offset = offset; keyword = keyword }) }
{
    let step = choice.step;
    let from = choice.from;
    if query.len() <= step {
        return choice;
    }
    let asked = usize::from(query[step]);
    if keyword != asked {
        return choice;
    }
    if offset < from {
        return choice;
    }
    let mut next = choice;
    next.offsets[step] = offset;
    next.step = step + 1;
    next.from = offset + lengths[keyword];
    next
}

// Carries a choice along the occurrences at a place, until it is complete. The streams are not open yet.
pub fn choose_place(
    index: &[u8],
    place: Place,
    streams: &[[usize; 5]; 16],
    lengths: &[usize; 16],
    query: &[u8],
    choice: Choice,
) -> Choice
    requires count_nonzero { (0 < place.count) × (place.count ≤ 16) × (place.width ≤ 8) × (place.base + place.size < 2 ^ 63) }
    requires readable_streams { ReadableStreams index.now place.width place.size place.count streams.now × (place.many ≡ total streams.now place.count) }
    requires query_len_bound { (length query.now ≤ 8) × ((k : ℕ) → k < 16 → get_or lengths.now k 0 ≤ 32) }
    ensures { result ≡ chosen_from lengths.now query.now (place_list place index.now streams.now) choice }
{
    if place.many < 1 {
        return choice;
    }
    let mut opened = open(index, place.width, place.size, place.count, streams);
    let mut chosen = choice;
    for _ in 0..place.many {
        if query.len() <= chosen.step {
            return chosen;
        }
        let t = next(index, place.width, place.size, place.count, &mut opened);
        let offset = place.base + t.offset;
        chosen = advance(chosen, t.keyword, offset, lengths, query);
    }
    chosen
}
