// The lists of offsets of a chunk's records, written from its log: each keyword's at a cursor of its own. The log may come in parts, one after the other:
// the lists go on where the part before left them.
#![tactic(auto)]

ghost use Rattle.std.specs.Prelude.{◌≡◌, ◌+◌, ◌≤◌, length};
ghost use Rattle.spec.specs.Bytes.{splice};
ghost use Rattle.spec.specs.Form.{newest};
ghost use Rattle.logs.specs.Log.{AllFit};
ghost use Rattle.offset_lists.specs.Patches.{patched};
ghost use Rattle.offset_lists.specs.Runs.{piece_of, entry_run, log_run, cursor, moved_by, CanList, CanFillEntry, Filled};

// How many bytes an offset inside a chunk takes in a new index, and an exact count.
pub const WIDTH: usize = 3;

// Writes an offset of a keyword with so many of them into the buffer at `at`: nothing where it has at most one.
fn put_offset(out: &mut [u8], at: usize, offset: usize, count: usize) -> usize
    requires { at + length (piece_of newest count offset) ≤ length out.old }
    ensures { (out.new ≡ splice out.old at (piece_of newest count offset)) × (result ≡ length (piece_of newest count offset)) }
{
    if count <= 1 {
        return 0;
    }
    field::write(out, at, WIDTH, offset as u64);
    WIDTH
}

// Writes the offsets of the keywords that end at one place, each at its cursor, which goes on behind it.
fn put_entry(
    out: &mut [u8],
    cursors: &mut [usize],
    counts: &[usize],
    len: &[usize],
    members: u32,
    end: usize,
)
    requires { CanFillEntry out.old cursors.old counts.now len.now members end }
    ensures { Filled (entry_run newest counts.now len.now members end) out.old cursors.old
        out.new cursors.new }
{
    let mut rest = members;
    let mut from: usize = 0;
    while rest != 0 {
        let z = rest.trailing_zeros();
        let k = from + z as usize;
        let at = cursors[k];
        cursors[k] = at + put_offset(out, at, end - len[k], counts[k]);
        rest = (rest >> z) / 2;
        from = k + 1;
    }
}

// Writes all offsets that a log says, each keyword's at its cursor, which goes on behind them. The counts are those of the chunk.
pub fn put_log(
    out: &mut [u8],
    cursors: &mut [usize],
    words: keywords::Keywords,
    counts: &[usize],
    ends: &[u32],
    log: &[u32],
)
    requires { CanList words (log_run newest counts.now words.len ends.now log.now) out.old cursors.old counts.now × AllFit ends.now
        words.len log.now }
    ensures { (out.new ≡ patched words.count (cursor cursors.old) (log_run newest counts.now words.len
        ends.now log.now) out.old) × (cursors.new ≡ moved_by (log_run newest counts.now words.len
        ends.now log.now) cursors.old) }
{
    for &entry in log {
        let node = (entry / logs::PLACES) as usize;
        let end = (entry % logs::PLACES) as usize + 1;
        put_entry(out, cursors, counts, &words.len, ends[node], end);
    }
}
