// Measuring and writing a match index behind the scan's checks: each chunk's body, and its entry (document 01, "Notes file"; request #103). Where the bodies
// are measured first, each chunk's mark is kept, by which the writing walks only those in which a keyword occurs. Writing walks a chunk of at most
// 65,536 bytes once and a longer one twice.
#![tactic(auto)]

ghost use Rattle.std.specs.Prelude.{◌≡◌, ◌+◌, ◌*◌, ◌≤◌, length};
ghost use Rattle.spec.specs.Bytes.{splice};
ghost use Rattle.spec.specs.Form.{newest};
ghost use Rattle.spec.specs.Index.{entry_bytes};
ghost use Rattle.spec.specs.Scan.{scan_index};
ghost use Rattle.spec.specs.Trie.{scan_moves};
ghost use Rattle.index_writer.specs.Layout.{bodies_from, tail_bytes, marks_of, moves_written, CanMeasure, CanPutEntry, CanPutEntries};

// The mark of a match index.
const MARK: [u8; 4] = [0x44, 0x4D, 0x33, 0x0A];

// A length of bytes, and the moves of the walks.
#[derive(Drop)]
pub struct Sum {
    pub size: usize,
    pub moves: u64,
}

// ---- measuring

// Walks every chunk: the length of all bodies, the moves, and each chunk's mark, in the buffer's first numbers.
pub fn measure_bodies(
    machine: &windows::Machine,
    store: &[u8],
    count: usize,
    log: &mut [u32],
    run1: &mut [u32],
    run2: &mut [u32],
    run3: &mut [u32],
    marks: &mut [u32],
) -> Sum
    requires { CanMeasure machine.now.list.now machine.now.words store.now count machine.now.table.now machine.now.ends.now
        machine.now.tails.now log.old run1.old run2.old run3.old marks.old }
    ensures { (result.size ≡ length (bodies_from newest machine.now.list.now store.now 0))
        × (result.moves ≡ scan_moves machine.now.list.now store.now)
        × (marks.new ≡ splice marks.old 0 (marks_of machine.now.list.now store.now)) }
{
    let mut size = 0;
    let mut moves = 0;
    for j in 0..count {
        let chunk = store::chunk_at(store, j);
        let m = chunkwalk::measure(machine, chunk, log, run1, run2, run3);
        size += m.size;
        moves += m.moves;
        marks[j] = m.mark;
    }
    Sum { size, moves }
}

// ---- writing

// Writes a directory entry at `at`: fingerprint, chunk length, offset and length of the body.
fn put_entry(out: &mut [u8], at: usize, key: &[u8], size: usize, offset: usize, len: usize)
    requires { CanPutEntry out.old at key.now }
    ensures { out.new ≡ splice out.old at (entry_bytes key.now size offset len) }
{
    field::copy(out, at, key);
    field::write(out, at + 20, 4, size as u64);
    field::write(out, at + 24, 4, offset as u64);
    field::write(out, at + 28, 4, len as u64);
}

// Writes the directory and the bodies behind the keyword list: each body in its own part of the buffer, then its entry. Where the last one
// ends, and the moves of the walks.
fn put_entries(
    out: &mut [u8],
    machine: &windows::Machine,
    store: &[u8],
    count: usize,
    log: &mut [u32],
    run1: &mut [u32],
    run2: &mut [u32],
    run3: &mut [u32],
    marks: &[u32],
) -> Sum
    requires { CanPutEntries out.old machine.now.list.now machine.now.words store.now count machine.now.table.now machine.now.ends.now
        machine.now.tails.now log.old run1.old run2.old run3.old marks.now }
    ensures { (out.new ≡ splice out.old (8 + length machine.now.list.now) (tail_bytes newest machine.now.list.now store.now))
        × (result.size ≡ length (scan_index newest machine.now.list.now store.now))
        × (result.moves ≡ moves_written machine.now.list.now store.now marks.now) }
{
    let start = 8 + machine.list.len();
    let mut at = start + 32 * count;
    let mut moves = 0;
    for k in 0..count {
        let chunk = store::chunk_at(store, k);
        let w = chunkwalk::put(
            &mut out[at..],
            machine,
            chunk,
            log,
            run1,
            run2,
            run3,
            marks[k],
        );
        let key = store::key_at(store, k);
        put_entry(out, start + 32 * k, key, chunk.len(), at, w.size);
        at += w.size;
        moves += w.moves;
    }
    Sum { size: at, moves }
}

// Writes the index at the buffer's start: its length, and the moves of the walks.
pub fn put_index(
    out: &mut [u8],
    machine: &windows::Machine,
    store: &[u8],
    count: usize,
    log: &mut [u32],
    run1: &mut [u32],
    run2: &mut [u32],
    run3: &mut [u32],
    marks: &[u32],
) -> Sum
    requires { CanPutEntries out.old machine.now.list.now machine.now.words store.now count machine.now.table.now machine.now.ends.now
        machine.now.tails.now log.old run1.old run2.old run3.old marks.now }
    ensures { (out.new ≡ splice out.old 0 (scan_index newest machine.now.list.now store.now))
        × (result.size ≡ length (scan_index newest machine.now.list.now store.now))
        × (result.moves ≡ moves_written machine.now.list.now store.now marks.now) }
{
    field::copy(out, 0, &MARK);
    field::write(out, 4, 4, count as u64);
    field::copy(out, 8, machine.list);
    put_entries(out, machine, store, count, log, run1, run2, run3, marks)
}
