// One chunk of the scan: it is walked over the automaton, window by window, and its body measured, or written. A chunk that was measured and in
// which no keyword occurs is not walked again: its mark has the walk's last node, and its log is empty.
#![tactic(auto)]

ghost use Rattle.std.specs.Prelude.{◌≡◌, cond, ◌+◌, ◌*◌, ◌≤◌, ◌<◌, length, eqb};
ghost use Rattle.spec.specs.Bytes.{written};
ghost use Rattle.spec.specs.Form.{newest};
ghost use Rattle.spec.specs.Scan.{scan_body};
ghost use Rattle.records.specs.Bodies.{Tells};
ghost use Rattle.chunkwalk.specs.Marks.{measured_of, written_of, nothing, Usable, Equipped};

// What measuring a chunk gives: the length of its body, the moves of its walk, and its mark.
#[derive(Drop)]
pub struct Measured {
    pub size: usize,
    pub moves: u64,
    pub mark: u32,
}

// What writing a chunk gives: the length of its body, and the moves of its walk, 0 where it was not walked again.
#[derive(Drop)]
pub struct Written {
    pub size: usize,
    pub moves: u64,
}

// The mark of a chunk: twice the number of its last node, and one more where something was logged.
fn mark_of(node: usize, logged: usize) -> u32
    requires { node < 1048576 }
    ensures { result ≡ node * 2 + cond (eqb logged 0) 0 1 }
{
    if logged == 0 {
        node as u32 * 2
    } else {
        node as u32 * 2 + 1
    }
}

// Walks a chunk and measures its body.
pub fn measure(
    m: &windows::Machine,
    chunk: &[u8],
    log: &mut [u32],
    run1: &mut [u32],
    run2: &mut [u32],
    run3: &mut [u32],
) -> Measured
    requires { Equipped m.now.list.now m.now.words m.now.table.now m.now.ends.now m.now.tails.now log.old run1.old run2.old run3.old
        × (length chunk.now ≤ newest.longest_chunk) }
    ensures { result ≡ measured_of m.now.list.now chunk.now }
{
    let w = windows::count(m, chunk, log, run1, run2, run3);
    let size = records::body_size(m.list, m.words, chunk, m.tails, w.node, w.tally);
    Measured {
        size,
        moves: w.moves,
        mark: mark_of(w.node, w.logged),
    }
}

// Writes the body of a chunk in which no keyword occurs at the buffer's start: its length. `node` is the last of its walk.
fn put_unwalked(out: &mut [u8], m: &windows::Machine, chunk: &[u8], node: usize) -> usize
    requires { Tells m.now.list.now m.now.words chunk.now m.now.tails.now node nothing
        × (length (scan_body newest m.now.list.now chunk.now) ≤ length out.old) }
    ensures { (out.new ≡ written out.old (scan_body newest m.now.list.now chunk.now))
        × (result ≡ length (scan_body newest m.now.list.now chunk.now)) }
{
    let none = logs::Tally {
        counts: [0; 16],
        firsts: [0; 16],
    };
    records::put_starts(out, m.list, m.words, chunk, m.tails, node, none).size
}

// Walks a chunk of one window and writes its body at the buffer's start: the lists are filled from the log that the walk left.
fn put_short(
    out: &mut [u8],
    m: &windows::Machine,
    chunk: &[u8],
    log: &mut [u32],
    run1: &mut [u32],
    run2: &mut [u32],
    run3: &mut [u32],
) -> Written
    requires { Equipped m.now.list.now m.now.words m.now.table.now m.now.ends.now m.now.tails.now log.old run1.old run2.old run3.old
        × (length chunk.now ≤ newest.longest_chunk) × (length chunk.now ≤ 65536)
        × (length (scan_body newest m.now.list.now chunk.now) ≤ length out.old) }
    ensures { (out.new ≡ written out.old (scan_body newest m.now.list.now chunk.now))
        × (result ≡ written_of m.now.list.now chunk.now 1) }
{
    let w = windows::count_window(m, 0, chunk, 0, log, run1, run2, run3);
    let started = records::put_starts(out, m.list, m.words, chunk, m.tails, w.node, w.tally);
    let mut cursors = started.cursors;
    let entries = &log[..w.logged];
    offset_lists::put_log(out, &mut cursors, m.words, &w.tally.counts, m.ends, entries);
    Written {
        size: started.size,
        moves: w.moves,
    }
}

// Walks a chunk of several windows, begins its body at the buffer's start, and walks it again to fill the lists.
fn put_long(
    out: &mut [u8],
    m: &windows::Machine,
    chunk: &[u8],
    log: &mut [u32],
    run1: &mut [u32],
    run2: &mut [u32],
    run3: &mut [u32],
) -> Written
    requires { Equipped m.now.list.now m.now.words m.now.table.now m.now.ends.now m.now.tails.now log.old run1.old run2.old run3.old
        × (length chunk.now ≤ newest.longest_chunk) × (length (scan_body newest m.now.list.now chunk.now) ≤ length out.old) }
    ensures { (out.new ≡ written out.old (scan_body newest m.now.list.now chunk.now))
        × (result ≡ written_of m.now.list.now chunk.now 1) }
{
    let w = windows::count(m, chunk, log, run1, run2, run3);
    let started = records::put_starts(out, m.list, m.words, chunk, m.tails, w.node, w.tally);
    windows::fill(out, m, chunk, log, run1, run2, run3, w.tally, started);
    Written {
        size: started.size,
        moves: w.moves,
    }
}

// Writes the body of a chunk at the buffer's start. By an odd mark the chunk is walked; an even one says that no keyword occurs in it, and
// where its walk ended.
pub fn put(
    out: &mut [u8],
    m: &windows::Machine,
    chunk: &[u8],
    log: &mut [u32],
    run1: &mut [u32],
    run2: &mut [u32],
    run3: &mut [u32],
    mark: u32,
) -> Written
    requires { Equipped m.now.list.now m.now.words m.now.table.now m.now.ends.now m.now.tails.now log.old run1.old run2.old run3.old
        × (length chunk.now ≤ newest.longest_chunk) × Usable m.now.list.now chunk.now mark
        × (length (scan_body newest m.now.list.now chunk.now) ≤ length out.old) }
    ensures { (out.new ≡ written out.old (scan_body newest m.now.list.now chunk.now))
        × (result ≡ written_of m.now.list.now chunk.now mark) }
{
    if mark % 2 == 0 {
        let node = (mark / 2) as usize;
        let size = put_unwalked(out, m, chunk, node);
        Written { size, moves: 0 }
    } else if chunk.len() <= windows::WINDOW {
        put_short(out, m, chunk, log, run1, run2, run3)
    } else {
        put_long(out, m, chunk, log, run1, run2, run3)
    }
}
