// The walk of a chunk in windows of 65,536 bytes, so that a chunk of any length needs a log for one window only. First the windows are counted: the
// last node, the moves, and the tally of all that was logged. Then, where the log of more than one window is wanted, they are walked again, and
// the lists of offsets filled window by window.
#![tactic(auto)]

ghost use Rattle.std.specs.Prelude.{◌≡◌, ◌≤◌, length};
ghost use Rattle.spec.specs.Bytes.{written};
ghost use Rattle.spec.specs.Form.{newest};
ghost use Rattle.automaton.specs.Walking.{walk_log};
ghost use Rattle.offset_lists.specs.Patches.{patched};
ghost use Rattle.offset_lists.specs.Runs.{log_run, cursor, CanList};
ghost use Rattle.windows.specs.Windows.{counted_of, CanCount, CanWindow};

// What a walk counts: its last node, its moves, how many entries were logged, and their tally.
#[derive(Drop)]
pub struct Counted {
    pub node: usize,
    pub moves: u64,
    pub logged: usize,
    pub tally: logs::Tally,
}

// What the walk of a chunk goes by: the keyword list, read; its automaton's table; and for each node the keywords that end there, and the longest
// beginnings that end there.
#[derive(Clone, Copy)]
pub struct Machine<'a> {
    pub list: &'a [u8],
    pub words: keywords::Keywords,
    pub table: &'a [u32],
    pub ends: &'a [u32],
    pub tails: &'a [u8],
}

// The most bytes of a window.
pub const WINDOW: usize = 65536;

// Walks a window from the node on and counts it; `at` is the place of its first byte. The log's entries are written at its start.
pub fn count_window(
    m: &Machine,
    node: usize,
    bytes: &[u8],
    at: usize,
    log: &mut [u32],
    run1: &mut [u32],
    run2: &mut [u32],
    run3: &mut [u32],
) -> Counted
    requires { CanCount m.now.list.now m.now.words node bytes.now at m.now.table.now m.now.ends.now log.old run1.old run2.old run3.old }
    ensures answer { result ≡ counted_of m.now.list.now m.now.ends.now m.now.words.len node bytes.now at }
    ensures entries { log.new ≡ written log.old (walk_log m.now.list.now node bytes.now at) }
{
    let w = automaton_lanes::walk_lanes(m.list, m.table, node, bytes, at, log, run1, run2, run3);
    let tally = logs::tally_of(&log[..w.logged], m.ends, &m.words.len);
    Counted {
        node: w.node,
        moves: w.moves,
        logged: w.logged,
        tally,
    }
}

// Walks a chunk from the root, window by window, and counts it.
pub fn count(
    m: &Machine,
    chunk: &[u8],
    log: &mut [u32],
    run1: &mut [u32],
    run2: &mut [u32],
    run3: &mut [u32],
) -> Counted
    requires { CanWindow m.now.list.now m.now.words chunk.now m.now.table.now m.now.ends.now log.old run1.old run2.old run3.old }
    ensures { result ≡ counted_of m.now.list.now m.now.ends.now m.now.words.len 0 chunk.now 0 }
{
    let (first, rest) = chunk.split_at(chunk.len().min(WINDOW));
    let one = count_window(m, 0, first, 0, log, run1, run2, run3);
    let mut at = first.len();
    let mut node = one.node;
    let mut moves = one.moves;
    let mut logged = one.logged;
    let mut tally = one.tally;
    for window in rest.chunks(WINDOW) {
        let w = count_window(m, node, window, at, log, run1, run2, run3);
        at += window.len();
        node = w.node;
        moves += w.moves;
        logged += w.logged;
        tally = logs::tally_with(tally, w.tally);
    }
    Counted {
        node,
        moves,
        logged,
        tally,
    }
}

// Walks a chunk that was counted again, window by window, and writes the offsets of each keyword from its place on.
pub fn fill(
    out: &mut [u8],
    m: &Machine,
    chunk: &[u8],
    log: &mut [u32],
    run1: &mut [u32],
    run2: &mut [u32],
    run3: &mut [u32],
    tally: logs::Tally,
    started: records::Started,
)
    requires { CanWindow m.now.list.now m.now.words chunk.now m.now.table.now m.now.ends.now log.old
        run1.old run2.old run3.old
        × CanList m.now.words (log_run newest tally.counts m.now.words.len m.now.ends.now
        (walk_log m.now.list.now 0 chunk.now 0)) out.old started.cursors tally.counts }
    ensures { out.new ≡ patched m.now.words.count (cursor started.cursors) (log_run newest tally.counts
        m.now.words.len m.now.ends.now (walk_log m.now.list.now 0 chunk.now 0)) out.old }
{
    let mut cursors = started.cursors;
    let mut at: usize = 0;
    let mut node: usize = 0;
    for window in chunk.chunks(WINDOW) {
        let w = automaton_lanes::walk_lanes(
            m.list, m.table, node, window, at, log, run1, run2, run3,
        );
        let entries = &log[..w.logged];
        offset_lists::put_log(out, &mut cursors, m.words, &tally.counts, m.ends, entries);
        at += window.len();
        node = w.node;
    }
}
