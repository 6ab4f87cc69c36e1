// The automaton of a keyword list (request #103): the trie as a table with one cell for each node and byte, and the walk of a chunk over it.
#![tactic(auto)]

ghost use Rattle.std.specs.Prelude.{◌≡◌, ◌+◌, ◌≤◌, ◌<◌, length};
ghost use Rattle.spec.specs.Bytes.{splice, written};
ghost use Rattle.spec.specs.Keywords.{flag_of, folded_keywords};
ghost use Rattle.automaton.specs.Automaton.{cell_of};
ghost use Rattle.automaton.specs.Walking.{number_in, entry_of, Rows, CanStep, CanWalk, walked_of, walk_log, number_after};

// The cell for the byte, in the row of the node that the cell before leads to.
pub fn step(list: &[u8], table: &[u32], cell: u32, b: u8) -> u32
    requires { CanStep list.now table.now cell }
    ensures { result ≡ cell_of (flag_of list.now) (folded_keywords list.now) (number_in cell) b }
{
    table[(cell % 262144) as usize + usize::from(b)]
}

// The number of the node after the bytes, from the root. It reads the rows of nodes with fewer bytes only.
pub fn node_after(list: &[u8], table: &[u32], bytes: &[u8]) -> usize
    requires { Rows list.now table.now (length bytes.now) }
    ensures { result ≡ number_after list.now bytes.now }
{
    let mut cell: u32 = 0;
    for &b in bytes {
        cell = step(list, table, cell, b);
    }
    (cell % 262144 / 256) as usize
}

// Logs the place if a keyword ends at the cell's node: the node above, the place below. Where the log's next entry goes.
pub fn push(log: &mut [u32], k: usize, cell: u32, at: usize) -> usize
    requires { (k < length log.old) × (at < 1048576) }
    ensures count { result ≡ k + length (entry_of cell at) }
    ensures entries { log.new ≡ splice log.old k (entry_of cell at) }
{
    if cell / 262144 % 2 == 1 {
        log[k] = cell % 262144 * 4096 + at as u32;
        return k + 1;
    }
    k
}

// A walk's end: the node's number, the moves, and how many entries were logged.
#[derive(Drop)]
pub struct Walked {
    pub node: usize,
    pub moves: u64,
    pub logged: usize,
}

// Walks over the bytes from the node on; `at` is the first byte's place. The log's entries are written at its start.
pub fn walk(
    list: &[u8],
    table: &[u32],
    node: usize,
    bytes: &[u8],
    at: usize,
    log: &mut [u32],
) -> Walked
    requires { CanWalk list.now table.now node (length bytes.now) at (length log.old) }
    ensures answer { result ≡ walked_of list.now node bytes.now at }
    ensures entries { log.new ≡ written log.old (walk_log list.now node bytes.now at) }
{
    let mut cell: u32 = node as u32 * 256;
    let mut moves: u64 = 0;
    let mut k: usize = 0;
    for (i, &b) in bytes.iter().enumerate() {
        cell = step(list, table, cell, b);
        moves += u64::from(cell / 16777216);
        k = push(log, k, cell, at + i);
    }
    Walked {
        node: (cell % 262144 / 256) as usize,
        moves,
        logged: k,
    }
}

// Copies a row or a run into the buffer, from `at` on.
pub fn copy_into(buffer: &mut [u32], at: usize, run: &[u32])
    requires { at + length run.now ≤ length buffer.old }
    ensures { buffer.new ≡ splice buffer.old at run.now }
{
    for i in 0..run.len() {
        buffer[at + i] = run[i];
    }
}
