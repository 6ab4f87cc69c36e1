// The walk of a chunk in four lanes over its quarters (request #103): each lane starts at the node that the 32 bytes before it tell.
#![tactic(auto)]

ghost use Rattle.std.specs.Prelude.{◌≡◌, ◌+◌, ◌-◌, ◌*◌, ◌≤◌, length, take, drop};
ghost use Rattle.spec.specs.Bytes.{splice, written};
ghost use Rattle.automaton.specs.Walking.{Rows, walked_of, walk_log, number_after};
ghost use Rattle.automaton_lanes.specs.Lanes.{CanWalkFour, CanWalkLanes, lanes_of};

// The end of four lanes: the last one's node, the moves of all, and how many entries each logged.
#[derive(Drop)]
pub struct WalkedLanes {
    pub node: usize,
    pub moves: u64,
    pub logged0: usize,
    pub logged1: usize,
    pub logged2: usize,
    pub logged3: usize,
}

// Walks over four runs of bytes of the same length side by side, each with its own log.
fn walk_four(
    list: &[u8],
    table: &[u32],
    n0: usize,
    n1: usize,
    n2: usize,
    n3: usize,
    b0: &[u8],
    b1: &[u8],
    b2: &[u8],
    b3: &[u8],
    at0: usize,
    at1: usize,
    at2: usize,
    at3: usize,
    log0: &mut [u32],
    log1: &mut [u32],
    log2: &mut [u32],
    log3: &mut [u32],
) -> WalkedLanes
    requires { CanWalkFour list.now table.now n0 n1 n2 n3 b0.now b1.now b2.now b3.now at0 at1 at2 at3 log0.old log1.old log2.old
        log3.old }
    ensures answer { result ≡ lanes_of list.now n0 n1 n2 n3 b0.now b1.now b2.now
        b3.now at0 at1 at2 at3 }
    ensures entries0 { log0.new ≡ written log0.old (walk_log list.now n0 b0.now at0) }
    ensures entries1 { log1.new ≡ written log1.old (walk_log list.now n1 b1.now at1) }
    ensures entries2 { log2.new ≡ written log2.old (walk_log list.now n2 b2.now at2) }
    ensures entries3 { log3.new ≡ written log3.old (walk_log list.now n3 b3.now at3) }
{
    let mut c0: u32 = n0 as u32 * 256;
    let mut c1: u32 = n1 as u32 * 256;
    let mut c2: u32 = n2 as u32 * 256;
    let mut c3: u32 = n3 as u32 * 256;
    let mut moves: u64 = 0;
    let mut k0: usize = 0;
    let mut k1: usize = 0;
    let mut k2: usize = 0;
    let mut k3: usize = 0;
    for i in 0..b0.len() {
        c0 = automaton::step(list, table, c0, b0[i]);
        c1 = automaton::step(list, table, c1, b1[i]);
        c2 = automaton::step(list, table, c2, b2[i]);
        c3 = automaton::step(list, table, c3, b3[i]);
        moves += u64::from(c0 / 16777216 + c1 / 16777216 + c2 / 16777216 + c3 / 16777216);
        k0 = automaton::push(log0, k0, c0, at0 + i);
        k1 = automaton::push(log1, k1, c1, at1 + i);
        k2 = automaton::push(log2, k2, c2, at2 + i);
        k3 = automaton::push(log3, k3, c3, at3 + i);
    }
    WalkedLanes {
        node: (c3 % 262144 / 256) as usize,
        moves,
        logged0: k0,
        logged1: k1,
        logged2: k2,
        logged3: k3,
    }
}

// Copies the run's first n entries to the log, from k on; where the log's next entry goes.
fn append(log: &mut [u32], k: usize, run: &[u32], n: usize) -> usize
    requires { (n ≤ length run.now) × (k + n ≤ length log.old) }
    ensures count { result ≡ k + n }
    ensures entries { log.new ≡ splice log.old k (take n run.now) }
{
    automaton::copy_into(log, k, &run[..n]);
    k + n
}

// The number of the node after the bytes, from whatever node: their last 32 tell it.
fn last_node(list: &[u8], table: &[u32], bytes: &[u8]) -> usize
    requires { Rows list.now table.now 33 × (32 ≤ length bytes.now) }
    ensures { result ≡ number_after list.now (drop (length bytes.now - 32) bytes.now) }
{
    automaton::node_after(list, table, &bytes[bytes.len() - 32..])
}

// Walks over 4 q bytes in four lanes, then joins the logs.
fn walk_quarters(
    list: &[u8],
    table: &[u32],
    node: usize,
    bytes: &[u8],
    q: usize,
    at: usize,
    log: &mut [u32],
    run1: &mut [u32],
    run2: &mut [u32],
    run3: &mut [u32],
) -> automaton::Walked
    requires can_walk_lanes { CanWalkLanes list.now table.now node (length bytes.now) at (length log.old) (length run1.old) (length run2.old)
        (length run3.old) }
    requires bytes_len { (length bytes.now ≡ 4 * q) × (32 ≤ q) }
    ensures answer { result ≡ walked_of list.now node bytes.now at }
    ensures entries { log.new ≡ written log.old (walk_log list.now node bytes.now at) }
{
    let b0 = &bytes[..q];
    let b1 = &bytes[q..2 * q];
    let b2 = &bytes[2 * q..3 * q];
    let b3 = &bytes[3 * q..];
    let n1 = last_node(list, table, b0);
    let n2 = last_node(list, table, b1);
    let n3 = last_node(list, table, b2);
    let w = walk_four(
        list,
        table,
        node,
        n1,
        n2,
        n3,
        b0,
        b1,
        b2,
        b3,
        at,
        at + q,
        at + 2 * q,
        at + 3 * q,
        log,
        run1,
        run2,
        run3,
    );
    let k2 = append(log, w.logged0, run1, w.logged1);
    let k3 = append(log, k2, run2, w.logged2);
    let k4 = append(log, k3, run3, w.logged3);
    automaton::Walked {
        node: w.node,
        moves: w.moves,
        logged: k4,
    }
}

// The same walk as `walk`, in four lanes over the quarters of the bytes where there are 256 or more; the last lanes log into the three runs first.
pub fn walk_lanes(
    list: &[u8],
    table: &[u32],
    node: usize,
    bytes: &[u8],
    at: usize,
    log: &mut [u32],
    run1: &mut [u32],
    run2: &mut [u32],
    run3: &mut [u32],
) -> automaton::Walked
    requires { CanWalkLanes list.now table.now node (length bytes.now) at (length log.old) (length run1.old) (length run2.old)
        (length run3.old) }
    ensures answer { result ≡ walked_of list.now node bytes.now at }
    ensures entries { log.new ≡ written log.old (walk_log list.now node bytes.now at) }
{
    if bytes.len() < 256 {
        return automaton::walk(list, table, node, bytes, at, log);
    }
    let q = bytes.len() / 4;
    let w = walk_quarters(
        list,
        table,
        node,
        &bytes[..4 * q],
        q,
        at,
        log,
        run1,
        run2,
        run3,
    );
    let k = w.logged;
    let rest = automaton::walk(
        list,
        table,
        w.node,
        &bytes[4 * q..],
        at + 4 * q,
        &mut log[k..],
    );
    automaton::Walked {
        node: rest.node,
        moves: w.moves + rest.moves,
        logged: k + rest.logged,
    }
}
