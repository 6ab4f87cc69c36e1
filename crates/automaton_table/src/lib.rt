// Builds the automaton of a keyword list (request #103): the nodes and their numbers, what is known of each node, and the table.
#![tactic(auto)]

ghost use Rattle.std.specs.Prelude.{◌≡◌, cond, suc, ◌+◌, ◌-◌, ◌*◌, ◌^◌, ◌≤◌, ◌<◌, eqb, ltb, length, get_or};
ghost use Rattle.spec.specs.Bytes.{same, position_of, splice, written};
ghost use Rattle.spec.specs.Keywords.{flag_of, folded_keywords};
ghost use Rattle.spec.specs.Join.{keyword_at};
ghost use Rattle.spec.specs.Trie.{link};
ghost use Rattle.trie.specs.Endings.{is_ending, prefix_at};
ghost use Rattle.trie.specs.Numbers.{node_count, node_number};
ghost use Rattle.keywords.specs.Parsed.{Reads};
ghost use Rattle.automaton.specs.Automaton.{ending_set, sets_of, prefixes_of, cell_of, table_of};
ghost use Rattle.automaton_table.specs.Building.{run, nodes_in, Within, Added, Numbered, Ready};
ghost use Rattle.automaton_table.specs.Building.{child_byte, row_of, Children, CanFill, CanBuild, Built, CanMake};
ghost use Rattle.automaton.specs.Walking.{Rows};

// ---- the nodes and their numbers

// The m bytes of the list from a and the n bytes from b compare alike.
fn alike_at(list: &[u8], flag: u8, a: usize, m: usize, b: usize, n: usize) -> bool
    requires { (a + m ≤ length list.now) × (b + n ≤ length list.now) }
    ensures { result ≡ same (run flag list.now a m) (run flag list.now b n) }
{
    m == n && matcher::occurs_at(&list[a..a + m], &list[b..b + n], 0, flag)
}

// The number of the node that is the n bytes from `at`; the count where none is.
fn find(
    list: &[u8],
    flag: u8,
    starts: &[usize],
    lens: &[usize],
    count: usize,
    at: usize,
    n: usize,
) -> usize
    requires { Within list.now starts.now lens.now count × (at + n ≤ length list.now) }
    ensures { result ≡ position_of (run flag list.now at n) (nodes_in flag list.now starts.now lens.now count) }
{
    for s in 0..count {
        if alike_at(list, flag, at, n, starts[s], lens[s]) {
            return s;
        }
    }
    count
}

// One more node, if it was not found.
fn one_more(count: usize, found: usize) -> usize
    requires { count < 513 }
    ensures { result ≡ cond (ltb found count) count (suc count) }
{
    if found < count { count } else { count + 1 }
}

// Adds the beginnings of the n bytes from `at`, shortest first; how many nodes there are then.
fn add_beginnings(
    list: &[u8],
    flag: u8,
    starts: &mut [usize],
    lens: &mut [usize],
    count: usize,
    at: usize,
    n: usize,
) -> usize
    requires within { Within list.now starts.old lens.old count × (at + n ≤ length list.now) }
    requires starts_len { (length starts.old ≡ 513) × (length lens.old ≡ 513) × (count + n ≤ 513) }
    ensures { Added flag list.now (nodes_in flag list.now starts.old lens.old count) count at n
        starts.new lens.new result }
{
    let mut nodes = count;
    for i in 0..n {
        let found = find(list, flag, starts, lens, nodes, at, i + 1);
        starts[nodes] = at;
        lens[nodes] = i + 1;
        nodes = one_more(nodes, found);
    }
    nodes
}

// Numbers the nodes: the root, then the keywords' beginnings in the order in which they first appear. How many there are.
fn number_nodes(
    list: &[u8],
    words: keywords::Keywords,
    starts: &mut [usize],
    lens: &mut [usize],
) -> usize
    requires { Reads list.now words × (length starts.old ≡ 513) × (length lens.old ≡ 513) }
    ensures { Numbered list.now starts.new lens.new result }
{
    starts[0] = 0;
    lens[0] = 0;
    let mut count: usize = 1;
    for k in 0..words.count {
        count = add_beginnings(
            list,
            words.flag,
            starts,
            lens,
            count,
            words.start[k],
            words.len[k],
        );
    }
    count
}

// ---- what is known of each node

// The m bytes of the list from a are an ending of the n bytes from b.
fn ends_with(list: &[u8], flag: u8, a: usize, m: usize, b: usize, n: usize) -> bool
    requires { (a + m ≤ length list.now) × (b + n ≤ length list.now) }
    ensures { result ≡ is_ending (run flag list.now a m) (run flag list.now b n) }
{
    m <= n && alike_at(list, flag, a, m, b + (n - m), m)
}

// The set with bit k, if the test holds.
fn with_bit(set: u32, k: usize, holds: bool) -> u32
    requires { (k < 16) × (set < 2 ^ k) }
    ensures { result ≡ cond holds 1 0 * 2 ^ k + set }
{
    if holds { set + (1 << k) } else { set }
}

// The keywords that the n bytes from `at` end with, as a set.
fn ending_set(list: &[u8], words: keywords::Keywords, at: usize, n: usize) -> u32
    requires { Reads list.now words × (at + n ≤ length list.now) }
    ensures { result ≡ ending_set (folded_keywords list.now) (run (flag_of list.now) list.now at n) }
{
    let mut set: u32 = 0;
    for k in 0..words.count {
        let holds = ends_with(list, words.flag, words.start[k], words.len[k], at, n);
        set = with_bit(set, k, holds);
    }
    set
}

// The sets of all nodes.
fn fill_sets(
    list: &[u8],
    words: keywords::Keywords,
    starts: &[usize],
    lens: &[usize],
    count: usize,
    sets: &mut [u32],
)
    requires { Ready list.now words starts.now lens.now count × (count ≤ length sets.old) }
    ensures { sets.new ≡ written sets.old (sets_of (folded_keywords list.now)) }
{
    for s in 0..count {
        sets[s] = ending_set(list, words, starts[s], lens[s]);
    }
}

// The length of keyword k's longest proper beginning that is an ending of the n bytes from `at`; 0 where there is no keyword k.
fn prefix_at(list: &[u8], words: keywords::Keywords, k: usize, at: usize, n: usize) -> u8
    requires { Reads list.now words × (at + n ≤ length list.now) }
    ensures { result ≡ prefix_at (keyword_at (folded_keywords list.now) k) (run (flag_of list.now) list.now at n) }
{
    if words.count <= k {
        return 0;
    }
    for i in (1..words.len[k]).rev() {
        if ends_with(list, words.flag, words.start[k], i, at, n) {
            return i as u8;
        }
    }
    0
}

// The prefixes of all nodes, 16 for each.
fn fill_prefixes(
    list: &[u8],
    words: keywords::Keywords,
    starts: &[usize],
    lens: &[usize],
    count: usize,
    prefixes: &mut [u8],
)
    requires { Ready list.now words starts.now lens.now count × (count * 16 ≤ length prefixes.old) }
    ensures { prefixes.new ≡ written prefixes.old (prefixes_of (folded_keywords list.now)) }
{
    for i in 0..count * 16 {
        prefixes[i] = prefix_at(list, words, i % 16, starts[i / 16], lens[i / 16]);
    }
}

// ---- the table

// The byte by which the n bytes of the list from b are a child of the m bytes from a; 256 if they are none.
fn child_byte(list: &[u8], flag: u8, a: usize, m: usize, b: usize, n: usize) -> usize
    requires { (a + m ≤ length list.now) × (b + n ≤ length list.now) }
    ensures byte { result ≡ child_byte (run flag list.now a m) (run flag list.now b n) }
    ensures most { result ≤ 256 }
{
    if n == m + 1 && alike_at(list, flag, a, m, b, m) {
        usize::from(folding::fold(flag, list[b + m]))
    } else {
        256
    }
}

// The children of node s, by byte.
fn children_of(
    list: &[u8],
    flag: u8,
    starts: &[usize],
    lens: &[usize],
    count: usize,
    s: usize,
) -> [u32; 257]
    requires { Numbered list.now starts.now lens.now count × (flag ≡ flag_of list.now) × (s < count) }
    ensures { Children (folded_keywords list.now) s result }
{
    let mut children = [0u32; 257];
    for t in 0..count {
        let c = child_byte(list, flag, starts[s], lens[s], starts[t], lens[t]);
        children[c] = t as u32;
    }
    children
}

// The cell that leads to node t by one move.
fn pack(t: u32, set: u32) -> u32
    requires { t ≤ 512 }
    ensures { result ≡ t * 256 + cond (ltb 0 set) 1 0 * 262144 + 16777216 }
{
    if set == 0 {
        t * 256 + 16777216
    } else {
        t * 256 + 262144 + 16777216
    }
}

// The cell for node s and byte b: to the child, or stay at the root, or one move more than from the link.
fn cell_of(
    list: &[u8],
    table: &[u32],
    sets: &[u32],
    children: &[u32],
    flag: u8,
    s: usize,
    linked: usize,
    b: u8,
) -> u32
    requires { CanFill list.now table.now sets.now children.now flag s linked }
    ensures { result ≡ cell_of (flag_of list.now) (folded_keywords list.now) s b }
{
    let c = usize::from(folding::fold(flag, b));
    let t = children[c];
    if t != 0 {
        pack(t, sets[t as usize])
    } else if s == 0 {
        pack(0, sets[0])
    } else {
        table[linked * 256 + usize::from(b)] + 16777216
    }
}

// The row of node s.
fn row_of(
    list: &[u8],
    table: &[u32],
    sets: &[u32],
    children: &[u32],
    flag: u8,
    s: usize,
    linked: usize,
) -> [u32; 256]
    requires { CanFill list.now table.now sets.now children.now flag s linked }
    ensures { result ≡ row_of (flag_of list.now) (folded_keywords list.now) s }
{
    let mut row = [0u32; 256];
    for b in 0..256 {
        row[b] = cell_of(list, table, sets, children, flag, s, linked, b as u8);
    }
    row
}

// The number of the failure link of the node that is the n bytes from `at`: the walk of its bytes without the first leads there.
fn link_of(list: &[u8], table: &[u32], at: usize, n: usize) -> usize
    requires { Rows list.now table.now n × (at + n ≤ length list.now) }
    ensures { result ≡ node_number (folded_keywords list.now) (link (folded_keywords list.now) (run (flag_of list.now) list.now at n)) }
{
    if n == 0 {
        return 0;
    }
    automaton::node_after(list, table, &list[at + 1..at + n])
}

// Fills the row of node s, if it has d bytes.
fn fill_row(
    list: &[u8],
    words: keywords::Keywords,
    starts: &[usize],
    lens: &[usize],
    count: usize,
    sets: &[u32],
    table: &mut [u32],
    d: usize,
    s: usize,
)
    requires can_build { CanBuild list.now words starts.now lens.now count sets.now table.old × (s < count) }
    requires rows { Rows list.now table.old d }
    ensures { table.new ≡ cond (eqb (get_or lens.now s 0) d)
        (splice table.old (s * 256) (row_of (flag_of list.now) (folded_keywords list.now) s)) table.old }
{
    if lens[s] != d {
        return;
    }
    let linked = link_of(list, table, starts[s], d);
    let children = children_of(list, words.flag, starts, lens, count, s);
    let row = row_of(list, table, sets, &children, words.flag, s, linked);
    automaton::copy_into(table, s * 256, &row);
}

// Fills the rows of the nodes of d bytes.
fn fill_depth(
    list: &[u8],
    words: keywords::Keywords,
    starts: &[usize],
    lens: &[usize],
    count: usize,
    sets: &[u32],
    table: &mut [u32],
    d: usize,
)
    requires can_build { CanBuild list.now words starts.now lens.now count sets.now table.old }
    requires rows { Rows list.now table.old d }
    ensures { Built list.now table.old table.new d count }
{
    for s in 0..count {
        fill_row(list, words, starts, lens, count, sets, table, d, s);
    }
}

// Fills the table, the nodes with fewer bytes first: a link has fewer bytes than its node.
fn fill_table(
    list: &[u8],
    words: keywords::Keywords,
    starts: &[usize],
    lens: &[usize],
    count: usize,
    sets: &[u32],
    table: &mut [u32],
)
    requires { CanBuild list.now words starts.now lens.now count sets.now table.old }
    ensures { table.new ≡ written table.old (table_of (flag_of list.now) (folded_keywords list.now)) }
{
    for d in 0..33 {
        fill_depth(list, words, starts, lens, count, sets, table, d);
    }
}

// Builds the automaton of a list: the table, the sets and the prefixes of all nodes; how many nodes there are.
pub fn build(
    list: &[u8],
    words: keywords::Keywords,
    table: &mut [u32],
    sets: &mut [u32],
    prefixes: &mut [u8],
) -> usize
    requires { CanMake list.now words table.old sets.old prefixes.old }
    ensures count { result ≡ node_count (folded_keywords list.now) }
    ensures cells { table.new ≡ written table.old (table_of (flag_of list.now) (folded_keywords list.now)) }
    ensures bits { sets.new ≡ written sets.old (sets_of (folded_keywords list.now)) }
    ensures lengths { prefixes.new ≡ written prefixes.old (prefixes_of (folded_keywords list.now)) }
{
    let mut starts = [0usize; 513];
    let mut lens = [0usize; 513];
    let count = number_nodes(list, words, &mut starts, &mut lens);
    fill_sets(list, words, &starts, &lens, count, sets);
    fill_prefixes(list, words, &starts, &lens, count, prefixes);
    fill_table(list, words, &starts, &lens, count, sets, table);
    count
}
