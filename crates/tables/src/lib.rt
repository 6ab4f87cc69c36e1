// Partial-match tables: for each keyword, and each pair of lengths i and j, the set of its starts in its first i bytes followed by its
// last j. Computed from the keyword alone, by the definition's own words.
#![tactic(auto)]

ghost use Rattle.std.specs.Prelude.{◌≡◌, ◌+◌, ◌≤◌, ◌<◌, length};
ghost use Rattle.spec.specs.Keywords.{folded, folded_keywords};
ghost use Rattle.spec.specs.Table.{in_cell};
ghost use Rattle.keywords.specs.Parsed.{Reads};
ghost use Rattle.tables.specs.Tabled.{cell_set, cells_of, table_of, tables_of};

// Whether the keyword starts at s in its first i bytes followed by its last j.
fn in_cell(flag: u8, keyword: &[u8], i: usize, j: usize, s: usize) -> bool
    requires { (i < length keyword.now) × (j < length keyword.now) × (s < i) }
    ensures { result ≡ in_cell (folded flag keyword.now) i j s }
{
    let left = i - s;
    let from = keyword.len() - j;
    matcher::occurs_at(&keyword[left..], &keyword[from..], 0, flag)
        && matcher::occurs_at(&keyword[..left], &keyword[..i], s, flag)
}

// The cell for i and j. The keyword has room for i + j - n + 1 starts only.
fn cell_of(flag: u8, keyword: &[u8], i: usize, j: usize) -> u32
    requires { (i < length keyword.now) × (j < length keyword.now) × (length keyword.now ≤ 32) }
    ensures { result ≡ cell_set (folded flag keyword.now) i j }
{
    let mut set = 0;
    for s in 0..(i + j + 1).saturating_sub(keyword.len()) {
        if in_cell(flag, keyword, i, j, s) {
            set += 1 << s;
        }
    }
    set
}

// The cells for i, by j.
fn row_of(flag: u8, keyword: &[u8], i: usize) -> [u32; 32]
    requires { (i < length keyword.now) × (length keyword.now ≤ 32) }
    ensures { result ≡ cells_of (folded flag keyword.now) i }
{
    let mut row = [0u32; 32];
    for j in 0..keyword.len() {
        row[j] = cell_of(flag, keyword, i, j);
    }
    row
}

// The table of one keyword.
fn table_of(flag: u8, keyword: &[u8]) -> [[u32; 32]; 32]
    requires { length keyword.now ≤ 32 }
    ensures { result ≡ table_of (folded flag keyword.now) }
{
    let mut table = [[0u32; 32]; 32];
    for i in 0..keyword.len() {
        table[i] = row_of(flag, keyword, i);
    }
    table
}

// The tables of all keywords of a list.
pub fn tables_of(list: &[u8], words: keywords::Keywords) -> [[[u32; 32]; 32]; 16]
    requires { Reads list.now words }
    ensures { result ≡ tables_of (folded_keywords list.now) }
{
    let mut tables = [[[0u32; 32]; 32]; 16];
    for k in 0..words.count {
        let a = words.start[k];
        let e = a + words.len[k];
        tables[k] = table_of(words.flag, &list[a..e]);
    }
    tables
}
