// Sets of starts of a keyword that crosses several chunks (request #108). A start is a number s below a prefix's length i, for the i - s bytes of the
// keyword that lie in the chunk with that prefix; a byte of the keyword is counted from 0.
#![tactic(auto)]

ghost use Rattle.std.specs.Prelude.{◌≡◌, ◌&&◌, ◌+◌, ◌-◌, ◌^◌, ◌≤◌, ◌<◌};
ghost use Rattle.std.specs.Int.Bits.{bit_or};
ghost use Rattle.spec.specs.Bytes.{set_of, in_set};
ghost use Rattle.tables.specs.Tabled.{cell_at};
ghost use Rattle.spans.specs.Spans.{some_cell};

// Whether a set has a number.
fn has(set: u32, s: usize) -> bool
    ensures { result ≡ in_set set s }
{
    s < 32 && (set >> s) % 2 == 1
}

// The numbers that one of two sets has.
pub fn either(a: u32, b: u32) -> u32
    ensures { (result ≡ bit_or a b) × (result < 2 ^ 32) }
{
    a | b
}

// The starts that some cell for the prefix has: their bytes are the last of the prefix.
pub fn starts_of(tables: &[[[u32; 32]; 32]; 16], k: usize, i: usize) -> u32
    requires { (k < 16) × (i < 32) }
    ensures { result ≡ set_of (λ s. some_cell tables.now k i s 32) 32 }
{
    let mut set = 0;
    for &cell in &tables[k][i] {
        set = either(set, cell);
    }
    set
}

// The bytes from which on the keyword is the first of its last j bytes: those whose cell has the start 0.
pub fn ends_of(tables: &[[[u32; 32]; 32]; 16], k: usize, j: usize) -> u32
    requires { (k < 16) × (j < 32) }
    ensures { result ≡ set_of (λ p. in_set (cell_at tables.now k p j) 0) 32 }
{
    let mut set = 0;
    for p in 0..32 {
        if has(tables[k][p][j], 0) {
            set += 1 << p;
        }
    }
    set
}

// Whether the start s is one of `live`, and its next byte in the set.
fn goes(set: u32, live: u32, i: usize, gone: usize, s: usize) -> bool
    requires { (s < i) × (i ≤ 32) × (gone < 2 ^ 32) }
    ensures { result ≡ (in_set live s && in_set set (i - s + gone)) }
{
    has(live, s) && has(set, i - s + gone)
}

// Those of the starts `live` whose next byte is in the set: the keyword's first i - s bytes and `gone` more lie before it.
pub fn going(set: u32, live: u32, i: usize, gone: usize) -> u32
    requires { (i ≤ 32) × (gone < 2 ^ 32) }
    ensures { result ≡ set_of (λ s. in_set live s && in_set set (i - s + gone)) i }
{
    let mut kept = 0;
    for s in 0..i {
        if goes(set, live, i, gone, s) {
            kept += 1 << s;
        }
    }
    kept
}
