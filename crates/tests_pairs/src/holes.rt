// A vault whose store is written again with other holes: other bytes in them, and another number of bytes behind the last chunk.
use crate::orders::run_pair;
use crate::pairs::saw_holes;
use tests_plain::bytes::copy;
use tests_plain::case;
use tests_vaults::fill::put_other_holes;

// g becomes f with other holes in its store.
fn put_other(g: &mut [u8], f: &[u8], m: &mut [u8], way: usize) {
    copy(g, 0, f, 0, case::row_at(f, 0));
    put_other_holes(g, m, way);
}

// Vault number i: its model, and its case f.
pub(crate) fn run_holes(
    counts: &mut [u64],
    i: usize,
    m: &mut [u8],
    f: &[u8],
    g: &mut [u8],
    a: &mut [u8],
    b: &mut [u8],
) {
    put_other(g, f, m, i / 8 % 4);
    run_pair(counts, f, g, a, b);
    saw_holes(counts, f, g);
}
