// The search program's output, compared with the text plainly computed: of the small vault, of generated vaults, of files absent, full and too
// long, of full lists and indexes. Each into a longer buffer, an exact one, and one a byte short.
use crate::border;
use output::LONGEST;
use tests_plain::bytes::{fill, less};
use tests_plain::{case, printout};
use tests_report::due;
use tests_vaults::fill::put_scanned;
use tests_vaults::make::make;
use tests_vaults::small::small;

fn print_into(counts: &mut [u64], p: &[u8], out: &mut [u8]) {
    fill(out, due::PATTERN);
    let n = output::put(
        printout::store(p),
        printout::words(p),
        printout::recipes(p),
        out,
    );
    due::printed(counts, out, n, printout::text(p), LONGEST);
}

// Into the first `room` bytes of the buffer.
fn print_front(counts: &mut [u64], p: &[u8], out: &mut [u8], room: usize) {
    if room <= out.len() {
        print_into(counts, p, &mut out[..room]);
    }
}

// A case of outputs.
fn prints(counts: &mut [u64], p: &[u8], out: &mut [u8]) {
    print_into(counts, p, out);
    print_front(counts, p, out, LONGEST);
    print_front(counts, p, out, less(LONGEST, 1));
    due::saw_text(counts, printout::text(p));
}

// ---- vaults

// The small vault; its text is document 01's.
pub(crate) fn small_vault(counts: &mut [u64], f: &mut [u8], p: &mut [u8], out: &mut [u8]) {
    let mut m = case::room();
    small(&mut m);
    put_scanned(f, &mut m, out);
    printout::put_case(p, f);
    printout::put_part(p, printout::TEXT, b"finds 3\n0 1 0\n0 3 0\n1 0 1\n");
    prints(counts, p, out);
}

// Vault number n, with the list that the direct search of its restored files gives.
fn put_vault(n: usize, f: &mut [u8], p: &mut [u8], out: &mut [u8]) {
    let mut m = case::room();
    make(&mut m, n);
    put_scanned(f, &mut m, out);
    printout::put_case(p, f);
    printout::put_due(p, f, case::search_code(f));
}

pub(crate) fn vault(counts: &mut [u64], n: usize, f: &mut [u8], p: &mut [u8], out: &mut [u8]) {
    put_vault(n, f, p, out);
    prints(counts, p, out);
}

// ---- files at the borders

// The files in states number t.
pub(crate) fn states(counts: &mut [u64], t: usize, f: &[u8], p: &mut [u8], out: &mut [u8]) {
    border::put_states_of(p, t);
    printout::put_due(p, f, border::states_code(t));
    prints(counts, p, out);
}

// Full list or index number t.
pub(crate) fn full(counts: &mut [u64], t: usize, f: &mut [u8], p: &mut [u8], out: &mut [u8]) {
    border::put_full_case(f, p, t);
    printout::put_due(p, f, border::full_code(t));
    prints(counts, p, out);
}
