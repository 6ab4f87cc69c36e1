// The cases of the search program's output, all of them.
use crate::{border, outputs};
use tests_plain::{case, printout, text};
use tests_report::report;
use tests_report::report::report_cases;

const VAULTS: usize = 800;

fn run_vaults(counts: &mut [u64], f: &mut [u8], p: &mut [u8], out: &mut [u8]) {
    let n = VAULTS;
    for i in 0..n {
        outputs::vault(counts, i, f, p, out);
    }
}

fn run_states(counts: &mut [u64], f: &[u8], p: &mut [u8], out: &mut [u8]) {
    let n = border::STATES;
    for i in 0..n {
        outputs::states(counts, i, f, p, out);
    }
}

fn run_full(counts: &mut [u64], f: &mut [u8], p: &mut [u8], out: &mut [u8]) {
    let n = border::FULL;
    for i in 0..n {
        outputs::full(counts, i, f, p, out);
    }
}

// A group of outputs: how many, and by what they say.
fn report_group(name: &[u8], counts: &mut [u64]) {
    report_cases(name, counts);
    report::outputs(counts);
}

fn vaults(counts: &mut [u64], f: &mut [u8], p: &mut [u8], out: &mut [u8]) {
    outputs::small_vault(counts, f, p, out);
    report_group(b"outputs of the small vault", counts);
    run_vaults(counts, f, p, out);
    report_group(b"outputs of generated vaults", counts);
}

fn states(counts: &mut [u64], f: &mut [u8], p: &mut [u8], out: &mut [u8]) {
    border::put_full_files(f, p);
    run_states(counts, f, p, out);
    report_group(
        b"outputs of files absent, of 65,536 bytes, of 65,537",
        counts,
    );
}

fn full(counts: &mut [u64], f: &mut [u8], p: &mut [u8], out: &mut [u8]) {
    run_full(counts, f, p, out);
    report_group(b"outputs of full lists and full indexes", counts);
}

pub fn all_outputs(counts: &mut [u64]) {
    let mut f = case::room();
    let mut p = printout::room();
    let mut out = text::room();
    vaults(counts, &mut f, &mut p, &mut out);
    states(counts, &mut f, &mut p, &mut out);
    full(counts, &mut f, &mut p, &mut out);
    report::output_buffers(counts);
}
