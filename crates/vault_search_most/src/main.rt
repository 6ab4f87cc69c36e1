// The search program of document 01, run on a vault with 7,281 occurrences, the most that its list buffer holds. make.py writes the files
// and the expected output of this run and of vault_search_over's.
#![tactic(auto)]

use std::io;

fn main(rt: HostRuntime) -> io::Result<()> {
    let mut out = program::room();
    let n = program::run(&rt, &mut out);
    program::print(&rt, &out[..n])
}
