// The search program of document 01, run on the vault of vault_search_most with one occurrence more.
#![tactic(auto)]

use std::io;

fn main(rt: HostRuntime) -> io::Result<()> {
    let mut out = program::room();
    let n = program::run(&rt, &mut out);
    program::print(&rt, &out[..n])
}
