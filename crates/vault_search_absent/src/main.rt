// The search program of document 01, run on the small vault without its recipes.bin: a file that is missing is empty.
#![tactic(auto)]

use std::io;

fn main(rt: HostRuntime) -> io::Result<()> {
    let mut out = program::room();
    let n = program::run(&rt, &mut out);
    program::print(&rt, &out[..n])
}
