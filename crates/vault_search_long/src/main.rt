// The search program of document 01, run on files at the border of its buffers: store.bin has 65,536 bytes, words.bin is missing,
// recipes.bin has 65,537.
#![tactic(auto)]

use std::io;

fn main(rt: HostRuntime) -> io::Result<()> {
    let mut out = program::room();
    let n = program::run(&rt, &mut out);
    program::print(&rt, &out[..n])
}
