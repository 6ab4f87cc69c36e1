// The search program of document 01: it reads store.bin, words.bin and recipes.bin from the folder that it is run in, writes what is due into
// a buffer (crate `output`), and prints that.
#![tactic(auto)]

ghost use Rattle.std.specs.Prelude.{◌≡◌, length};
ghost use Rattle.io.specs.Counts.{IsPrefixLen};
ghost use Rattle.program.specs.Reading.{TextOfFiles};

use std::io::{Print, Read};
use std::rt::Files;
use std::{fs, io};

// Room for the whole output.
pub fn room() -> [u8; output::LONGEST]
    ensures { 189317 ≡ length result }
{
    [0; output::LONGEST]
}

// Room for a file: one byte more than the longest that is taken, so that a longer one is told from it.
fn file_room() -> [u8; 65537]
    ensures { 65537 ≡ length result }
{
    [0; 65537]
}

// Reads into the buffer until it is full, the file ends or a read fails, and answers how many bytes.
fn read_full(file: &mut impl Read, buffer: &mut [u8]) -> usize
    ensures { IsPrefixLen result buffer.new }
{
    let mut done = 0;
    while done < buffer.len() {
        match file.read(&mut buffer[done..]) {
            Ok(0) => break,
            Ok(n) => done += n,
            Err(_) => break,
        }
    }
    done
}

// Reads a file into the buffer, until it ends or the buffer is full, and answers how many bytes. A file that cannot be opened or read is
// empty.
fn load(rt: &impl Files, name: &str, buffer: &mut [u8]) -> usize
    ensures { IsPrefixLen result buffer.new }
{
    match fs::open(rt, name) {
        Ok(mut file) => read_full(&mut file, buffer),
        Err(_) => 0,
    }
}

// Writes what is to be printed, and answers its length.
pub fn run(rt: &impl Files, out: &mut [u8]) -> usize
    ensures { IsPrefixLen result out.new × TextOfFiles out.old out.new result }
{
    let mut store = file_room();
    let mut words = file_room();
    let mut recipes = file_room();
    let s = load(rt, "store.bin", &mut store);
    let w = load(rt, "words.bin", &mut words);
    let r = load(rt, "recipes.bin", &mut recipes);
    output::put(&store[..s], &words[..w], &recipes[..r], out)
}

// Prints to standard output. Where the output cannot be written whole, the answer is the error, with which the program then ends.
pub fn print(rt: &impl Print, text: &[u8]) -> io::Result<()> {
    rt.write_all(text)
}
