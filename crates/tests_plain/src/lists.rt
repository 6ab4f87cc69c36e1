// Lists of occurrences, plainly computed by the direct search of restored files.
use crate::bytes::{copy, plus, put, put_4};
use crate::case::row_at;
use crate::model::{chunk_at, chunk_of, chunk_size, file_size, files, keywords};
use crate::records::stands;

// ---- lists

// Writes an occurrence as row `row` of the list, if it is there; the row behind.
pub fn put_row(
    out: &mut [u8],
    row: usize,
    there: bool,
    file: usize,
    offset: usize,
    keyword: usize,
) -> usize {
    if !there {
        return row;
    }
    let at = row_at(out, row);
    put_4(out, at, file);
    put_4(out, plus(at, 4), offset);
    put(out, plus(at, 8), (keyword % 256) as u8);
    plus(row, 1)
}

// The keywords that stand at one offset of a text, as rows from `row` on; the row behind.
fn list_at(
    m: &[u8],
    n: usize,
    text: &[u8],
    size: usize,
    file: usize,
    at: usize,
    out: &mut [u8],
    row: usize,
) -> usize {
    let mut r = row;
    for k in 0..n {
        let there = stands(m, k, text, 0, size, at);
        r = put_row(out, r, there, file, at, k);
    }
    r
}

fn list_text(m: &[u8], text: &[u8], size: usize, file: usize, out: &mut [u8], row: usize) -> usize {
    let n = keywords(m);
    let mut r = row;
    for at in 0..size {
        r = list_at(m, n, text, size, file, at, out, r);
    }
    r
}

// A file's chunks joined into `whole`; its length.
pub fn restore(m: &[u8], f: usize, whole: &mut [u8]) -> usize {
    let n = file_size(m, f);
    let mut at: usize = 0;
    for i in 0..n {
        let c = chunk_of(m, f, i);
        copy(whole, at, m, chunk_at(c), chunk_size(m, c));
        at = plus(at, chunk_size(m, c));
    }
    at
}

// The direct search of every restored file; the number of rows.
pub fn search_files(m: &[u8], whole: &mut [u8], out: &mut [u8]) -> usize {
    let n = files(m);
    let mut row: usize = 0;
    for f in 0..n {
        let size = restore(m, f, whole);
        row = list_text(m, whole, size, f, out, row);
    }
    row
}
