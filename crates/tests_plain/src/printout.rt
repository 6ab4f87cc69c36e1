// A run of the search program, in one array: the lengths of its three files and of the text that it must print, 4 bytes each; then the files,
// with room for 65,537 bytes each; then the text.
ghost use Rattle.std.specs.Prelude.{◌≡◌, length};

use crate::bytes::{copy, get_4, less, part, plus, put_4};
use crate::case;
use crate::text::put_text;

pub const STORE: usize = 0;

pub const WORDS: usize = 1;

pub const RECIPES: usize = 2;

pub const TEXT: usize = 3;

pub fn room() -> [u8; 386027]
    ensures { 386027 ≡ length result }
{
    [0; 386027]
}

// The place of a byte of a file or of the text.
pub fn place_of(part: usize, at: usize) -> usize {
    plus(16 + 65537 * (part % 4), at)
}

pub fn put_length(p: &mut [u8], part: usize, n: usize) {
    put_4(p, 4 * (part % 4), n);
}

// A file, or the text, ends at a place.
pub fn put_end(p: &mut [u8], part: usize, end: usize) {
    put_length(p, part, less(end, place_of(part, 0)));
}

pub fn put_part(p: &mut [u8], part: usize, bytes: &[u8]) {
    let n = bytes.len();
    copy(p, place_of(part, 0), bytes, 0, n);
    put_length(p, part, n);
}

// The files of a case.
pub fn put_case(p: &mut [u8], f: &[u8]) {
    put_part(p, STORE, case::store(f));
    put_part(p, WORDS, case::list(f));
    put_part(p, RECIPES, case::recipes(f));
}

fn part_of(p: &[u8], i: usize) -> &[u8] {
    part(p, place_of(i, 0), get_4(p, 4 * (i % 4)))
}

pub fn store(p: &[u8]) -> &[u8] {
    part_of(p, STORE)
}

pub fn words(p: &[u8]) -> &[u8] {
    part_of(p, WORDS)
}

pub fn recipes(p: &[u8]) -> &[u8] {
    part_of(p, RECIPES)
}

pub fn text(p: &[u8]) -> &[u8] {
    part_of(p, TEXT)
}

// The text where `code` is due; the case's list where it is 0.
pub fn put_due(p: &mut [u8], f: &[u8], code: u8) {
    let end = put_text(p, place_of(TEXT, 0), f, code);
    put_end(p, TEXT, end);
}
