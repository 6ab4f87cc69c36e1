// The search program's whole output, written into a buffer: the list of occurrences, a refusal's number, or the first file that is too
// long (document 01, "A small vault").
#![tactic(auto)]

ghost use Rattle.std.specs.Prelude.{◌≡◌, [], ◌∷◌, ◌++◌, ◌+◌, ◌*◌, ◌≤◌, length};
ghost use Rattle.spec.specs.Join.{read_list};
ghost use Rattle.spec.specs.Program.{decimal, list_text, refused_text, too_long_text, search_text, program_text, longest_text, printed_length, printed_buffer};
ghost use Rattle.output.specs.Lines.{Room, Puts, row_text, rows_text};

use spec::SearchRefusal;

// The longest file that is taken; the index and the list have buffers of the same length.
const ROOM: usize = 65536;

// No output is longer.
pub const LONGEST: usize = 189317;

// ---- words and lines

// A word and the byte that ends it; answers where it ends.
fn put_word(out: &mut [u8], at: usize, word: &[u8], end: u8) -> usize
    requires { Room out.old at (word.now ++ (end ∷ [])) }
    ensures { Puts out.old out.new at (word.now ++ (end ∷ [])) result }
{
    field::copy(out, at, word);
    let place = at + word.len();
    out[place] = end;
    place + 1
}

// A number in decimal and the byte that ends it.
fn put_number(out: &mut [u8], at: usize, n: u64, end: u8) -> usize
    requires { Room out.old at (decimal n ++ (end ∷ [])) }
    ensures { Puts out.old out.new at (decimal n ++ (end ∷ [])) result }
{
    let mut digits = [0u8; 20];
    let k = io::decimal(n, &mut digits);
    put_word(out, at, &digits[..k], end)
}

// ---- the list

// The line of one occurrence, whose 9 bytes start at `from`.
fn put_row(out: &mut [u8], at: usize, list: &[u8], from: usize) -> usize
    requires { (from + 9 ≤ length list.now) × Room out.old at (row_text list.now from) }
    ensures { Puts out.old out.new at (row_text list.now from) result }
{
    let file = field::read(list, from, 4);
    let offset = field::read(list, from + 4, 4);
    let keyword = field::read(list, from + 8, 1);
    let a = put_number(out, at, file, b' ');
    let b = put_number(out, a, offset, b' ');
    put_number(out, b, keyword, b'\n')
}

// The lines of all occurrences.
fn put_rows(out: &mut [u8], at: usize, list: &[u8], count: usize) -> usize
    requires { (9 * count ≤ length list.now) × Room out.old at (rows_text list.now count 0) }
    ensures { Puts out.old out.new at (rows_text list.now count 0) result }
{
    let mut place = at;
    for i in 0..count {
        place = put_row(out, place, list, 9 * i);
    }
    place
}

// The count, and the lines.
fn put_list(out: &mut [u8], list: &[u8], count: usize) -> usize
    requires { (9 * count ≤ length list.now) × Room out.old 0 (list_text (read_list count list.now)) }
    ensures { Puts out.old out.new 0 (list_text (read_list count list.now)) result }
{
    let a = put_word(out, 0, b"finds", b' ');
    let b = put_number(out, a, count as u64, b'\n');
    put_rows(out, b, list, count)
}

// ---- the other answers

fn put_refused(out: &mut [u8], code: u8) -> usize
    requires { Room out.old 0 (refused_text code) }
    ensures { Puts out.old out.new 0 (refused_text code) result }
{
    let a = put_word(out, 0, b"refused", b' ');
    put_number(out, a, u64::from(code), b'\n')
}

fn put_too_long(out: &mut [u8], name: &[u8]) -> usize
    requires { Room out.old 0 (too_long_text name.now) }
    ensures { Puts out.old out.new 0 (too_long_text name.now) result }
{
    let a = put_word(out, 0, b"too long", b' ');
    put_word(out, a, name, b'\n')
}

// ---- the program

fn put_search(out: &mut [u8], store: &[u8], words: &[u8], recipes: &[u8]) -> usize
    requires { longest_text ≤ length out.old }
    ensures { Puts out.old out.new 0 (search_text store.now words.now recipes.now) result }
{
    let mut index = io::large_buffer();
    let mut list = io::large_buffer();
    let key = [0u8; 16];
    let none = spec::Tally {
        client0: 0,
        client1: 0,
        client2: 0,
        client3: 0,
    };
    let answer = search::search(words, store, recipes, &key, &mut index, &mut list, none);
    match answer.searched {
        Err(SearchRefusal::Scan(refusal)) => put_refused(out, refusal.number()),
        Err(SearchRefusal::Join(_, refusal)) => put_refused(out, refusal.number()),
        Ok(done) => put_list(out, &list, done.count),
    }
}

// Writes what the program prints, from the bytes of its three files, and answers its length. Of a file that is too long the first 65,537
// bytes do. A buffer shorter than LONGEST is left as it was, and the answer is 0.
pub fn put(store: &[u8], words: &[u8], recipes: &[u8], out: &mut [u8]) -> usize
    ensures { (result ≡ printed_length (length out.old) (program_text store.now words.now recipes.now))
        × (out.new ≡ printed_buffer out.old (program_text store.now words.now recipes.now)) }
{
    if out.len() < LONGEST {
        return 0;
    }
    if ROOM < store.len() {
        return put_too_long(out, b"store.bin");
    }
    if ROOM < words.len() {
        return put_too_long(out, b"words.bin");
    }
    if ROOM < recipes.len() {
        return put_too_long(out, b"recipes.bin");
    }
    put_search(out, store, words, recipes)
}
