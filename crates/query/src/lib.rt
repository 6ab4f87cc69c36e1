// Queries of several keywords in order (request #109), over a match index and recipes alone. The plan tests each file and walks it until its choice
// is complete, so that the lines are counted before a byte is written; files without a line are not walked again.
#![tactic(auto)]

ghost use Rattle.std.specs.Prelude.{◌≡◌, false, [], ◌+◌, ◌*◌, ◌≤◌, length, replicate};
ghost use Rattle.spec.specs.Bytes.{splice, fields_bytes, written};
ghost use Rattle.spec.specs.Form.{form_of};
ghost use Rattle.spec.specs.Index.{list_in, lengths_in};
ghost use Rattle.spec.specs.Keywords.{folded_keywords};
ghost use Rattle.spec.specs.Query.{lines_bytes, line_size, query_lines, query_outcome, query_buffer, query_count};
ghost use Rattle.tables.specs.Tabled.{tables_of};
ghost use Rattle.walk.specs.Walking.{Directory, File};
ghost use Rattle.plan.specs.Plans.{Planned};
ghost use Rattle.spec.specs.Refusal.{outcome_of};
ghost use Rattle.query.specs.FileLines.{file_line};

use spec::Refusal;

// Writes the offsets, 4 bytes each.
fn put_offsets(out: &mut [u8], at: usize, offsets: &[usize])
    requires { at + 4 * length offsets.now ≤ length out.old }
    ensures { out.new ≡ splice out.old at (fields_bytes 4 offsets.now) }
{
    let mut p = at;
    for &offset in offsets {
        field::write(out, p, 4, offset as u64);
        p += 4;
    }
}

// What the line of a file goes by: the keywords' lengths, the file's number, where in the buffer its line starts, and whether it
// has one: where it has none, none of its places is looked at.
#[derive(Drop)]
struct Lining {
    lengths: [usize; 16],
    number: usize,
    place: usize,
    has_line: bool,
}

// Writes the line of a file that has one, and returns the place behind. Every place is looked up.
fn write_line(
    source: &walk::Source,
    lining: Lining,
    file: &[u8],
    query: &[u8],
    out: &mut [u8],
) -> usize
    requires file_value { lining.has_line ≡ false → file_line source.now.index.now query.now lining.number file.now ≡ [] }
    requires directory { Directory source.now.index.now source.now.opened source.now.chains.now
        × (source.now.tables.now ≡ tables_of (folded_keywords (list_in source.now.index.now))) }
    requires file { File source.now.index.now file.now [] × (length query.now ≤ 8)
        × (lining.lengths ≡ written (replicate 16 0) (lengths_in source.now.index.now)) }
    requires file_in_bounds { lining.place + line_size query.now * length (file_line source.now.index.now query.now lining.number file.now) ≤ length out.old }
    ensures { (result ≡ lining.place + line_size query.now
        * length (file_line source.now.index.now query.now lining.number file.now))
        × (out.new ≡ splice out.old lining.place
        (lines_bytes (file_line source.now.index.now query.now lining.number file.now))) }
{
    let Lining {
        lengths,
        number,
        place,
        has_line,
    } = lining;
    if !has_line {
        return place;
    }
    let slots = [0u32; 0];
    let choosing = walk::Choosing { number, lengths };
    let choice = walk::choose_file(source, choosing, file, &slots, query);
    if choice.step != query.len() {
        return place;
    }
    let offsets = choice.offsets;
    field::write(out, place, 4, number as u64);
    put_offsets(out, place + 4, &offsets[..query.len()]);
    place + 4 + 4 * query.len()
}

// Writes the lines of all files.
fn write_lines(
    index: &[u8],
    recipes: &[u8],
    made: plan::Plan,
    chains: &[u32],
    tables: &[[[u32; 32]; 32]; 16],
    query: &[u8],
    out: &mut [u8],
)
    requires planned { Planned index.now recipes.now query.now made chains.now tables.now × (1 ≤ length query.now) × (length query.now ≤ 8) }
    requires query_in_bounds { line_size query.now * length (query_lines (form_of index.now) index.now recipes.now query.now) ≤ length out.old }
    ensures { out.new ≡ splice out.old 0
        (lines_bytes (query_lines (form_of index.now) index.now recipes.now query.now)) }
{
    let source = walk::Source {
        index,
        opened: made.opened,
        chains,
        tables,
    };
    let words = keywords::parse(&index[8..]);
    let lengths = words.len;
    let files = recipes::count_at(recipes, 0);
    let mut place: usize = 0;
    let mut at: usize = 4;
    for number in 0..files {
        let file = recipes::file_at(recipes, at);
        let lining = Lining {
            lengths,
            number,
            place,
            has_line: made.has_rows[number],
        };
        place = write_line(&source, lining, file, query, out);
        at += 4 + file.len();
    }
}

// The number of lines that a query would report, whatever the buffer, or the refusal.
pub fn count(index: &[u8], recipes: &[u8], query: &[u8]) -> Result<usize, Refusal>
    ensures { outcome_of result ≡ query_count (form_of index.now) index.now recipes.now query.now }
{
    let mut chains = [0u32; 130536];
    let mut tables = [[[0u32; 32]; 32]; 16];
    let asked = asking::askable(query);
    let counted = plan::make(index, recipes, asked, &mut chains, &mut tables)?;
    asking::check(query, counted.opened.keywords)?;
    Ok(counted.total)
}

// The query: the number of lines, or the refusal, which changes no byte of the buffer.
pub fn query(index: &[u8], recipes: &[u8], query: &[u8], out: &mut [u8]) -> Result<usize, Refusal>
    ensures { (outcome_of result ≡ query_outcome (form_of index.now) index.now recipes.now query.now
        (length out.old))
        × (out.new ≡ query_buffer (form_of index.now) index.now recipes.now query.now out.old) }
{
    let mut chains = [0u32; 130536];
    let mut tables = [[[0u32; 32]; 32]; 16];
    let asked = asking::askable(query);
    let p = plan::make(index, recipes, asked, &mut chains, &mut tables)?;
    asking::check(query, p.opened.keywords)?;
    if out.len() / (4 + 4 * query.len()) < p.total {
        return Err(Refusal::ListTooLong);
    }
    write_lines(index, recipes, p, &chains, &tables, query, out);
    Ok(p.total)
}
