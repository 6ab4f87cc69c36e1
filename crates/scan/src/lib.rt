// The scan: it checks a keyword list and a store, and writes the store's match index (document 01, "Notes file" and "Refusals by
// operation"; request #103). A refusal changes no byte: where the buffer has room whatever the chunks hold, each chunk's body is written
// without being measured first; else all are measured, and only those in which a keyword occurs are walked for writing. Writing walks a chunk of
// at most 65,536 bytes once and a longer one twice.
#![tactic(auto)]

ghost use Rattle.std.specs.Prelude.{◌≡◌, ◌&&◌, ◌+◌, ◌*◌, length, leb};
ghost use Rattle.spec.specs.Form.{newest};
ghost use Rattle.spec.specs.Scan.{scannable_code, size_outcome, scan_answer, scan_buffer};
ghost use Rattle.spec.specs.Refusal.{number, outcome_of};
ghost use Rattle.spec.specs.Scanned.{scanned_of};
ghost use Rattle.directory.specs.Chains.{Empty};
ghost use Rattle.index_writer.specs.Layout.{Walks, AllOdd, CanMeasure};
ghost use Rattle.scan.specs.Answers.{most_bytes, Scans};

use spec::{Refusal, ScanDone};

// The largest number of 32 bits: offsets in an index have 32.
const LARGEST: usize = 4294967295;

// The refusals before 9: the keyword check, then the store check, whose chains of the fingerprints go where the table goes later: so the stack
// holds one of the two.
fn scannable(list: &[u8], store: &[u8], chains: &mut [u32]) -> Result<(), Refusal>
    requires { Empty chains.old }
    ensures { number result ≡ scannable_code list.now store.now }
{
    keywords::check(list)?;
    store::examine(store, chains)
}

// ---- the size

// The length of the index that a scan would write, whatever the buffer, or the refusal.
pub fn size(list: &[u8], store: &[u8]) -> Result<usize, Refusal>
    ensures { outcome_of result ≡ size_outcome newest list.now store.now }
{
    let mut table = [0u32; 131328];
    scannable(list, store, &mut table)?;
    let words = keywords::parse(list);
    let count = store::chunk_count(store);
    let mut ends = [0u32; 513];
    let mut tails = [0u8; 8208];
    let mut log = [0u32; 65536];
    let mut run1 = [0u32; 16384];
    let mut run2 = [0u32; 16384];
    let mut run3 = [0u32; 16384];
    let mut marks = [0u32; 65000];
    automaton_table::build(list, words, &mut table, &mut ends, &mut tails);
    let machine = windows::Machine {
        list,
        words,
        table: &table,
        ends: &ends,
        tails: &tails,
    };
    let bodies = index_writer::measure_bodies(
        &machine, store, count, &mut log, &mut run1, &mut run2, &mut run3, &mut marks,
    );
    let whole = 8 + list.len() + 32 * count + bodies.size;
    Ok(whole)
}

// ---- the scan

// Whether the buffer has room for the index, whatever the chunks hold, so that nothing is measured before. With holes a store may have more than
// 32 bits of bytes; the bound then has too.
fn always_fits(
    list: &[u8],
    words: keywords::Keywords,
    store: &[u8],
    count: usize,
    room: usize,
) -> bool
    requires { Walks list.now words store.now count }
    ensures { result ≡ (leb (most_bytes list.now store.now) room && leb
        (most_bytes list.now store.now) 4294967295) }
{
    if LARGEST < store.len() {
        return false;
    }
    let most = 8 + list.len() + 32 * count + words.count * (17 * count + 3 * store.len());
    most <= room && most <= LARGEST
}

// Measures the index and writes it where there is room: the answer of a scan whose checks found nothing.
fn measured(
    out: &mut [u8],
    machine: &windows::Machine,
    store: &[u8],
    count: usize,
    log: &mut [u32],
    run1: &mut [u32],
    run2: &mut [u32],
    run3: &mut [u32],
    marks: &mut [u32],
) -> Result<ScanDone, Refusal>
    requires { CanMeasure machine.now.list.now machine.now.words store.now count machine.now.table.now machine.now.ends.now
        machine.now.tails.now log.old run1.old run2.old run3.old marks.old
        × (scannable_code machine.now.list.now store.now ≡ 0) }
    ensures { Scans machine.now.list.now store.now out.old out.new (scanned_of result) }
{
    let bodies = index_writer::measure_bodies(machine, store, count, log, run1, run2, run3, marks);
    let len = 8 + machine.list.len() + 32 * count + bodies.size;
    if out.len() < len {
        return Err(Refusal::OutputTooLong);
    }
    if LARGEST < len {
        return Err(Refusal::OutputTooLong);
    }
    index_writer::put_index(out, machine, store, count, log, run1, run2, run3, marks);
    Ok(ScanDone {
        size: len,
        moves: bodies.moves,
    })
}

// Writes the index at once where it fits whatever the chunks hold; else it is measured first. Every mark is odd.
fn scanned(
    out: &mut [u8],
    machine: &windows::Machine,
    store: &[u8],
    count: usize,
    log: &mut [u32],
    run1: &mut [u32],
    run2: &mut [u32],
    run3: &mut [u32],
    marks: &mut [u32],
) -> Result<ScanDone, Refusal>
    requires { CanMeasure machine.now.list.now machine.now.words store.now count machine.now.table.now machine.now.ends.now
        machine.now.tails.now log.old run1.old run2.old run3.old marks.old
        × AllOdd marks.old × (scannable_code machine.now.list.now store.now ≡ 0) }
    ensures { Scans machine.now.list.now store.now out.old out.new (scanned_of result) }
{
    if always_fits(machine.list, machine.words, store, count, out.len()) {
        let once = index_writer::put_index(
            out, machine, store, count, log, run1, run2, run3, marks,
        );
        Ok(ScanDone {
            size: once.size,
            moves: once.moves,
        })
    } else {
        measured(out, machine, store, count, log, run1, run2, run3, marks)
    }
}

// The scan: the index's length and the moves, or the refusal, which changes no byte of the buffer.
pub fn scan(list: &[u8], store: &[u8], out: &mut [u8]) -> Result<ScanDone, Refusal>
    ensures { (scanned_of result ≡ scan_answer newest list.now store.now (length out.old))
        × (out.new ≡ scan_buffer newest list.now store.now out.old) }
{
    let mut table = [0u32; 131328];
    scannable(list, store, &mut table)?;
    let words = keywords::parse(list);
    let count = store::chunk_count(store);
    let mut ends = [0u32; 513];
    let mut tails = [0u8; 8208];
    let mut log = [0u32; 65536];
    let mut run1 = [0u32; 16384];
    let mut run2 = [0u32; 16384];
    let mut run3 = [0u32; 16384];
    let mut marks = [1u32; 65000];
    automaton_table::build(list, words, &mut table, &mut ends, &mut tails);
    let machine = windows::Machine {
        list,
        words,
        table: &table,
        ends: &ends,
        tails: &tails,
    };
    scanned(
        out, &machine, store, count, &mut log, &mut run1, &mut run2, &mut run3, &mut marks,
    )
}
