// The entries of a store's directory: what refusals 7 and 20 say of them. Document 01, "Store"; requests #105 and #106.
#![tactic(auto)]

ghost use Rattle.std.specs.Prelude.{◌≡◌, ◌+◌, ◌*◌, ◌≤◌, length};
ghost use Rattle.spec.specs.Store.{chunks_code};
ghost use Rattle.spec.specs.Refusal.{number};

use spec::Refusal;

// The longest chunk, and the largest number of 32 bits.
const LONGEST: usize = 1048576;

const LARGEST: usize = 4294967295;

// The entries: each one's length, offset (at or after the end before) and end; then the last end, which may lie before the store's. The first that
// is wrong refuses.
pub fn entries(store: &[u8], count: usize) -> Result<(), Refusal>
    requires { 8 + 28 * count ≤ length store.now }
    ensures { number result ≡ chunks_code store.now count 0 (8 + 28 * count) }
{
    let mut at = 8 + 28 * count;
    for k in 0..count {
        let offset = field::read(store, 8 + 28 * k + 20, 4) as usize;
        let size = field::read(store, 8 + 28 * k + 24, 4) as usize;
        let end = offset + size;
        if !(1..=LONGEST).contains(&size) {
            return Err(Refusal::StoreEntryWrong);
        }
        if offset < at {
            return Err(Refusal::StoreEntryWrong);
        }
        if LARGEST < end {
            return Err(Refusal::StoreEntryBeyond);
        }
        at = end;
    }
    if at <= store.len() {
        Ok(())
    } else {
        Err(Refusal::StoreEntryWrong)
    }
}
