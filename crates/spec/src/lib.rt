#![tactic(auto)]

ghost use Rattle.std.specs.Prelude.{◌≡◌};
ghost use Rattle.spec.specs.Refusal.{number_of};

// Why an operation is refused, by document 01's numbers ("Refusals by operation"). specs/Refusal.antt says which number each has, and what an answer
// is in those numbers; the definitions of this crate are what every contract of the other crates cites.
#[derive(Clone, Copy, PartialEq, Eq)]
pub enum Refusal {
    // The keyword list is cut short, or bytes are left over.
    KeywordsCut = 1,
    // Its count or fold flag is outside its range.
    KeywordsHeader = 2,
    // A keyword's length is 0 or above 32.
    KeywordLength = 3,
    // Two keywords compare alike.
    KeywordsAlike = 4,
    // The store has fewer than 8 bytes or another mark.
    StoreMarkWrong = 5,
    // The store's chunk count is above 65,000 or its directory is cut short.
    StoreDirectoryCut = 6,
    // An entry of the store has a wrong length or offset, or the last end is beyond the store's.
    StoreEntryWrong = 7,
    // A fingerprint is twice in the store.
    StoreDuplicate = 8,
    // The index, or the new store, is longer than the buffer; or the index is longer than 4,294,967,295 bytes.
    OutputTooLong = 9,
    // The index has fewer than 8 bytes, another mark, or a chunk count above 65,000.
    IndexMarkWrong = 10,
    // The index's directory is cut short, an entry of it is wrong, or the last end is not the index's.
    IndexEntryWrong = 11,
    // A fingerprint is twice in the index.
    IndexDuplicate = 12,
    // A body is not good.
    BodyNotGood = 13,
    // The recipes are under 4 bytes, have a file count above 65,535, are cut short, or have bytes left over.
    RecipesWrong = 14,
    // A fingerprint is not in the directory.
    NotFound = 15,
    // A file has more than 4,294,967,295 bytes.
    FileTooLong = 16,
    // A chunk neither first nor last in its file is shorter than the longest keyword's length minus 1.
    InnerChunkShort = 17,
    // The list is longer than the buffer.
    ListTooLong = 18,
    // A fingerprint is not 20 bytes.
    FingerprintLength = 19,
    // An entry of the store ends beyond 4,294,967,295 (request #105).
    StoreEntryBeyond = 20,
    // A query of another length than 2 to 8, or with a number that is no keyword's (request #109).
    QueryWrong = 21,
    // A key that is not 16 bytes, or names a client above 3 for a keyword of the list (request #110).
    KeyWrong = 22,
    // A client's count would pass 64 bits (request #110).
    CountTooLarge = 23,
    // A file number that is not below the file count (request #111).
    FileNumberWrong = 24,
}

impl Refusal {
    // Document 01's number.
    pub fn number(self) -> u8
        ensures { result ≡ number_of self }
    {
        self as u8
    }
}

// A scan that is done: the index's length, and the moves of the walk over the trie, summed over all chunks (request #103).
#[derive(Clone, Copy)]
pub struct ScanDone {
    pub size: usize,
    pub moves: u64,
}

// A search, which is a scan and then a join of the index that it wrote, that is done: the index's length, and the count of occurrences.
#[derive(Clone, Copy)]
pub struct SearchDone {
    pub size: usize,
    pub count: usize,
}

// Why a search is refused.
#[derive(Clone, Copy)]
pub enum SearchRefusal {
    // The scan is refused.
    Scan(Refusal),
    // The scan wrote an index of this length, and its join is refused.
    Join(usize, Refusal),
}

// What differs between the marks of an index, as far as the code reads it. specs/Form.antt says which form it is.
#[derive(Clone, Copy)]
pub struct Format {
    // The digit in the mark.
    pub number: u8,
    // Bytes of an offset inside a chunk, and of the exact count.
    pub width: usize,
    // The longest chunk.
    pub longest: usize,
    // Records have sets of inner starts.
    pub sets: bool,
}

// An index that passed its check: what its readers go by. specs/Opened.antt says which numbers they are.
#[derive(Clone, Copy)]
pub struct Opened {
    // Where the directory starts.
    pub directory: usize,
    // How many entries and keywords there are.
    pub entries: usize,
    pub keywords: usize,
    // The longest keyword's length.
    pub longest: usize,
    pub format: Format,
}

// The counts of four clients (request #110): how many occurrences of each one's keywords have been listed. A join adds to it.
// specs/Join.antt says what it adds.
#[derive(Clone, Copy, PartialEq, Eq)]
pub struct Tally {
    pub client0: u64,
    pub client1: u64,
    pub client2: u64,
    pub client3: u64,
}
