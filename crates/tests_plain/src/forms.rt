// The marks of an index, by their digits: 44 4D 31 0A, with fields of 2 bytes; 44 4D 32 0A, with fields of 3; 44 4D 33 0A, with sets of inner
// starts as well.
pub const OLD: usize = 1;

pub const SETS: usize = 3;

// The newest mark that is read, which is the one that a scan writes.
pub const NEW: usize = 3;
