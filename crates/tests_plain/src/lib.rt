// What the tests hold the library to, computed plainly from document 01 and apart from the library: match records, the direct search of
// restored files, the join of any records, refusals, the search program's text. Test support: proved safe and ending, with contracts only
// where a proof needs one.
#![tactic(auto)]

pub mod bytes;
pub mod case;
pub mod codes;
pub mod forms;
pub mod joins;
pub mod lists;
pub mod model;
pub mod printout;
pub mod records;
pub mod text;
