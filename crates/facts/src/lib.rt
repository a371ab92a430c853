#![tactic(auto)]

mod lists;
mod members;
mod numbering;
mod table;
mod words;

pub use lists::ListTable;
pub use members::Members;
pub use numbering::{Fact, Set, Unassigned};
pub use table::{Facts, SETS, member_number, within};
pub use words::{WORDS, WordTable};
