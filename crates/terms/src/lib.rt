#![tactic(auto)]

mod program;
mod raw;
mod reading;
mod table;
mod term;

pub use program::Program;
pub use raw::{RawDefinition, RawTerm};
pub use term::{Definition, Term, WrongForm};
