#![tactic(auto)]

mod fault;
mod places;

pub use fault::Fault;
pub use places::Places;
