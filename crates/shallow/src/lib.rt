#![tactic(auto)]

mod saved;
mod shallow;

pub use saved::Saved;
pub use shallow::Shallow;
