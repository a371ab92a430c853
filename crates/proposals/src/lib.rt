#![tactic(auto)]

mod proposal;

pub use proposal::Proposal;
