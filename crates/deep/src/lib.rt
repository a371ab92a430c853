#![tactic(auto)]

mod deep;

pub use deep::Deep;
