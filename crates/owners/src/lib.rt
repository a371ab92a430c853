#![tactic(auto)]

mod owner;
mod scope;
mod walk;

pub use walk::find_owners;
