#![tactic(auto)]

mod binding;
mod cells;
mod lent;
mod shadow;
mod stack;
mod store;
mod variable;

pub use binding::Binding;
pub use cells::Cells;
pub use shadow::shadowed;
pub use stack::Stack;
pub use store::Store;
pub use variable::check_variable;
