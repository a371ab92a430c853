#![tactic(auto)]

mod call;
mod frame;
mod turn;
mod value;

pub use call::{Answer, Call, Report};
pub use frame::Frame;
pub use turn::{Next, Turn};
pub use value::{ConsCell, Value};
