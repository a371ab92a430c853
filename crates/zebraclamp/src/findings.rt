// What is found over one of two things of a kind, or over both.
mod finding;
mod sides;

pub(crate) use crate::findings::finding::{Finding, Findings};
pub(crate) use crate::findings::sides::Sides;
