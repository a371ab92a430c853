// Sets and facts by their numbers or names: C(l,k), T(x), E(b); number, symbol S, function G, pair C K.
mod fact_number;
mod set_number;

pub(crate) use crate::notation::fact_number::FactNumber;
pub(crate) use crate::notation::set_number::SetNumber;
use facts::SETS;

// the last number of a set, and of a fact; by `as`, since a constant's value calls no function
const LAST: u32 = SETS as u32 - 1;
