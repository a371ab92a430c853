mod mistake;
mod numerals;
mod words;

pub(crate) use crate::lines::mistake::Mistake;
pub(crate) use crate::lines::numerals::{numeral, numeral_up_to};
pub(crate) use crate::lines::words::{Expected, Words};
