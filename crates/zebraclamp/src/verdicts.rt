mod question;
mod ruling;
mod verdict;

pub(crate) use crate::verdicts::question::Question;
pub(crate) use crate::verdicts::verdict::{Verdict, judge};
