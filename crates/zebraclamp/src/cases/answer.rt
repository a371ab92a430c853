use crate::drafts::Entered;
use crate::entries::TableKind;
use crate::findings::Findings;
use crate::inquiries::{Listing, StoreKind};
use crate::scripts::Said;
use crate::verdicts::Verdict;
use std::fmt;

// What came of a command: the line that is printed for it.
#[derive(Drop)]
pub(crate) enum Answer<'a> {
    Case { name: &'a str },
    Said(Said),
    Owners(Findings<StoreKind, Listing>),
    Entered(Entered),
    Verdict(Verdict),
}

impl fmt::Display for Answer<'_> {
    fn fmt<W: fmt::Write>(&self, f: &mut fmt::Formatter<W>) -> fmt::Result {
        match self {
            Answer::Case { name } => write!(f, "case {name}"),
            Answer::Said(said) => write!(f, "{said}"),
            Answer::Owners(findings) => write!(f, "owners {findings}"),
            Answer::Entered(entered) => write!(f, "{entered}"),
            Answer::Verdict(verdict) => write!(f, "{verdict}"),
        }
    }
}
