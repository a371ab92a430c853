use faults::Fault;
use std::fmt;
use std::fmt::Display;

// What was found, or why it was refused.
#[derive(Drop, PartialEq, Eq)]
pub(crate) struct Finding<X>(pub(crate) Result<X, Fault>);

// What was found over one side, or alike over both; or over each, by its name.
#[derive(Drop)]
pub(crate) enum Findings<S, X> {
    Agreed(Finding<X>),
    Differ((S, Finding<X>), (S, Finding<X>)),
}

impl<X: Display> fmt::Display for Finding<X> {
    fn fmt<W: fmt::Write>(&self, f: &mut fmt::Formatter<W>) -> fmt::Result {
        match &self.0 {
            Ok(x) => write!(f, "{x}"),
            Err(fault) => write!(f, "refused {fault}"),
        }
    }
}

impl<S: Display, X: Display> fmt::Display for Findings<S, X> {
    fn fmt<W: fmt::Write>(&self, f: &mut fmt::Formatter<W>) -> fmt::Result {
        match self {
            Findings::Agreed(finding) => write!(f, "{finding}"),
            Findings::Differ((one, finding), (other, second)) => {
                write!(f, "differ: {one} {finding}; {other} {second}")
            }
        }
    }
}
