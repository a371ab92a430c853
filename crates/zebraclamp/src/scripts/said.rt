use crate::scripts::kinds::Kind;
use crate::scripts::script::Sizes;
use faults::Fault;
use std::fmt;
use terms::{RawDefinition, RawTerm};

// What came of a saying.
#[derive(Clone, Copy)]
pub(crate) enum Said {
    Symbols(u32),
    Term {
        label: usize,
        term: RawTerm,
    },
    Definition {
        number: usize,
        definition: RawDefinition,
    },
    Program(Result<Sizes, Fault>),
}

impl fmt::Display for Said {
    fn fmt<W: fmt::Write>(&self, f: &mut fmt::Formatter<W>) -> fmt::Result {
        match *self {
            Said::Symbols(count) => write!(f, "symbols {count}"),
            Said::Term { label, term } => {
                let kind = Kind::of_term(term.kind);
                let RawTerm { a, b, c, .. } = term;
                write!(f, "term {label} {kind} {a} {b} {c}")
            }
            Said::Definition { number, definition } => {
                let kind = Kind::of_definition(definition.kind);
                let RawDefinition { x, y, root, .. } = definition;
                write!(f, "definition {number} {kind} {x} {y} {root}")
            }
            Said::Program(Ok(sizes)) => write!(f, "program made {sizes}"),
            Said::Program(Err(fault)) => write!(f, "program refused {fault}"),
        }
    }
}
