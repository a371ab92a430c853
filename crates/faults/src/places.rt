// The places that the rules name for a fault.
ghost use Rattle.faults.specs.Places.{named, listed};
ghost use Rattle.std.specs.Prelude.{Some};

use std::fmt;

#[derive(Clone, Copy, PartialEq, Eq, Debug)]
pub enum Places {
    // the rules name none
    Nowhere,
    Index(u16),
    Row(u8),
    Label(u8),
    Fact {
        set: u16,
        fact: u16,
    },
    Clause {
        definition: u8,
        label: u8,
        context: u8,
        part: u8,
    },
}

impl fmt::Display for Places {
    ghost output = { λ p. Some (listed (named p)) };

    fn fmt<W: fmt::Write>(&self, f: &mut fmt::Formatter<W>) -> fmt::Result {
        match *self {
            Places::Nowhere => write!(f, "place 0"),
            Places::Index(index) => write!(f, "index {index}"),
            Places::Row(row) => write!(f, "row {row}"),
            Places::Label(label) => write!(f, "label {label}"),
            Places::Fact { set, fact } => write!(f, "set {set} fact {fact}"),
            Places::Clause {
                definition,
                label,
                context,
                part,
            } => write!(
                f,
                "definition {definition} label {label} context {context} part {part}"
            ),
        }
    }
}
