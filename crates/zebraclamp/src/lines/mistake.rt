use std::fmt;

// Why a line is not carried out.
#[derive(Clone, Copy)]
pub(crate) enum Mistake<'a> {
    // what should stand after the word `after`, or at the line's start if there is none, and what does
    Expected {
        what: &'static str,
        after: Option<&'a str>,
        found: Option<&'a str>,
    },
    // a command that speaks of the case's program comes before it is made
    NoProgram,
    // the line's bytes are no text
    Garbled,
    // the source gives no more lines, and has not ended
    Unreadable,
}

impl fmt::Display for Mistake<'_> {
    fn fmt<W: fmt::Write>(&self, f: &mut fmt::Formatter<W>) -> fmt::Result {
        match *self {
            Mistake::Expected { what, after, found } => {
                write!(f, "expected {what}")?;
                if let Some(after) = after {
                    write!(f, " after '{after}'")?;
                }
                match found {
                    Some(word) => write!(f, ", found '{word}'"),
                    None => f.write_str(", found the end of the line"),
                }
            }
            Mistake::NoProgram => f.write_str("expected a program made before, found none"),
            Mistake::Garbled => f.write_str("expected text, found bytes that are not UTF-8"),
            Mistake::Unreadable => f.write_str("expected a line, found what cannot be read"),
        }
    }
}
