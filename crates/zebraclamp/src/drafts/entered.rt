use crate::entries::Tables;
use crate::notation::{FactNumber, SetNumber};
use std::fmt;

// What came of an entry.
#[derive(Clone, Copy)]
pub(crate) enum Entered {
    Row { number: usize, row: [u16; 32] },
    Mask { label: u8, bits: u16 },
    Listed { label: u8, bits: u16 },
    Fact { set: SetNumber, fact: FactNumber },
    // how many numbers there are now beside the facts
    Numbers { total: usize },
    Table(Tables),
}

impl fmt::Display for Entered {
    fn fmt<W: fmt::Write>(&self, f: &mut fmt::Formatter<W>) -> fmt::Result {
        match self {
            Entered::Row { number, row } => write!(f, "row {number}{}", Row(row)),
            Entered::Mask { label, bits } => write!(f, "mask {label} {bits}"),
            Entered::Listed { label, bits } => write!(f, "listed {label}{}", Contexts(*bits)),
            Entered::Fact { set, fact } => write!(f, "fact set {set} fact {fact}"),
            Entered::Numbers { total } => write!(f, "numbers {total}"),
            Entered::Table(tables) => write!(f, "table {tables}"),
        }
    }
}

// the entries that are not 0
#[derive(Clone, Copy)]
struct Row<'a>(&'a [u16]);

impl fmt::Display for Row<'_> {
    fn fmt<W: fmt::Write>(&self, f: &mut fmt::Formatter<W>) -> fmt::Result {
        for (variable, birthplace) in self.0.iter().enumerate() {
            if *birthplace != 0 {
                write!(f, " {variable}={birthplace}")?;
            }
        }
        Ok(())
    }
}

// the contexts whose bits are set
#[derive(Clone, Copy)]
struct Contexts(u16);

impl fmt::Display for Contexts {
    fn fmt<W: fmt::Write>(&self, f: &mut fmt::Formatter<W>) -> fmt::Result {
        let Contexts(bits) = *self;
        for context in (0..16u8).filter(|context| (bits >> *context) & 1 == 1) {
            write!(f, " {context}")?;
        }
        Ok(())
    }
}
