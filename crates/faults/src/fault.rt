// Why a call is refused or a row stops: one case for each reason, with the places that the rules name for it.
ghost use Rattle.std.specs.Prelude.{◌≡◌, Some, Decides};
ghost use Rattle.faults.specs.Places.{named};
ghost use Rattle.faults.specs.Refusals.{stated, text, same_fault, same_fault_equiv, SameDecides};
ghost use Rattle.std.specs.Cmp.{partial_equiv_from_equiv};

use crate::places::Places;
use std::fmt;

#[derive(Clone, Copy, Debug)]
pub enum Fault {
    // the script's author
    ProgramSizes,
    WrongTerm {
        label: u8,
    },
    WrongDefinitions,
    // the maker's analyser
    ListOrder {
        index: u16,
    },
    WrongRow {
        row: u8,
    },
    WrongMask {
        label: u8,
    },
    WrongFact {
        set: u16,
        fact: u16,
    },
    UnmetClause {
        definition: u8,
        label: u8,
        context: u8,
        part: u8,
    },
    // the host
    WrongMark {
        label: u8,
    },
    StoreLimit,
    RowUnderWay,
    NoRow,
    NotAnInput,
    MemoryLength,
    NoSuchVariable,
    StoreFull,
    StoreEmpty,
    // a row, which stops
    VoidVariable {
        label: u8,
    },
    NotAFunction {
        label: u8,
    },
    NotAPair {
        label: u8,
    },
    NotANumber {
        label: u8,
    },
    NoFrameLeft {
        label: u8,
    },
    NoPairLeft {
        label: u8,
    },
}

impl Fault {
    pub fn number(&self) -> u8
        ensures { result ≡ (stated self.now).number }
    {
        match self {
            Fault::ProgramSizes | Fault::WrongTerm { .. } | Fault::WrongDefinitions => 5,
            Fault::ListOrder { .. } => 9,
            Fault::WrongRow { .. } => 10,
            Fault::WrongMask { .. } => 11,
            Fault::WrongFact { .. } => 12,
            Fault::UnmetClause { .. } => 13,
            Fault::WrongMark { .. } => 20,
            Fault::StoreLimit => 21,
            Fault::RowUnderWay => 22,
            Fault::NoRow => 23,
            Fault::NotAnInput => 24,
            Fault::MemoryLength => 26,
            Fault::NoSuchVariable => 27,
            Fault::StoreFull => 28,
            Fault::StoreEmpty => 29,
            Fault::VoidVariable { .. } => 40,
            Fault::NotAFunction { .. } => 41,
            Fault::NotAPair { .. } => 42,
            Fault::NotANumber { .. } => 43,
            Fault::NoFrameLeft { .. } => 44,
            Fault::NoPairLeft { .. } => 45,
        }
    }

    pub fn name(&self) -> &'static str
        ensures { result.now ≡ (stated self.now).name }
    {
        match self {
            Fault::ProgramSizes => "program-sizes",
            Fault::WrongTerm { .. } => "wrong-term",
            Fault::WrongDefinitions => "wrong-definitions",
            Fault::ListOrder { .. } => "list-order",
            Fault::WrongRow { .. } => "wrong-row",
            Fault::WrongMask { .. } => "wrong-mask",
            Fault::WrongFact { .. } => "wrong-fact",
            Fault::UnmetClause { .. } => "unmet-clause",
            Fault::WrongMark { .. } => "wrong-mark",
            Fault::StoreLimit => "store-limit",
            Fault::RowUnderWay => "row-under-way",
            Fault::NoRow => "no-row",
            Fault::NotAnInput => "not-an-input",
            Fault::MemoryLength => "memory-length",
            Fault::NoSuchVariable => "no-such-variable",
            Fault::StoreFull => "store-full",
            Fault::StoreEmpty => "store-empty",
            Fault::VoidVariable { .. } => "void-variable",
            Fault::NotAFunction { .. } => "not-a-function",
            Fault::NotAPair { .. } => "not-a-pair",
            Fault::NotANumber { .. } => "not-a-number",
            Fault::NoFrameLeft { .. } => "no-frame-left",
            Fault::NoPairLeft { .. } => "no-pair-left",
        }
    }

    pub fn places(&self) -> Places
        ensures { named result ≡ (stated self.now).places }
    {
        match *self {
            Fault::ListOrder { index } => Places::Index(index),
            Fault::WrongRow { row } => Places::Row(row),
            Fault::WrongFact { set, fact } => Places::Fact { set, fact },
            Fault::UnmetClause {
                definition,
                label,
                context,
                part,
            } => Places::Clause {
                definition,
                label,
                context,
                part,
            },
            Fault::WrongTerm { label }
            | Fault::WrongMask { label }
            | Fault::WrongMark { label }
            | Fault::VoidVariable { label }
            | Fault::NotAFunction { label }
            | Fault::NotAPair { label }
            | Fault::NotANumber { label }
            | Fault::NoFrameLeft { label }
            | Fault::NoPairLeft { label } => Places::Label(label),
            Fault::ProgramSizes | Fault::WrongDefinitions => Places::Label(0),
            Fault::StoreLimit
            | Fault::RowUnderWay
            | Fault::NoRow
            | Fault::NotAnInput
            | Fault::MemoryLength
            | Fault::NoSuchVariable
            | Fault::StoreFull
            | Fault::StoreEmpty => Places::Nowhere,
        }
    }
}

// Written out: a derived `==` promises its own test alone, and not that it decides equality. No two cases share a name.
impl PartialEq for Fault {
    ghost eq = { same_fault };

    ghost laws = { partial_equiv_from_equiv same_fault_equiv };

    fn eq(&self, other: &Fault) -> bool
        ensures test { result ≡ same_fault self.now other.now }
        ensures equality { Decides result (self.now ≡ other.now) }
        ensures same { SameDecides }
    {
        self.name() == other.name() && self.places() == other.places()
    }
}

impl Eq for Fault {
    ghost laws = { same_fault_equiv };
}

impl fmt::Display for Fault {
    ghost output = { λ f. Some (text (stated f)) };

    fn fmt<W: fmt::Write>(&self, f: &mut fmt::Formatter<W>) -> fmt::Result {
        let number = self.number();
        let name = self.name();
        let places = self.places();
        write!(f, "{number} {name} {places}")
    }
}

#[cfg(test)]
mod tests {
    use super::*;
    use std::test::Fail;

    #[test]
    fn prints(rt: HostRuntime) -> Result<(), Fail> {
        let clause = Fault::UnmetClause {
            definition: 0,
            label: 2,
            context: 2,
            part: 6,
        };
        let text = format!(in rt.alloc(); "{clause}")?;
        assert_eq!(rt;
            text.as_str(),
            "13 unmet-clause definition 0 label 2 context 2 part 6"
        );
        let text = format!(in rt.alloc(); "{}", Fault::StoreLimit)?;
        assert_eq!(rt; text.as_str(), "21 store-limit place 0");
        Ok(())
    }
}
