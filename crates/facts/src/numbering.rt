ghost use Rattle.std.specs.Prelude.{◌≡◌};
ghost use Rattle.std.specs.Result.{result_ok};
ghost use Rattle.facts.specs.Numbering.{fact_number, set_number, FactsApart, SetsApart, FactNumbered, SetNumbered};

// The number stands for nothing.
#[derive(Clone, Copy, PartialEq, Eq, Debug)]
pub struct Unassigned;

// A symbol is below 32 and a context below 16. Past that the number is the same sum, and may be that of another.
#[derive(Clone, Copy)]
pub enum Fact {
    Symbol(u8),
    Number,
    // by its body
    Function(u8),
    // by the cons term that made it, and in which context
    Pair { cons: u8, context: u8 },
}

impl TryFrom<u16> for Fact {
    type Error = Unassigned;

    ghost try_from_gives = { λ number r. FactNumbered number (result_ok r) };

    fn try_from(number: u16) -> Result<Fact, Unassigned> {
        match number {
            0..=31 => Ok(Fact::Symbol(number as u8)),
            32 => Ok(Fact::Number),
            64..=319 => Ok(Fact::Function((number - 64) as u8)),
            512..=4607 => Ok(Fact::Pair {
                cons: ((number - 512) / 16) as u8,
                context: (number % 16) as u8,
            }),
            _ => Err(Unassigned),
        }
    }
}

impl From<Fact> for u16 {
    ghost from_gives = { λ fact number. (number ≡ fact_number fact) × FactsApart };

    fn from(fact: Fact) -> u16 {
        match fact {
            Fact::Symbol(symbol) => u16::from(symbol),
            Fact::Number => 32,
            Fact::Function(body) => 64 + u16::from(body),
            Fact::Pair { cons, context } => 512 + 16 * u16::from(cons) + u16::from(context),
        }
    }
}

#[derive(Clone, Copy)]
pub enum Set {
    // of a label in a context
    Flow { label: u8, context: u8 },
    // of a variable at the top level
    Top(u8),
    // of a binder
    Bound(u8),
}

impl TryFrom<u16> for Set {
    type Error = Unassigned;

    ghost try_from_gives = { λ number r. SetNumbered number (result_ok r) };

    fn try_from(number: u16) -> Result<Set, Unassigned> {
        match number {
            0..=4095 => Ok(Set::Flow {
                label: (number / 16) as u8,
                context: (number % 16) as u8,
            }),
            4096..=4351 => Ok(Set::Top((number - 4096) as u8)),
            4352..=4607 => Ok(Set::Bound((number - 4352) as u8)),
            _ => Err(Unassigned),
        }
    }
}

impl From<Set> for u16 {
    ghost from_gives = { λ set number. (number ≡ set_number set) × SetsApart };

    fn from(set: Set) -> u16 {
        match set {
            Set::Flow { label, context } => 16 * u16::from(label) + u16::from(context),
            Set::Top(variable) => 4096 + u16::from(variable),
            Set::Bound(binder) => 4352 + u16::from(binder),
        }
    }
}
