use crate::lines::{Expected, Words};
use crate::notation::LAST;
use facts::{Fact, Unassigned};
use std::fmt;

// The number of a fact, printed with the fact's name if it has one.
#[derive(Clone, Copy)]
pub(crate) struct FactNumber(pub(crate) u16);

impl FactNumber {
    // a number below 4608 or a name, which is one word or more
    pub(crate) fn read(words: &mut Words<'_>) -> Result<FactNumber, Expected> {
        let number = match named_fact(words)? {
            Some(fact) => u16::from(fact),
            None => words.number_up_to(
                LAST,
                "a fact, number, symbol S, function G, pair C K or a number below 4608",
            )?,
        };
        Ok(FactNumber(number))
    }
}

fn named_fact(words: &mut Words<'_>) -> Result<Option<Fact>, Expected> {
    if words.accept("number") {
        Ok(Some(Fact::Number))
    } else if words.accept("symbol") {
        let symbol = words.number_up_to(31, "a symbol from 0 to 31")?;
        Ok(Some(Fact::Symbol(symbol)))
    } else if words.accept("function") {
        let body = words.byte()?;
        Ok(Some(Fact::Function(body)))
    } else if words.accept("pair") {
        let cons = words.byte()?;
        let context = words.context()?;
        Ok(Some(Fact::Pair { cons, context }))
    } else {
        Ok(None)
    }
}

impl fmt::Display for FactNumber {
    fn fmt<W: fmt::Write>(&self, f: &mut fmt::Formatter<W>) -> fmt::Result {
        let FactNumber(fact) = *self;
        match Fact::try_from(fact) {
            Ok(Fact::Symbol(symbol)) => write!(f, "{fact} symbol {symbol}"),
            Ok(Fact::Number) => write!(f, "{fact} number"),
            Ok(Fact::Function(body)) => write!(f, "{fact} function {body}"),
            Ok(Fact::Pair { cons, context }) => write!(f, "{fact} pair {cons} {context}"),
            Err(Unassigned) => write!(f, "{fact}"),
        }
    }
}
