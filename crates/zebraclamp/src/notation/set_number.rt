use crate::lines::{Expected, Words, numeral_up_to};
use crate::notation::LAST;
use facts::{Set, Unassigned};
use std::fmt;

// The number of a set, printed with the set's name if it has one.
#[derive(Clone, Copy)]
pub(crate) struct SetNumber(pub(crate) u16);

impl SetNumber {
    // a number below 4608 or a name, which is one word
    pub(crate) fn read(words: &mut Words<'_>) -> Result<SetNumber, Expected> {
        let number = words.read(
            "a set, C(l,k), T(x), E(b) or a number below 4608",
            set_number,
        )?;
        Ok(SetNumber(number))
    }
}

fn set_number(word: &str) -> Option<u16> {
    numeral_up_to(word, LAST).or_else(|| named_set(word).map(u16::from))
}

fn named_set(word: &str) -> Option<Set> {
    let (kind, of) = word.strip_suffix(")")?.split_once('(')?;
    match kind {
        "C" => flow(of),
        "T" => numeral_up_to(of, 255).map(Set::Top),
        "E" => numeral_up_to(of, 255).map(Set::Bound),
        _ => None,
    }
}

fn flow(of: &str) -> Option<Set> {
    let (label, context) = of.split_once(',')?;
    let label = numeral_up_to(label, 255)?;
    let context = numeral_up_to(context, 15)?;
    Some(Set::Flow { label, context })
}

impl fmt::Display for SetNumber {
    fn fmt<W: fmt::Write>(&self, f: &mut fmt::Formatter<W>) -> fmt::Result {
        let SetNumber(set) = *self;
        match Set::try_from(set) {
            Ok(Set::Flow { label, context }) => write!(f, "{set} C({label},{context})"),
            Ok(Set::Top(variable)) => write!(f, "{set} T({variable})"),
            Ok(Set::Bound(binder)) => write!(f, "{set} E({binder})"),
            Err(Unassigned) => write!(f, "{set}"),
        }
    }
}
