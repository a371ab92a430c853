ghost use Rattle.std.specs.Prelude.{◌≡◌, ◌≤◌, ◌-◌, is_some, Decides, length, slice_get};

use crate::lines::{Expected, Words, numeral};
use std::fmt;
use terms::RawDefinition;

// the kinds of terms by their numbers, from 1
const TERMS: [&str; 13] = [
    "number", "quote", "lambda", "variable", "setq", "let", "if", "apply", "cons", "car", "cdr",
    "add", "same",
];

// the kinds of definitions by their numbers, from 1
const DEFINITIONS: [&str; 3] = ["input", "defvar", "defun"];

// A kind as it is printed: by its name, or by its number if it has none. It is no enum: a row that is handed in has any number, right or wrong.
#[derive(Clone, Copy)]
pub(crate) struct Kind {
    name: Option<&'static str>,
    number: u32,
}

impl Kind {
    pub(crate) fn of_term(number: u32) -> Kind
        ensures known { Decides (is_some result.name) ((1 ≤ number) × (number ≤ 13)) }
        ensures number { result.number ≡ number }
    {
        Kind::of(&TERMS, number)
    }

    pub(crate) fn of_definition(number: u32) -> Kind
        ensures known { Decides (is_some result.name) ((1 ≤ number) × (number ≤ 3)) }
        ensures number { result.number ≡ number }
    {
        Kind::of(&DEFINITIONS, number)
    }

    fn of(names: &[&'static str], number: u32) -> Kind
        ensures known { Decides (is_some result.name) ((1 ≤ number) × (number ≤ length names.now)) }
        ensures named { 1 ≤ number → result.name ≡ slice_get names.now (number - 1) }
        ensures number { result.number ≡ number }
    {
        let before = number.checked_sub(1);
        let name = before.and_then(|before| names.get(before as usize).copied());
        Kind { name, number }
    }
}

impl fmt::Display for Kind {
    fn fmt<W: fmt::Write>(&self, f: &mut fmt::Formatter<W>) -> fmt::Result {
        match self.name {
            Some(name) => f.write_str(name),
            None => write!(f, "{}", self.number),
        }
    }
}

// The kind of term that a word names; any number names itself.
pub(crate) fn term_kind(word: &str) -> Option<u32> {
    (1..)
        .zip(TERMS)
        .find(|(_, name)| *name == word)
        .map(|(number, _)| number)
        .or_else(|| numeral(word))
}

// What follows a definition's kind.
#[derive(Clone, Copy)]
pub(crate) enum Form {
    // X
    Input,
    // X ROOT
    Defvar,
    // X Y ROOT. The kind is no enum, as at `Kind`: any number can be handed in, right or wrong.
    Whole { kind: u32 },
}

impl Form {
    pub(crate) fn read_rest(self, words: &mut Words<'_>) -> Result<RawDefinition, Expected> {
        let (kind, [x, y, root]) = match self {
            Form::Input => {
                let [x] = words.numbers_or_zero::<1>()?;
                (1, [x, 0, 0])
            }
            Form::Defvar => {
                let [x, root] = words.numbers_or_zero::<2>()?;
                (2, [x, 0, root])
            }
            Form::Whole { kind } => (kind, words.numbers_or_zero()?),
        };
        Ok(RawDefinition { kind, x, y, root })
    }
}

// by the kind's name; any number is followed by all three
pub(crate) fn definition_form(word: &str) -> Option<Form> {
    match word {
        "input" => Some(Form::Input),
        "defvar" => Some(Form::Defvar),
        "defun" => Some(Form::Whole { kind: 3 }),
        _ => Some(Form::Whole {
            kind: numeral(word)?,
        }),
    }
}
