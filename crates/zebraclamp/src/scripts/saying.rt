use crate::lines::{Expected, Words};
use crate::scripts::kinds::{Form, definition_form, term_kind};
use terms::{RawDefinition, RawTerm};

// A command that says what a program is, or has it made.
#[derive(Clone, Copy)]
pub(crate) enum Saying {
    Symbols(u32),
    Term(RawTerm),
    Definition(RawDefinition),
    Program,
}

// Each of these reads what stands behind a command's name.
impl Saying {
    pub(crate) fn read_symbols(words: &mut Words<'_>) -> Result<Saying, Expected> {
        Ok(Saying::Symbols(words.number()?))
    }

    // KIND A B C
    pub(crate) fn read_term(words: &mut Words<'_>) -> Result<Saying, Expected> {
        let kind = words.read("a kind of term", term_kind)?;
        let [a, b, c] = words.numbers_or_zero::<3>()?;
        Ok(Saying::Term(RawTerm { kind, a, b, c }))
    }

    // input X, defvar X ROOT, defun X Y ROOT, or KIND X Y ROOT in numbers
    pub(crate) fn read_definition(words: &mut Words<'_>) -> Result<Saying, Expected> {
        let form = words.read("a kind of definition", definition_form)?;
        Ok(Saying::Definition(form.read_rest(words)?))
    }
}
