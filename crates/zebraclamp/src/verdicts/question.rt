use crate::lines::{Expected, Words};
use facts::WORDS;
use std::fmt;

// What is asked of the proposal that the draft makes.
#[derive(Clone, Copy)]
pub(crate) enum Question {
    // whether it is in due form
    DueForm(Lengths),
    // which row is row `context` with `birthplace` at `variable`
    Extension {
        context: u8,
        variable: u8,
        birthplace: u8,
    },
}

// How many numbers are handed over; of the rows, as many as were said if nothing else is.
#[derive(Clone, Copy)]
pub(crate) struct Lengths {
    pub(crate) rows: Option<usize>,
    pub(crate) masks: usize,
    pub(crate) words: usize,
}

const WHOLE: Lengths = Lengths {
    rows: None,
    masks: 256,
    words: WORDS,
};

impl Question {
    // [rows N] [masks N] [words N]
    pub(crate) fn read_due_form(words: &mut Words<'_>) -> Result<Question, Expected> {
        let rows = read_length("rows", words)?;
        let masks = read_length("masks", words)?.unwrap_or(WHOLE.masks);
        let words = read_length("words", words)?.unwrap_or(WHOLE.words);
        Ok(Question::DueForm(Lengths { rows, masks, words }))
    }

    // CONTEXT VARIABLE BIRTHPLACE
    pub(crate) fn read_extension(words: &mut Words<'_>) -> Result<Question, Expected> {
        let context = words.byte()?;
        let variable = words.byte()?;
        let birthplace = words.byte()?;
        Ok(Question::Extension {
            context,
            variable,
            birthplace,
        })
    }

    pub(crate) fn lengths(&self) -> Lengths {
        match *self {
            Question::DueForm(lengths) => lengths,
            Question::Extension { .. } => WHOLE,
        }
    }
}

fn read_length(name: &str, words: &mut Words<'_>) -> Result<Option<usize>, Expected> {
    if !words.accept(name) {
        return Ok(None);
    }
    let length = words.number_up_to(1000000, "a number from 0 to 1000000")?;
    Ok(Some(length))
}

// how the line that answers begins
impl fmt::Display for Question {
    fn fmt<W: fmt::Write>(&self, f: &mut fmt::Formatter<W>) -> fmt::Result {
        match *self {
            Question::DueForm(_) => f.write_str("proposal"),
            Question::Extension {
                context,
                variable,
                birthplace,
            } => write!(f, "extension {context} {variable} {birthplace}"),
        }
    }
}
