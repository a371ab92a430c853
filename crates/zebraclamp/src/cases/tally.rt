use crate::cases::answer::Answer;
use std::fmt;

// How many cases, commands and errors there were.
#[derive(Clone, Copy, Default)]
pub(crate) struct Tally {
    cases: u64,
    commands: u64,
    errors: u64,
}

impl Tally {
    pub(crate) fn error(&mut self) {
        self.errors = self.errors.saturating_add(1);
    }

    pub(crate) fn command(&mut self, answer: &Answer<'_>) {
        self.commands = self.commands.saturating_add(1);
        if let Answer::Case { .. } = answer {
            self.cases = self.cases.saturating_add(1);
        }
    }
}

impl fmt::Display for Tally {
    fn fmt<W: fmt::Write>(&self, f: &mut fmt::Formatter<W>) -> fmt::Result {
        let Tally {
            cases,
            commands,
            errors,
        } = *self;
        write!(f, "done cases {cases} commands {commands} errors {errors}")
    }
}
