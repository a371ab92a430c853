use crate::entries::Entry;
use crate::inquiries::Inquiry;
use crate::lines::{Mistake, Words};
use crate::scripts::Saying;
use crate::verdicts::Question;

// A command within a case.
#[derive(Clone, Copy)]
pub(crate) enum Command {
    Say(Saying),
    Owners(Inquiry),
    Enter(Entry),
    Ask(Question),
}

impl Command {
    // the command of this name, whose other words are these
    pub(crate) fn read<'a>(name: &'a str, words: &mut Words<'a>) -> Result<Command, Mistake<'a>> {
        let command = match name {
            "symbols" => Saying::read_symbols(words).map(Command::Say),
            "term" => Saying::read_term(words).map(Command::Say),
            "definition" => Saying::read_definition(words).map(Command::Say),
            "program" => Ok(Command::Say(Saying::Program)),
            "owners" => Inquiry::read(words).map(Command::Owners),
            "row" => Entry::read_row(words).map(Command::Enter),
            "mask" => Entry::read_mask(words).map(Command::Enter),
            "listed" => Entry::read_listed(words).map(Command::Enter),
            "fact" => Entry::read_fact(words).map(Command::Enter),
            "numbers" => Entry::read_numbers(words).map(Command::Enter),
            "table" => Entry::read_table(words).map(Command::Enter),
            "proposal" => Question::read_due_form(words).map(Command::Ask),
            "extension" => Question::read_extension(words).map(Command::Ask),
            _ => {
                return Err(Mistake::Expected {
                    what: "a command",
                    after: None,
                    found: Some(name),
                });
            }
        };
        command
            .and_then(|command| words.end().and(Ok(command)))
            .map_err(|expected| words.mistake(expected))
    }
}
