ghost use Rattle.std.specs.Prelude.{◌≡◌, ◌↔◌, IfOk, IfErr, IsErrOf, IsSome, None};
ghost use Rattle.zebraclamp.specs.declared.cases.failure.Failure.{Failure};
ghost use Rattle.zebraclamp.specs.declared.lines.mistake.Mistake.{Mistake};

use crate::cases::answer::Answer;
use crate::cases::command::Command;
use crate::cases::failure::Failure;
use crate::drafts::Draft;
use crate::findings::Findings;
use crate::inquiries::{Inquiry, Listing, StoreKind, find};
use crate::lines::{Mistake, Words};
use crate::scripts::Script;
use crate::verdicts::judge;
use std::alloc::Global;

// What has been said in one case.
#[derive(Drop)]
pub(crate) struct Case {
    heap: Global,
    script: Script,
    draft: Draft,
}

impl Case {
    pub(crate) fn new(heap: Global) -> Case {
        Case {
            heap,
            script: Script::new(heap),
            draft: Draft::new(heap),
        }
    }

    // carries out the command of this name, whose other words are these
    pub(crate) fn obey<'a>(
        &mut self,
        name: &'a str,
        words: &mut Words<'a>,
    ) -> Result<Answer<'a>, Failure<'a>> {
        let command = Command::read(name, words)?;
        self.carry_out(command)
    }

    fn carry_out(&mut self, command: Command) -> Result<Answer<'static>, Failure<'static>> {
        match command {
            Command::Say(saying) => Ok(Answer::Said(self.script.carry_out(saying)?)),
            Command::Owners(inquiry) => Ok(Answer::Owners(self.owners(inquiry)?)),
            Command::Enter(entry) => Ok(Answer::Entered(self.draft.carry_out(entry)?)),
            Command::Ask(question) => {
                let program = self.script.made().ok_or(Mistake::NoProgram)?;
                Ok(Answer::Verdict(judge(program, &self.draft, question)?))
            }
        }
    }

    fn owners(&self, inquiry: Inquiry) -> Result<Findings<StoreKind, Listing>, Failure<'static>>
        ensures found { IfOk result (λ _. IsSome self.now.script.program) }
        ensures none { IsErrOf result (Failure.Mistake Mistake.NoProgram) ↔ (self.now.script.program ≡ None) }
        ensures fails { IfErr result (λ failure. IsSome self.now.script.program → (error : _) × (failure ≡ Failure.NoMemory error)) }
    {
        let program = self.script.made().ok_or(Mistake::NoProgram)?;
        Ok(find(self.heap, program, inquiry)?)
    }
}
