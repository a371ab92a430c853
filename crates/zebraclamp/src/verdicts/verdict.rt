use crate::drafts::Draft;
use crate::entries::TableKind;
use crate::findings::{Finding, Findings};
use crate::verdicts::question::Question;
use crate::verdicts::ruling::Ruling;
use facts::{Facts, ListTable, WordTable};
use faults::Fault;
use proposals::Proposal;
use std::alloc::AllocError;
use std::fmt;
use terms::Program;

// What was found over one fact table or over both.
#[derive(Drop)]
pub(crate) struct Verdict {
    question: Question,
    findings: Findings<TableKind, Ruling>,
}

// A question, the program, and the draft with its rows and masks as they are handed over.
#[derive(Clone, Copy)]
struct Inquest<'a> {
    question: Question,
    program: &'a Program,
    draft: &'a Draft,
    rows: &'a [u16],
    masks: &'a [u16],
}

pub(crate) fn judge(
    program: &Program,
    draft: &Draft,
    question: Question,
) -> Result<Verdict, AllocError> {
    let lengths = question.lengths();
    let rows = draft.rows(lengths.rows)?;
    let masks = draft.masks(lengths.masks)?;
    let inquest = Inquest {
        question,
        program,
        draft,
        rows: rows.as_slice(),
        masks: masks.as_slice(),
    };
    let findings = draft.tables().0.find(|kind| inquest.over(kind))?;
    Ok(Verdict { question, findings })
}

impl Inquest<'_> {
    fn over(&self, kind: TableKind) -> Result<Finding<Ruling>, AllocError> {
        match kind {
            TableKind::Word => {
                let words = self.draft.words(self.question.lengths().words)?;
                Ok(Finding(self.rule(WordTable::over(words.as_slice()))))
            }
            TableKind::List => {
                let list = self.draft.list()?;
                Ok(Finding(self.rule(ListTable::over(list.as_slice()))))
            }
        }
    }

    fn rule<F: Facts + Drop>(&self, table: Result<F, Fault>) -> Result<Ruling, Fault> {
        let facts = table?;
        let proposal = Proposal::over(self.program, &facts, self.rows, self.masks)?;
        Ok(Ruling::on(self.question, &proposal, &facts))
    }
}

impl fmt::Display for Verdict {
    fn fmt<W: fmt::Write>(&self, f: &mut fmt::Formatter<W>) -> fmt::Result {
        let Verdict { question, findings } = self;
        write!(f, "{question} {findings}")
    }
}
