use crate::verdicts::question::Question;
use facts::{Facts, Members, SETS};
use proposals::Proposal;
use std::fmt;

// What is answered of a proposal in due form.
#[derive(Clone, Copy, PartialEq, Eq)]
pub(crate) enum Ruling {
    Due {
        contexts: u8,
        listed: usize,
        facts: usize,
    },
    // the row that a row is extended to, if there is one
    Extension(Option<u8>),
}

impl Ruling {
    pub(crate) fn on<F: Facts>(
        question: Question,
        proposal: &Proposal<'_, F>,
        facts: &F,
    ) -> Ruling {
        match question {
            Question::DueForm(_) => Ruling::Due {
                contexts: proposal.contexts(),
                listed: count_listed(proposal),
                facts: count_facts(facts),
            },
            Question::Extension {
                context,
                variable,
                birthplace,
            } => Ruling::Extension(proposal.extension(context, variable, birthplace)),
        }
    }
}

// Folded by saturating steps, here and in `count_facts`: for `sum`, and for `flat_map` and `count`, the proof did not close; a `for` with `+=` needs a bound of each count and an invariant, and is longer.
fn count_listed<F: Facts>(proposal: &Proposal<'_, F>) -> usize {
    (0..=255u8)
        .map(|label| count_contexts(proposal, label))
        .fold(0, usize::saturating_add)
}

fn count_contexts<F: Facts>(proposal: &Proposal<'_, F>, label: u8) -> usize {
    (0..16u8)
        .filter(|context| proposal.listed(label, *context))
        .count()
}

fn count_facts<F: Facts>(facts: &F) -> usize {
    (0..SETS)
        .map(|set| Members::of(facts, set).count())
        .fold(0, usize::saturating_add)
}

impl fmt::Display for Ruling {
    fn fmt<W: fmt::Write>(&self, f: &mut fmt::Formatter<W>) -> fmt::Result {
        match *self {
            Ruling::Due {
                contexts,
                listed,
                facts,
            } => write!(f, "due contexts {contexts} listed {listed} facts {facts}"),
            Ruling::Extension(Some(row)) => write!(f, "row {row}"),
            Ruling::Extension(None) => f.write_str("none"),
        }
    }
}
