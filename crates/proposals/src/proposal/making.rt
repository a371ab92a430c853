ghost use Rattle.std.specs.Prelude.{◌≡◌, MatchResult};
ghost use Rattle.terms.specs.Model.{model};
ghost use Rattle.proposals.specs.Laws.{DueForm};
ghost use Rattle.proposals.specs.Model.{lent, made_tables, proposal_of};

use crate::proposal::Proposal;
use crate::proposal::form::Inspection;
use facts::Facts;
use faults::Fault;
use terms::Program;

impl<'a, F: Facts> Proposal<'a, F> {
    // The proposal that these tables make if they are in due form for the program; else the first thing that is wrong with them.
    pub fn over(
        program: &Program,
        facts: &'a F,
        rows: &'a [u16],
        masks: &'a [u16],
    ) -> Result<Proposal<'a, F>, Fault>
        ensures verdict { made_tables F.members result ≡ proposal_of (model program.now) (lent (F.members facts.now) rows.now masks.now) }
        ensures exactly { MatchResult result (λ _. DueForm (model program.now) (lent (F.members facts.now) rows.now masks.now)) (λ _. DueForm (model program.now) (lent (F.members facts.now) rows.now masks.now) → ⊥) }
    {
        if rows.len() % 32 != 0 || rows.len() < 32 || rows.len() > 512 || masks.len() != 256 {
            return Err(Fault::MemoryLength);
        }
        let proposal = Proposal { facts, rows, masks };
        let inspection = Inspection {
            program,
            proposal: &proposal,
        };
        inspection.check_rows()?;
        inspection.check_masks()?;
        inspection.check_facts()?;
        Ok(proposal)
    }
}
