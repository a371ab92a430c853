ghost use Rattle.std.specs.Prelude.{◌≡◌, is_some};
ghost use Rattle.terms.specs.Model.{model};
ghost use Rattle.terms.specs.Script.{term, cons_operands};
ghost use Rattle.proposals.specs.Tables.{same_rows};
ghost use Rattle.proposals.specs.DueForm.{zero_row, entry_right, entries_right, new_row, row_right, may_list, mask_right, fact_right, names, wrong_fact, rows_verdict, masks_verdict, facts_verdict};
ghost use Rattle.proposals.specs.Model.{tables, script, inspected};

use crate::proposal::Proposal;
use facts::{Fact, Facts, Members, SETS};
use faults::Fault;
use terms::Program;

fn is_cons(program: &Program, label: u8) -> bool
    ensures { result ≡ is_some (cons_operands (term (model program.now) label)) }
{
    program
        .term(label)
        .is_some_and(|term| term.cons_operands().is_some())
}

impl<'a, F: Facts> Proposal<'a, F> {
    fn is_zero(&self, row: u8) -> bool
        ensures { result ≡ zero_row (tables F.members self.now) row }
    {
        (0..32).all(|variable| self.entry(row, variable) == 0)
    }

    // whether no earlier row is equal
    fn is_new(&self, row: u8) -> bool
        ensures { result ≡ new_row (tables F.members self.now) row }
    {
        (0..row).all(|earlier| !self.same_rows(earlier, row))
    }

    fn same_rows(&self, one: u8, other: u8) -> bool
        ensures { result ≡ same_rows (tables F.members self.now) one other }
    {
        (0..32).all(|variable| self.entry(one, variable) == self.entry(other, variable))
    }
}

// A proposal, and the program that it is held against.
#[derive(Drop)]
pub(crate) struct Inspection<'a, 'b, F> {
    pub(crate) program: &'a Program,
    pub(crate) proposal: &'a Proposal<'b, F>,
}

impl<'a, 'b, F: Facts> Inspection<'a, 'b, F> {
    // Three checks with a loop each: one function over them, with what to try and which fault to make, would be no shorter.
    pub(crate) fn check_rows(&self) -> Result<(), Fault>
        ensures { result ≡ rows_verdict (script self.now) (inspected F.members self.now) }
    {
        for row in 0..self.proposal.contexts() {
            if !self.row_right(row) {
                return Err(Fault::WrongRow { row });
            }
        }
        Ok(())
    }

    pub(crate) fn check_masks(&self) -> Result<(), Fault>
        ensures { result ≡ masks_verdict (script self.now) (inspected F.members self.now) }
    {
        for label in 0..=255 {
            if !self.mask_right(label) {
                return Err(Fault::WrongMask { label });
            }
        }
        Ok(())
    }

    pub(crate) fn check_facts(&self) -> Result<(), Fault>
        ensures { result ≡ facts_verdict (script self.now) (inspected F.members self.now) }
    {
        for set in 0..SETS {
            if let Some(fact) = self.wrong_fact(set) {
                return Err(Fault::WrongFact { set, fact });
            }
        }
        Ok(())
    }

    fn row_right(&self, row: u8) -> bool
        ensures { result ≡ row_right (script self.now) (inspected F.members self.now) row }
    {
        (row > 0 || self.proposal.is_zero(row))
            && self.entries_right(row)
            && self.proposal.is_new(row)
    }

    fn entries_right(&self, row: u8) -> bool
        ensures { result ≡ entries_right (script self.now) (inspected F.members self.now) row }
    {
        (0..32).all(|variable| self.entry_right(row, variable))
    }

    // whether the entry is 0 or a binder of the variable
    fn entry_right(&self, row: u8, variable: u8) -> bool
        ensures { result ≡ entry_right (script self.now) (inspected F.members self.now) row variable }
    {
        let birthplace = self.proposal.entry(row, variable);
        birthplace == 0
            || u8::try_from(birthplace).is_ok_and(|label| self.program.binder(label)
                == Some(variable))
    }

    fn mask_right(&self, label: u8) -> bool
        ensures { result ≡ mask_right (script self.now) (inspected F.members self.now) label }
    {
        (0..16).all(|context| !self.proposal.listed(label, context)
            || self.may_list(label, context))
    }

    fn may_list(&self, label: u8, context: u8) -> bool
        ensures { result ≡ may_list (script self.now) (inspected F.members self.now) label context }
    {
        (1..=self.program.last()).contains(&label) && context < self.proposal.contexts()
    }

    // the first fact of the set that is not right
    fn wrong_fact(&self, set: u16) -> Option<u16>
        ensures { result ≡ wrong_fact (script self.now) (inspected F.members self.now) set }
    {
        Members::of(self.proposal.facts, set).find(|fact| !self.fact_right(*fact))
    }

    fn fact_right(&self, number: u16) -> bool
        ensures { result ≡ fact_right (script self.now) (inspected F.members self.now) number }
    {
        // `is_ok_and` was tried, as was `map`: the proof learns nothing of what the closure returns, even by a clause on it.
        match Fact::try_from(number) {
            Ok(fact) => self.names(fact),
            Err(_) => false,
        }
    }

    // whether the fact is 'a number', or names something of this program and this proposal
    fn names(&self, fact: Fact) -> bool
        ensures { result ≡ names (script self.now) (inspected F.members self.now) fact }
    {
        match fact {
            Fact::Symbol(symbol) => symbol < self.program.symbols(),
            Fact::Number => true,
            Fact::Function(body) => self.program.is_body(body),
            Fact::Pair { cons, context } => {
                context < self.proposal.contexts() && is_cons(self.program, cons)
            }
        }
    }
}
