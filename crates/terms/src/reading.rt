// Reading of rows: each is tested against the terms that stand in the table below it.
ghost use Rattle.std.specs.Prelude.{◌≡◌, ◌<◌, ◌≤◌, [], length, MatchResult};
ghost use Rattle.terms.specs.Script.{first_at};
ghost use Rattle.terms.specs.Syntax.{children, decode};
ghost use Rattle.terms.specs.Table.{terms_in};
ghost use Rattle.terms.specs.Reading.{named, ends_below, passed, opening, read_definition, NextRead, NextWrong, TermsRead, NamesWrong, DefinitionsRead, DefinitionsWrong};

use crate::raw::{RawDefinition, RawTerm};
use crate::table::{Node, Table};
use crate::term::{Definition, Term};
use arrayvec::ArrayVec;
use faults::Fault;

impl Table {
    // Reads every row in the order of the labels, and refuses the first that is wrong.
    pub(crate) fn read(&mut self, rows: &[RawTerm]) -> Result<(), Fault>
        requires { (self.old.nodes.items ≡ []) × (length rows.now ≤ 255) }
        ensures { MatchResult result (λ _. TermsRead rows.now self.old.symbols self.new) (NamesWrong rows.now self.old.symbols) }
    {
        for &row in rows {
            self.read_term(row)?;
        }
        Ok(())
    }

    // Reads the row of the next label.
    fn read_term(&mut self, row: RawTerm) -> Result<(), Fault>
        requires { length self.old.nodes.items < 255 }
        ensures { MatchResult result (λ _. NextRead self.old row self.new) (NextWrong self.old row) }
    {
        let label = self.last() + 1;
        let Some(term) = self.term(row) else {
            return Err(Fault::WrongTerm { label });
        };
        let Some(first) = self.opening(term, label) else {
            return Err(Fault::WrongTerm { label });
        };
        self.nodes.push(Node { term, first });
        Ok(())
    }

    // The term that a row stands for, if it names symbols of the script alone.
    fn term(&self, row: RawTerm) -> Option<Term>
        ensures { result ≡ named self.now.symbols (decode row) }
    {
        let term = Term::decode(row)?;
        if term.symbol().is_some_and(|symbol| symbol >= self.symbols) {
            return None;
        }
        Some(term)
    }

    // Where the children begin that should end just below `label`; none if they do not.
    fn opening(&self, term: Term, label: u8) -> Option<u8>
        ensures { result ≡ opening (first_at (terms_in self.now.nodes.items)) (children term) label }
    {
        let [first, second, third] = term.children();
        let next = self.passed(third, label)?;
        let next = self.passed(second, next)?;
        self.passed(first, next)
    }

    // Where the child begins that should end just below `next`, or `next` itself where there is none.
    fn passed(&self, child: Option<u8>, next: u8) -> Option<u8>
        ensures { result ≡ passed (first_at (terms_in self.now.nodes.items)) child next }
    {
        match child {
            None => Some(next),
            Some(child) => self.ends_below(child, next),
        }
    }

    // The first label of `child`, if the child ends just below `next`.
    fn ends_below(&self, child: u8, next: u8) -> Option<u8>
        ensures { result ≡ ends_below (first_at (terms_in self.now.nodes.items)) child next }
    {
        (child > 0 && next.checked_sub(1) == Some(child)).then(|| self.first(child))
    }

    // Reads every definition, and refuses those that break the rules.
    pub(crate) fn read_definitions(
        &self,
        rows: &[RawDefinition],
    ) -> Result<ArrayVec<Definition, 31>, Fault>
        requires { length rows.now ≤ 31 }
        ensures { MatchResult result
            (λ ds. DefinitionsRead rows.now self.now ds.items)
            (DefinitionsWrong rows.now self.now) }
    {
        let mut definitions = ArrayVec::new();
        let mut covered = 1;
        for &row in rows {
            let (definition, next) = self
                .read_definition(covered, row)
                .ok_or(Fault::WrongDefinitions)?;
            definitions.push(definition);
            covered = next;
        }
        if usize::from(self.first(self.last())) != covered {
            return Err(Fault::WrongDefinitions);
        }
        Ok(definitions)
    }

    // The definition that a row stands for, and up to where the roots cover the labels with it; none if it breaks the rules.
    fn read_definition(&self, covered: usize, row: RawDefinition) -> Option<(Definition, usize)>
        ensures { result ≡ read_definition (first_at (terms_in self.now.nodes.items)) self.now.symbols covered row }
    {
        let definition = Definition::try_from(row).ok()?;
        if !definition.names_below(self.symbols) {
            return None;
        }
        match definition.root() {
            None => Some((definition, covered)),
            Some(root) if usize::from(self.first(root)) == covered => {
                Some((definition, usize::from(root) + 1))
            }
            Some(_) => None,
        }
    }
}
