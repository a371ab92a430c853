ghost use Rattle.std.specs.Prelude.{◌≡◌, suc};
ghost use Rattle.terms.specs.Script.{last, term, find_term, first, binds, parameter, is_body, is_input, defun_parameter};
ghost use Rattle.terms.specs.WellFormed.{WellFormed};
ghost use Rattle.terms.specs.Model.{model};

use crate::program::Program;
use crate::term::{Definition, Term};

impl Program {
    // The label of the entry term. A caller also learns that the script keeps the rules of form.
    pub fn last(&self) -> u8
        ensures label { result ≡ last (model self.now) }
        ensures formed { WellFormed (model self.now) }
    {
        self.table.last()
    }

    // How many symbols the script has; they are numbered from 0.
    pub fn symbols(&self) -> u8
        ensures { result ≡ (model self.now).symbols }
    {
        self.table.symbols
    }

    // The definitions in order.
    pub fn definitions(&self) -> &[Definition]
        ensures { result.now ≡ (model self.now).definitions }
    {
        &self.definitions
    }

    // The term with this label, if there is one.
    pub fn term(&self, label: u8) -> Option<Term>
        ensures { result ≡ find_term (model self.now) label }
    {
        self.table.node(label).map(|node| node.term)
    }

    // The first label of a term's span; 0 where no term is, as the definition has it.
    pub fn first(&self, label: u8) -> u8
        ensures { result ≡ first (model self.now) label }
    {
        self.table.first(label)
    }

    // The term just above `label`; `label` is its last child, if it has any. Where there is none, nil quoted, as the definition of a binder reads it.
    fn above(&self, label: u8) -> Term
        ensures { result ≡ term (model self.now) (suc label) }
    {
        self.table
            .nodes
            .get(usize::from(label))
            .map_or(Term::default(), |node| node.term)
    }

    // The parameter of the defun whose body this is.
    fn defun(&self, body: u8) -> Option<u8>
        ensures { result ≡ defun_parameter (model self.now).definitions body }
    {
        self.definitions
            .iter()
            .find_map(|definition| definition.parameter_for(body))
    }

    // The variable that a binder binds; none if the label is no binder.
    pub fn binder(&self, label: u8) -> Option<u8>
        ensures { result ≡ binds (model self.now) label }
    {
        self.above(label).bound().or_else(|| self.defun(label))
    }

    // The parameter of the function with this body; none if the label is no function body.
    pub fn parameter(&self, body: u8) -> Option<u8>
        ensures { result ≡ parameter (model self.now) body }
    {
        self.above(body).parameter().or_else(|| self.defun(body))
    }

    pub fn is_body(&self, label: u8) -> bool
        ensures { result ≡ is_body (model self.now) label }
    {
        self.parameter(label).is_some()
    }

    // Whether the script has this variable as an input.
    pub fn is_input(&self, variable: u8) -> bool
        ensures { result ≡ is_input (model self.now) variable }
    {
        self.definitions
            .iter()
            .any(|definition| definition.takes_input(variable))
    }
}
