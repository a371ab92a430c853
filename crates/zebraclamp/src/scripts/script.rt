ghost use Rattle.std.specs.Prelude.{◌≡◌, [], ◌∷◌, ◌++◌, is_some, is_ok, IfOk, None, Err, vec_len, MatchResult};
ghost use Rattle.std.specs.Option.{option_copied, option_map};
ghost use Rattle.std.specs.Result.{result_ok};
ghost use Rattle.terms.specs.Form.{program_of};
ghost use Rattle.terms.specs.Model.{model};

use crate::scripts::said::Said;
use crate::scripts::saying::Saying;
use faults::Fault;
use std::alloc::{AllocError, Global};
use std::fmt;
use terms::{Program, RawDefinition, RawTerm};

// What has been said of a program, and the program made of it.
#[derive(Drop)]
pub(crate) struct Script {
    symbols: u32,
    terms: Vec<RawTerm>,
    definitions: Vec<RawDefinition>,
    program: Option<Program>,
}

// how large a program is
#[derive(Clone, Copy)]
pub(crate) struct Sizes {
    pub(crate) terms: usize,
    pub(crate) symbols: u32,
    pub(crate) definitions: usize,
}

impl fmt::Display for Sizes {
    fn fmt<W: fmt::Write>(&self, f: &mut fmt::Formatter<W>) -> fmt::Result {
        let Sizes {
            terms,
            symbols,
            definitions,
        } = *self;
        write!(
            f,
            "terms {terms} symbols {symbols} definitions {definitions}"
        )
    }
}

impl Script {
    pub(crate) fn new(heap: Global) -> Script
        ensures { (result.symbols ≡ 0) × (result.terms.items ≡ []) × (result.definitions.items ≡ []) × (result.program ≡ None) }
    {
        Script {
            symbols: 0,
            terms: Vec::new(heap),
            definitions: Vec::new(heap),
            program: None,
        }
    }

    fn symbols(&mut self, count: u32)
        ensures said { self.new.symbols ≡ count }
        ensures kept { (self.new.terms ≡ self.old.terms) × (self.new.definitions ≡ self.old.definitions) × (self.new.program ≡ self.old.program) }
    {
        self.symbols = count;
    }

    // adds a term, and gives its label; one generic function for this and `definition` would be longer than its two lines
    fn term(&mut self, term: RawTerm) -> Result<usize, AllocError>
        ensures said { IfOk result (λ label. (self.new.terms.items ≡ self.old.terms.items ++ term ∷ []) × (label ≡ vec_len self.new.terms)) }
        ensures kept { (self.new.symbols ≡ self.old.symbols) × (self.new.definitions ≡ self.old.definitions) × (self.new.program ≡ self.old.program) }
    {
        self.terms.push(term)?;
        Ok(self.terms.len())
    }

    // adds a definition, and gives its number, counted from 1
    fn definition(&mut self, definition: RawDefinition) -> Result<usize, AllocError>
        ensures said { IfOk result (λ number. (self.new.definitions.items ≡ self.old.definitions.items ++ definition ∷ []) × (number ≡ vec_len self.new.definitions)) }
        ensures kept { (self.new.symbols ≡ self.old.symbols) × (self.new.terms ≡ self.old.terms) × (self.new.program ≡ self.old.program) }
    {
        self.definitions.push(definition)?;
        Ok(self.definitions.len())
    }

    // makes the program of what was said; a refusal leaves none
    fn program(&mut self) -> Result<Sizes, Fault>
        ensures makes { is_some self.new.program ≡ is_ok result }
        ensures which { MatchResult result (λ _. option_map model self.new.program ≡ result_ok (program_of self.old.terms.items self.old.symbols self.old.definitions.items)) (λ e. Err e ≡ program_of self.old.terms.items self.old.symbols self.old.definitions.items) }
        ensures sizes { IfOk result (λ s. (s.terms ≡ vec_len self.old.terms) × (s.symbols ≡ self.old.symbols) × (s.definitions ≡ vec_len self.old.definitions)) }
        ensures kept { (self.new.symbols ≡ self.old.symbols) × (self.new.terms ≡ self.old.terms) × (self.new.definitions ≡ self.old.definitions) }
    {
        self.program = None;
        let program = Program::make(
            self.terms.as_slice(),
            self.symbols,
            self.definitions.as_slice(),
        )?;
        self.program = Some(program);
        Ok(Sizes {
            terms: self.terms.len(),
            symbols: self.symbols,
            definitions: self.definitions.len(),
        })
    }

    // the program made last; none before, and after a refusal
    pub(crate) fn made(&self) -> Option<&Program>
        ensures made { is_some result ≡ is_some self.now.program }
        ensures which { option_copied result ≡ self.now.program }
    {
        self.program.as_ref()
    }

    pub(crate) fn carry_out(&mut self, saying: Saying) -> Result<Said, AllocError> {
        match saying {
            Saying::Symbols(count) => {
                self.symbols(count);
                Ok(Said::Symbols(count))
            }
            Saying::Term(term) => {
                let label = self.term(term)?;
                Ok(Said::Term { label, term })
            }
            Saying::Definition(definition) => {
                let number = self.definition(definition)?;
                Ok(Said::Definition { number, definition })
            }
            Saying::Program => Ok(Said::Program(self.program())),
        }
    }
}
