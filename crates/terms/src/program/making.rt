ghost use Rattle.std.specs.Prelude.{◌≡◌};
ghost use Rattle.terms.specs.Form.{sizes_right, program_of};
ghost use Rattle.terms.specs.Laws.{Exactly, FirstWrong};
ghost use Rattle.terms.specs.Model.{made_script};

use crate::program::Program;
use crate::raw::{RawDefinition, RawTerm};
use crate::table::Table;
use faults::Fault;

// Whether a script may have so many terms, symbols and definitions.
fn sizes_right(terms: usize, symbols: u32, definitions: usize) -> bool
    ensures { result ≡ sizes_right terms symbols definitions }
{
    (1..=255).contains(&terms) && (2..=32).contains(&symbols) && definitions <= 31
}

impl Program {
    // The program that the rows make, or the refusal: of the sizes, then of the first wrong label, then of the definitions.
    pub fn make(
        terms: &[RawTerm],
        symbols: u32,
        definitions: &[RawDefinition],
    ) -> Result<Program, Fault>
        ensures result { made_script result ≡ program_of terms.now symbols definitions.now }
        ensures exactly { Exactly terms.now symbols definitions.now }
        ensures first { FirstWrong terms.now symbols definitions.now }
    {
        if !sizes_right(terms.len(), symbols, definitions.len()) {
            return Err(Fault::ProgramSizes);
        }
        let mut table = Table::new(symbols as u8);
        table.read(terms)?;
        let definitions = table.read_definitions(definitions)?;
        Ok(Program { table, definitions })
    }
}
