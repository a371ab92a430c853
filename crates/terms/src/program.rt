mod lookups;
mod making;

ghost use Rattle.std.specs.Prelude.{◌≡◌, true};
ghost use Rattle.terms.specs.Table.{script_in};
ghost use Rattle.terms.specs.Form.{well_formed};

use crate::table::Table;
use crate::term::Definition;
use arrayvec::ArrayVec;

// A script that keeps the rules of form.
#[derive(Drop)]
pub struct Program {
    table: Table,
    definitions: ArrayVec<Definition, 31>,
    ghost formed: { well_formed (script_in table.nodes.items table.symbols definitions.items) ≡ true },
}
