mod form;
mod lookups;
mod making;

ghost use Rattle.std.specs.Prelude.{◌≤◌, length};

// A fact table, contexts as rows of 32 birthplaces, and for each label a mask of the contexts that are listed for it; all of it lent.
// No impl Model: a model's value is data, and what a fact table means is a function.
#[derive(Drop)]
pub struct Proposal<'a, F> {
    facts: &'a F,
    rows: &'a [u16],
    masks: &'a [u16],
    ghost few: { length rows.now ≤ 512 },
}
