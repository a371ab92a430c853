ghost use Rattle.std.specs.Prelude.{◌≡◌, ℕ, suc, ◌<◌, ◌≤◌, [], map, length, replicate, None, Ok};
ghost use Rattle.terms.specs.Script.{term, occurs};
ghost use Rattle.terms.specs.Model.{model};
ghost use Rattle.owners.specs.Owners.{owners_of, captures_of, found_of};
ghost use Rattle.owners.specs.Laws.{Owned};
ghost use Rattle.owners.specs.Model.{open_scopes};
ghost use Rattle.owners.specs.Scoping.{innermost, left_at, entered, binding_of, scopes_at, noticed, owner_at};

use crate::owner::Owner;
use crate::scope::Scope;
use arrayvec::ArrayVec;
use faults::Fault;
use stores::Store;
use terms::Program;

// A walk down the labels of a program: the scopes that stand open, the innermost last, with a binding in the store for each.
// A scope is left or entered before the store is told, so that the two agree as soon as the store has changed.
#[derive(Drop)]
struct Walk<'a, S: Store<Thing = u8>> {
    program: &'a Program,
    store: &'a mut S,
    scopes: ArrayVec<Scope, 255>,
    ghost bound: { (S.meaning store.now).bindings ≡ map (binding_of (model program.now)) (open_scopes scopes) },
    ghost bare: { (S.meaning store.now).top ≡ replicate 32 None },
    ghost roomy: { 255 ≤ (S.meaning store.now).limit },
}

impl<'a, S: Store<Thing = u8>> Walk<'a, S> {
    ghost use Rattle.owners.specs.Walking.{GoesOn};

    // A walk that has not begun, over the store, which is cleared.
    fn over(program: &'a Program, store: &'a mut S) -> Self
        requires { 255 ≤ (S.meaning store.old).limit }
        ensures none { result.scopes.items ≡ [] }
        ensures program { result.program.now ≡ program.now }
        ensures same { result.store.ghost_name ≡ store.entry.ghost_name }
        ensures limit { (S.meaning result.store.now).limit ≡ (S.meaning store.old).limit }
    {
        store.clear();
        Walk {
            program,
            store,
            scopes: ArrayVec::new(),
        }
    }

    // The innermost function body that encloses what stands below, 0 for none.
    fn function(&self) -> u8
        ensures { result ≡ (innermost (open_scopes self.now.scopes)).function }
    {
        self.scopes.last().map_or(0, |scope| scope.function)
    }

    // Going down to `label`, leaves the scopes that begin above it.
    fn leave(&mut self, label: u8) -> Result<(), Fault>
        ensures done { result ≡ Ok tt }
        ensures scopes { open_scopes self.new.scopes ≡ left_at (model self.old.program.now) label (open_scopes self.old.scopes) }
        ensures goes_on { GoesOn self.old self.new }
    {
        while let Some(scope) = self.scopes.last() {
            if self.program.first(scope.binder) <= label {
                break;
            }
            self.scopes.pop();
            self.store.unbind()?;
        }
        Ok(())
    }

    // Enters the scope of a binder.
    fn enter(&mut self, label: u8) -> Result<(), Fault>
        requires { length self.old.scopes.items < 255 }
        ensures done { result ≡ Ok tt }
        ensures scopes { open_scopes self.new.scopes ≡ entered (model self.old.program.now) label (open_scopes self.old.scopes) }
        ensures goes_on { GoesOn self.old self.new }
    {
        if let Some(variable) = self.program.binder(label) {
            let function = if self.program.is_body(label) {
                label
            } else {
                self.function()
            };
            self.scopes.push(Scope {
                binder: label,
                function,
            });
            self.store.bind(variable, function, label)?;
        }
        Ok(())
    }

    // The owner of the occurrence at `label`; none where there is no occurrence, or no owner.
    fn owner_at(&self, label: u8) -> Result<Option<Owner>, Fault>
        ensures { result ≡ Ok (noticed (model self.now.program.now) (open_scopes self.now.scopes) (occurs (term (model self.now.program.now) label))) }
    {
        let Some(variable) = occurrence(self.program, label) else {
            return Ok(None);
        };
        let function = self.function();
        let found = (*self.store).look(variable)?;
        Ok(found.map(|(enclosing, binder)| Owner {
            binder,
            captured: enclosing != function,
        }))
    }

    // One label: leaves what begins above it, enters its scope if it is a binder, and finds its owner.
    fn visit(&mut self, label: u8) -> Result<Option<Owner>, Fault>
        requires { open_scopes self.old.scopes ≡ scopes_at (model self.old.program.now) (suc label) }
        ensures owner { result ≡ Ok (owner_at (model self.old.program.now) label) }
        ensures scopes { open_scopes self.new.scopes ≡ scopes_at (model self.old.program.now) label }
        ensures goes_on { GoesOn self.old self.new }
    {
        self.leave(label)?;
        self.enter(label)?;
        self.owner_at(label)
    }

    // Every label, from the entry down; what has no owner is left out.
    fn visit_all(&mut self, owners: &mut [u8], captured: &mut [u8]) -> Result<(), Fault>
        requires { (self.old.scopes.items ≡ []) × ((owners.old ≡ replicate 256 0) × (captured.old ≡ replicate 256 0)) }
        ensures done { result ≡ Ok tt }
        ensures goes_on { GoesOn self.old self.new }
        ensures owners { owners.new ≡ owners_of (model self.old.program.now) }
        ensures captured { captured.new ≡ captures_of (model self.old.program.now) }
    {
        for label in (1..=self.program.last()).rev() {
            if let Some(owner) = self.visit(label)? {
                // a cast: by `usize::from` the proof does not close
                owners[label as usize] = owner.binder;
                captured[label as usize] = u8::from(owner.captured);
            }
        }
        Ok(())
    }
}

// The variable of the occurrence at `label`, if there is one.
fn occurrence(program: &Program, label: u8) -> Option<u8>
    ensures { result ≡ occurs (term (model program.now) label) }
{
    program.term(label)?.occurrence()
}

// The owner of every occurrence, and whether it is captured, for the labels 0 to 255; 0 where no occurrence is. The store is used for
// the walk, with the label of the enclosing function as the thing that it keeps, and left cleared.
// Two byte slices, and 0 for none in them: they are the caller's memory, since nothing is allocated here.
pub fn find_owners<S: Store<Thing = u8>>(
    program: &Program,
    store: &mut S,
    owners: &mut [u8],
    captured: &mut [u8],
) -> Result<(), Fault>
    ensures result { (result, (S.meaning store.new, (owners.new, captured.new))) ≡ found_of (model program.now) (S.meaning store.old) owners.old captured.old }
    ensures owned { (l : ℕ) → Owned (model program.now) l }
{
    if owners.len() != 256 || captured.len() != 256 {
        return Err(Fault::MemoryLength);
    }
    if (*store).limit() < 255 {
        return Err(Fault::StoreLimit);
    }
    owners.fill(0);
    captured.fill(0);
    Walk::over(program, store).visit_all(owners, captured)?;
    store.clear();
    Ok(())
}
