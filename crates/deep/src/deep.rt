ghost use Rattle.std.specs.Prelude.{◌≡◌, ◌==◌, length, position, find, option_map};
ghost use Rattle.stores.specs.Meaning.{new_store};
ghost use Rattle.deep.specs.Records.{held};

use faults::Fault;
use stores::{Binding, Cells, Stack, Store, check_variable};

// A store that goes through one list.
#[derive(Drop)]
pub struct Deep<'a, T: Copy> {
    bindings: Stack<'a, Binding<T>>,
    top: Cells<T>,
}

impl<'a, T: Copy> Deep<'a, T> {
    pub fn over(records: &'a mut [Binding<T>]) -> Self
        ensures { held result.bindings result.top.things ≡ new_store T (length records.old) }
    {
        let bindings = Stack::over(records);
        let top = Cells::filled(None);
        Deep { bindings, top }
    }

    // the newest binding of `variable`, and its place among the bindings
    fn newest(&self, variable: u8) -> Option<(usize, Binding<T>)>
        ensures place { option_map (λ p. p.0) result ≡ position (λ b. b.variable == variable) self.now.bindings.items }
        ensures binding { option_map (λ p. p.1) result ≡ find (λ b. b.variable == variable) self.now.bindings.items }
    {
        let bindings = self.bindings.as_slice();
        let place = place(bindings, variable)?;
        Some((place, bindings[place]))
    }
}

fn place<T: Copy>(bindings: &[Binding<T>], variable: u8) -> Option<usize>
    ensures { result ≡ position (λ b. b.variable == variable) bindings.now }
{
    bindings.iter().position(|b| b.variable == variable)
}

impl<'a, T: Copy> Store for Deep<'a, T> {
    type Thing = T;

    ghost meaning = { λ s. held s.bindings s.top.things };

    fn clear(&mut self) {
        self.top = Cells::filled(None);
        self.bindings.clear();
    }

    fn count(&self) -> usize {
        self.bindings.len()
    }

    fn limit(&self) -> usize {
        self.bindings.capacity()
    }

    fn bind(&mut self, variable: u8, thing: T, birthplace: u8) -> Result<(), Fault> {
        check_variable(variable)?;
        self.bindings.push(Binding {
            variable,
            thing,
            birthplace,
        })
    }

    fn unbind(&mut self) -> Result<(), Fault> {
        self.bindings.pop()?;
        Ok(())
    }

    fn look(&self, variable: u8) -> Result<Option<(T, u8)>, Fault> {
        check_variable(variable)?;
        // `or_else` was tried: in generic code nothing is known of its closure's answer, but by a clause that says it again
        match self.newest(variable) {
            Some((_, bound)) => Ok(Some((bound.thing, bound.birthplace))),
            None => Ok(self.top.outermost(variable)),
        }
    }

    fn put(&mut self, variable: u8, thing: T) -> Result<(), Fault> {
        check_variable(variable)?;
        match self.newest(variable) {
            Some((place, binding)) => self.bindings.set(place, Binding { thing, ..binding }),
            None => self.top.give(variable, thing),
        }
        Ok(())
    }
}
