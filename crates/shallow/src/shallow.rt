ghost use Rattle.std.specs.Prelude.{◌≡◌, true, length};
ghost use Rattle.stores.specs.Meaning.{new_store};
ghost use Rattle.shallow.specs.Trail.{unwound, sound};

use crate::saved::Saved;
use faults::Fault;
use stores::{Cells, Stack, Store, check_variable};

// A store that keeps each variable's current binding in a cell. The trail has what each binding covered.
#[derive(Drop)]
pub struct Shallow<'a, T: Copy> {
    trail: Stack<'a, Saved<T>>,
    cells: Cells<(T, u8)>,
    top: Cells<T>,
    ghost sound: { sound cells.things trail.items ≡ true },
}

impl<'a, T: Copy> Shallow<'a, T> {
    pub fn over(trail: &'a mut [Saved<T>]) -> Self
        ensures { unwound result.cells.things result.trail result.top.things ≡ new_store T (length trail.old) }
    {
        let trail = Stack::over(trail);
        let cells = Cells::filled(None);
        let top = Cells::filled(None);
        Shallow { trail, cells, top }
    }
}

impl<'a, T: Copy> Store for Shallow<'a, T> {
    type Thing = T;

    ghost meaning = { λ s. unwound s.cells.things s.trail s.top.things };

    fn clear(&mut self) {
        self.trail.clear();
        self.cells = Cells::filled(None);
        self.top = Cells::filled(None);
    }

    fn count(&self) -> usize {
        self.trail.len()
    }

    fn limit(&self) -> usize {
        self.trail.capacity()
    }

    fn bind(&mut self, variable: u8, thing: T, birthplace: u8) -> Result<(), Fault> {
        check_variable(variable)?;
        let covered = self.cells.at(variable);
        self.trail.push(Saved { variable, covered })?;
        self.cells.give(variable, (thing, birthplace));
        Ok(())
    }

    fn unbind(&mut self) -> Result<(), Fault> {
        let newest = self.trail.pop()?;
        self.cells.set(newest.variable, newest.covered);
        Ok(())
    }

    fn look(&self, variable: u8) -> Result<Option<(T, u8)>, Fault> {
        check_variable(variable)?;
        // `or_else` was tried: in generic code nothing is known of its closure's answer, but by a clause that says it again
        match self.cells.at(variable) {
            Some(current) => Ok(Some(current)),
            None => Ok(self.top.outermost(variable)),
        }
    }

    fn put(&mut self, variable: u8, thing: T) -> Result<(), Fault> {
        check_variable(variable)?;
        match self.cells.at(variable) {
            None => self.top.give(variable, thing),
            Some((_, birthplace)) => self.cells.give(variable, (thing, birthplace)),
        }
        Ok(())
    }
}
