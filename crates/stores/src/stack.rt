ghost use Rattle.std.specs.Prelude.{◌≡◌, length};
ghost use Rattle.stores.specs.Stack.{capacity_of, new_stack, push_of, pop_of, set_of};

use faults::Fault;
use std::marker::Model;

// A stack in lent memory. The first `free` places are unused; behind them stand the items, newest first.
// A slice with an index beside it, and no vector: the memory is the caller's, since nothing is allocated here.
#[derive(Drop)]
pub struct Stack<'a, R: Copy> {
    memory: &'a mut [R],
    free: usize,
}

impl<'a, R: Copy> Model for Stack<'a, R> {
    ghost use Rattle.std.specs.Prelude.{◌≤◌, length, drop};
    ghost use Rattle.stores.specs.Stack.{Stacked};

    ghost Value = { Stacked R };

    ghost view = { λ s. record { items = drop s.free s.memory.now; free = s.free } };

    ghost invariant = { λ s. s.free ≤ length s.memory.now };
}

impl<'a, R: Copy> Stack<'a, R> {
    pub fn over(memory: &'a mut [R]) -> Self
        ensures { result ≡ new_stack R (length memory.old) }
    {
        let free = memory.len();
        Stack { memory, free }
    }

    pub fn capacity(&self) -> usize
        ensures { result ≡ capacity_of self.now }
    {
        self.memory.len()
    }

    pub fn len(&self) -> usize
        ensures { result ≡ length self.now.items }
    {
        self.as_slice().len()
    }

    // newest first
    pub fn as_slice(&self) -> &[R]
        ensures { result.now ≡ self.now.items }
    {
        &self.memory[self.free..]
    }

    pub fn clear(&mut self)
        ensures { self.new ≡ new_stack R (capacity_of self.old) }
    {
        self.free = self.capacity();
    }

    pub fn push(&mut self, item: R) -> Result<(), Fault>
        ensures { (result, self.new) ≡ push_of self.old item }
    {
        let place = self.free.checked_sub(1).ok_or(Fault::StoreFull)?;
        self.memory[place] = item;
        self.free = place;
        Ok(())
    }

    pub fn pop(&mut self) -> Result<R, Fault>
        ensures { (result, self.new) ≡ pop_of self.old }
    {
        let newest = *self.as_slice().first().ok_or(Fault::StoreEmpty)?;
        self.free += 1;
        Ok(newest)
    }

    // counted from the newest; past the oldest nothing changes
    pub fn set(&mut self, index: usize, item: R)
        ensures { self.new ≡ set_of self.old index item }
    {
        if index < self.len() {
            self.memory[self.free + index] = item;
        }
    }
}
