use crate::store::Store;
use faults::Fault;

// A lent store is a store, and means what the store behind it means.
impl<T: Store> Store for &mut T {
    type Thing = T::Thing;

    ghost meaning = { λ s. T.Store.meaning s.now };

    fn clear(&mut self) {
        (**self).clear();
    }

    fn count(&self) -> usize {
        (**self).count()
    }

    fn limit(&self) -> usize {
        (**self).limit()
    }

    fn bind(&mut self, variable: u8, thing: T::Thing, birthplace: u8) -> Result<(), Fault> {
        (**self).bind(variable, thing, birthplace)
    }

    fn unbind(&mut self) -> Result<(), Fault> {
        (**self).unbind()
    }

    fn look(&self, variable: u8) -> Result<Option<(T::Thing, u8)>, Fault> {
        (**self).look(variable)
    }

    fn put(&mut self, variable: u8, thing: T::Thing) -> Result<(), Fault> {
        (**self).put(variable, thing)
    }
}
