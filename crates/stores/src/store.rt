ghost use Rattle.std.specs.Prelude.{◌≡◌};
ghost use Rattle.stores.specs.Meaning.{Meaning, Formed, clear_of, count_of, bind_of, unbind_of, look_of, put_of};

use faults::Fault;

// A store of bindings. Each call is one equation over its answer and what the store means after it.
// A question also tells that the meaning is well formed, and the calls that change it keep it so (`StaysFormed` of specs/Laws).
// In clauses and in no law of the trait: a caller that knows its store by name could not use the law.
pub trait Store {
    type Thing: Copy;

    ghost meaning: { Self → Meaning Self.Thing };

    fn clear(&mut self)
        ensures { meaning self.new ≡ clear_of (meaning self.old) };

    fn count(&self) -> usize
        ensures answer { result ≡ count_of (meaning self.now) }
        ensures formed { Formed (meaning self.now) };

    fn limit(&self) -> usize
        ensures answer { result ≡ (meaning self.now).limit }
        ensures formed { Formed (meaning self.now) };

    fn bind(&mut self, variable: u8, thing: Self::Thing, birthplace: u8) -> Result<(), Fault>
        ensures { (result, meaning self.new) ≡ bind_of (meaning self.old) variable thing birthplace };

    fn unbind(&mut self) -> Result<(), Fault>
        ensures { (result, meaning self.new) ≡ unbind_of (meaning self.old) };

    fn look(&self, variable: u8) -> Result<Option<(Self::Thing, u8)>, Fault>
        ensures answer { result ≡ look_of (meaning self.now) variable }
        ensures formed { Formed (meaning self.now) };

    fn put(&mut self, variable: u8, thing: Self::Thing) -> Result<(), Fault>
        ensures { (result, meaning self.new) ≡ put_of (meaning self.old) variable thing };
}
