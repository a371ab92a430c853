ghost use Rattle.std.specs.Prelude.{◌≡◌, length, replicate, Some, None, slice_index_or, slice_set};
ghost use Rattle.stores.specs.Meaning.{outermost};

// For each of the variables 0 to 31 a thing or none; other variables have nothing and take nothing.
#[derive(Drop)]
pub struct Cells<T: Copy> {
    things: [Option<T>; 32],
    ghost sized: { length things ≡ 32 },
}

impl<T: Copy> Cells<T> {
    // The same for every variable.
    pub fn filled(thing: Option<T>) -> Self
        ensures { result.things ≡ replicate 32 thing }
    {
        let things = [thing; 32];
        Cells { things }
    }

    pub fn at(&self, variable: u8) -> Option<T>
        ensures { result ≡ slice_index_or self.now.things variable None }
    {
        self.things.get(usize::from(variable)).copied().flatten()
    }

    // what `variable` shows while it is not bound: its thing, with birthplace 0
    pub fn outermost(&self, variable: u8) -> Option<(T, u8)>
        ensures { result ≡ outermost (slice_index_or self.now.things variable None) }
    {
        self.at(variable).map(|thing| (thing, 0))
    }

    pub fn set(&mut self, variable: u8, thing: Option<T>)
        ensures { self.new.things ≡ slice_set self.old.things variable thing }
    {
        if variable < 32 {
            self.things[usize::from(variable)] = thing;
        }
    }

    pub fn give(&mut self, variable: u8, thing: T)
        ensures { self.new.things ≡ slice_set self.old.things variable (Some thing) }
    {
        self.set(variable, Some(thing));
    }
}
