ghost use Rattle.std.specs.Prelude.{◌≡◌, ◌-◌};
ghost use Rattle.std.specs.Iterator.{YieldsFirst, at_most};
ghost use Rattle.facts.specs.Members.{facts_of, facts_left};

use crate::table::Facts;

// The facts of a set, in rising order.
#[derive(Drop)]
pub struct Members<'a, F> {
    facts: &'a F,
    set: u16,
    // what came is below this
    from: u16,
}

impl<'a, F: Facts> Members<'a, F> {
    pub fn of(facts: &'a F, set: u16) -> Members<'a, F>
        ensures { facts_left F.members result ≡ facts_of (F.members facts.now) set }
    {
        Members {
            facts,
            set,
            from: 0,
        }
    }
}

impl<'a, F: Facts> Iterator for Members<'a, F> {
    type Item = u16;

    ghost next_gives = { YieldsFirst (facts_left F.members) };

    ghost remaining = { λ it. at_most (4608 - it.from) };

    fn next(&mut self) -> Option<u16> {
        let fact = self.facts.next(self.set, self.from)?;
        self.from = fact + 1;
        Some(fact)
    }
}
