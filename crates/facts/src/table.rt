ghost use Rattle.std.specs.Prelude.{◌≡◌, ℕ, Bool, Decides};
ghost use Rattle.facts.specs.Table.{holds, MemberNumbered, Next, Within};

use crate::members::Members;

// Sets are numbered below this, and so are facts.
pub const SETS: u16 = 4608;

// The number 4,608 × set + fact of a fact in a set, or none past the numbers of sets and facts.
pub fn member_number(set: u16, fact: u16) -> Option<u32>
    ensures { MemberNumbered set fact result }
{
    if set >= SETS || fact >= SETS {
        return None;
    }
    Some(u32::from(SETS) * u32::from(set) + u32::from(fact))
}

// A set of facts for each set number. Past the numbers of sets and facts, `members` does not count.
pub trait Facts {
    ghost members: { Self → ℕ → ℕ → Bool };

    // Whether the set holds the fact.
    fn has(&self, set: u16, fact: u16) -> bool
        ensures { result ≡ holds (members self.now) set fact };

    // The smallest fact of the set from `from` on, or none.
    fn next(&self, set: u16, from: u16) -> Option<u16>
        ensures { Next (members self.now) set from result };
}

// Whether every fact of set a is in set b.
pub fn within<F: Facts>(facts: &F, a: u16, b: u16) -> bool
    ensures { Decides result (Within (F.members facts.now) a b) }
{
    Members::of(facts, a).all(|fact| facts.has(b, fact))
}
