ghost use Rattle.std.specs.Prelude.{◌≡◌, if◌then◌else◌, IfOk};
ghost use Rattle.zebraclamp.specs.Sides.{MatchSides};
ghost use Rattle.zebraclamp.specs.declared.findings.finding.Finding.{Finding};

use crate::findings::finding::{Finding, Findings};
use std::alloc::AllocError;

// One of two things of a kind, or both of them.
#[derive(Clone, Copy)]
pub(crate) enum Sides<S> {
    One(S),
    Both(S, S),
}

impl<S: Copy> Sides<S> {
    // what `find` finds over each side
    pub(crate) fn find<X: PartialEq + Drop, F: Fn(S) -> Result<Finding<X>, AllocError>>(
        self,
        find: F,
    ) -> Result<Findings<S, X>, AllocError>
        requires { F.IsAlwaysCallable find }
        ensures { IfOk result (λ found. MatchSides self
            (λ side. (x : Finding X) × F.post find side (Ok x) × (found ≡ Findings.Agreed x))
            (λ one other. (x : Finding X) × (y : Finding X) × F.post find one (Ok x) × F.post find other (Ok y)
            × (found ≡ (if ⟦<Finding<X> as PartialEq>⟧.eq x y then Findings.Agreed x else Findings.Differ (one, x) (other, y))))) }
    {
        match self {
            Sides::One(side) => Ok(Findings::Agreed(find(side)?)),
            Sides::Both(one, other) => {
                let first = find(one)?;
                let second = find(other)?;
                Ok(compared((one, first), (other, second)))
            }
        }
    }
}

fn compared<S: Copy, X: PartialEq + Drop>(
    one: (S, Finding<X>),
    other: (S, Finding<X>),
) -> Findings<S, X>
    ensures { result ≡ (if ⟦<Finding<X> as PartialEq>⟧.eq one.1 other.1 then Findings.Agreed one.1 else Findings.Differ one other) }
{
    if one.1 == other.1 {
        Findings::Agreed(one.1)
    } else {
        Findings::Differ(one, other)
    }
}
