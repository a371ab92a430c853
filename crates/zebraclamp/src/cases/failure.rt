ghost use Rattle.std.specs.Prelude.{◌≡◌};
ghost use Rattle.zebraclamp.specs.declared.cases.failure.Failure.{Failure};

use crate::lines::Mistake;
use std::alloc::AllocError;

// Why a line has no answer: a mistake, which is told, or no memory, which ends the program.
#[derive(Clone, Copy)]
pub(crate) enum Failure<'a> {
    Mistake(Mistake<'a>),
    NoMemory(AllocError),
}

impl<'a> From<Mistake<'a>> for Failure<'a> {
    ghost from_gives = { λ mistake failure. failure ≡ Failure.Mistake mistake };

    fn from(mistake: Mistake<'a>) -> Failure<'a> {
        Failure::Mistake(mistake)
    }
}

impl From<AllocError> for Failure<'_> {
    ghost from_gives = { λ error failure. failure ≡ Failure.NoMemory error };

    fn from(error: AllocError) -> Self {
        Failure::NoMemory(error)
    }
}
