use std::alloc::{AllocError, Global};
use std::fmt;
use terms::Program;

// what was written at one label
#[derive(Clone, Copy, PartialEq, Eq)]
struct Written {
    label: u8,
    owner: u8,
    captured: bool,
}

// The occurrences, and whatever other label is not written 0.
#[derive(Drop, PartialEq, Eq)]
pub(crate) struct Listing(Vec<Written>);

impl Listing {
    pub(crate) fn of(
        heap: Global,
        program: &Program,
        owners: &[u8],
        captured: &[u8],
    ) -> Result<Listing, AllocError> {
        let all = (0..=255u8)
            .map(|label| Written {
                label,
                owner: at(owners, label),
                captured: at(captured, label) != 0,
            })
            .filter(|one| one.owner != 0 || one.captured || is_occurrence(program, one.label))
            .collect(heap)?;
        Ok(Listing(all))
    }
}

// 0 past the end
fn at(memory: &[u8], label: u8) -> u8 {
    memory.get(usize::from(label)).copied().unwrap_or(0)
}

fn is_occurrence(program: &Program, label: u8) -> bool {
    program
        .term(label)
        .is_some_and(|term| term.occurrence().is_some())
}

impl fmt::Display for Written {
    fn fmt<W: fmt::Write>(&self, f: &mut fmt::Formatter<W>) -> fmt::Result {
        let Written {
            label,
            owner,
            captured,
        } = *self;
        write!(f, "label {label} owner {owner}")?;
        if captured {
            f.write_str(" captured")
        } else {
            Ok(())
        }
    }
}

impl fmt::Display for Listing {
    fn fmt<W: fmt::Write>(&self, f: &mut fmt::Formatter<W>) -> fmt::Result {
        let Some((first, others)) = self.0.split_first() else {
            return f.write_str("none");
        };
        write!(f, "{first}")?;
        for one in others {
            write!(f, ", {one}")?;
        }
        Ok(())
    }
}
