ghost use Rattle.std.specs.Prelude.{◌≡◌, slice_index};
ghost use Rattle.proposals.specs.Tables.{contexts, entry, listed, entry_with, extends, extension};
ghost use Rattle.proposals.specs.Model.{tables};

use crate::proposal::Proposal;
use facts::Facts;

// 0 past the end
fn number(numbers: &[u16], at: usize) -> u16
    ensures { result ≡ slice_index numbers.now at }
{
    numbers.get(at).copied().unwrap_or_default()
}

impl<'a, F: Facts> Proposal<'a, F> {
    // How many contexts there are.
    pub fn contexts(&self) -> u8
        ensures { result ≡ contexts (tables F.members self.now) }
    {
        (self.rows.len() / 32) as u8
    }

    // The birthplace that the context has for the variable.
    pub fn entry(&self, context: u8, variable: u8) -> u16
        ensures { result ≡ entry (tables F.members self.now) context variable }
    {
        if variable < 32 {
            number(self.rows, 32 * usize::from(context) + usize::from(variable))
        } else {
            0
        }
    }

    // Whether the context is listed for the label.
    pub fn listed(&self, label: u8, context: u8) -> bool
        ensures { result ≡ listed (tables F.members self.now) label context }
    {
        context < 16 && (number(self.masks, usize::from(label)) >> context) & 1 == 1
    }

    // The context that is this one with another birthplace for the variable.
    pub fn extension(&self, context: u8, variable: u8, birthplace: u8) -> Option<u8>
        ensures { result ≡ extension (tables F.members self.now) context variable birthplace }
    {
        if context >= self.contexts() || variable > 31 {
            return None;
        }
        (0..self.contexts()).find(|row| self.extends(*row, context, variable, birthplace))
    }

    // whether `row` is the context with another birthplace for the variable
    fn extends(&self, row: u8, context: u8, variable: u8, birthplace: u8) -> bool
        ensures { result ≡ extends (tables F.members self.now) context variable birthplace row }
    {
        (0..32).all(|x| {
            let wanted = if x == variable {
                u16::from(birthplace)
            } else {
                self.entry(context, x)
            };
            self.entry(row, x) == wanted
        })
    }
}
