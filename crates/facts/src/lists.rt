ghost use Rattle.std.specs.Prelude.{◌≡◌, ◌<◌, [], Ok, Err, length, MatchResult};
ghost use Rattle.facts.specs.Lists.{in_list, in_order, list_rule, Rises, Place};

use crate::table::{Facts, SETS, member_number};
use faults::Fault;

// a cast, since `From` is not const
const SPAN: u32 = SETS as u32;

const LONGEST: usize = 8191;

// Rising numbers 4,608 × set + fact, lent by the caller.
#[derive(Clone, Copy)]
pub struct ListTable<'a> {
    numbers: &'a [u32],
    ghost rising: { Rises numbers.now },
}

// A table with no facts.
// By hand: a derive serves no struct with a ghost field.
impl Default for ListTable<'_> {
    ghost is_default = { λ t. t.numbers.now ≡ [] };

    fn default() -> Self {
        ListTable { numbers: &[] }
    }
}

impl<'a> ListTable<'a> {
    pub fn over(numbers: &'a [u32]) -> Result<ListTable<'a>, Fault>
        ensures { MatchResult result (λ t. (t.numbers.now ≡ numbers.now) × (list_rule numbers.now ≡ Ok tt)) (λ e. list_rule numbers.now ≡ Err e) }
    {
        accepted(numbers)?;
        Ok(ListTable { numbers })
    }

    // The table that `over` makes, and where it refuses the numbers one with no facts.
    pub fn over_or_empty(numbers: &'a [u32]) -> ListTable<'a>
        ensures { MatchResult (list_rule numbers.now) (λ _. result.numbers.now ≡ numbers.now) (λ _. result.numbers.now ≡ []) }
    {
        ListTable::over(numbers).unwrap_or_default()
    }

    // the place of the first number that is not below n
    fn place(&self, n: u32) -> usize
        ensures { Place self.now.numbers.now n result }
    {
        self.numbers.partition_point(|number| *number < n)
    }
}

fn accepted(numbers: &[u32]) -> Result<(), Fault>
    ensures { result ≡ list_rule numbers.now }
{
    if numbers.len() > LONGEST {
        return Err(Fault::MemoryLength);
    }
    match (0..numbers.len() as u16).find(|index| !ordered(numbers, *index)) {
        Some(index) => Err(Fault::ListOrder { index }),
        None => Ok(()),
    }
}

// whether the number is in range and above the one before it
fn ordered(numbers: &[u32], index: u16) -> bool
    requires { index < length numbers.now }
    ensures { result ≡ in_order numbers.now index }
{
    let i = usize::from(index);
    numbers[i] < SPAN * SPAN && (i == 0 || numbers[i - 1] < numbers[i])
}

impl<'a> Facts for ListTable<'a> {
    ghost members = { λ t. in_list t.numbers.now };

    fn has(&self, set: u16, fact: u16) -> bool {
        member_number(set, fact).is_some_and(|n| self.numbers.binary_search(&n).is_ok())
    }

    fn next(&self, set: u16, from: u16) -> Option<u16> {
        let start = member_number(set, from)?;
        let number = *self.numbers.get(self.place(start))?;
        let fact = u32::from(from) + (number - start);
        (fact < SPAN).then(|| fact as u16)
    }
}
