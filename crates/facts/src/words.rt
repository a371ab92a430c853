ghost use Rattle.std.specs.Prelude.{◌≡◌, ◌≤◌, Ok, Err, length, MatchResult};
ghost use Rattle.facts.specs.Words.{in_words, word_rule, FirstFilled};

use crate::table::{Facts, SETS, member_number};
use faults::Fault;

// words of a set
const ROW: usize = 72;

// words of a table; a cast, since `From` is not const
pub const WORDS: usize = ROW * SETS as usize;

// 72 words for each set, lent by the caller.
#[derive(Clone, Copy)]
pub struct WordTable<'a> {
    words: &'a [u64],
    ghost whole: { length words.now ≡ 331776 },
}

impl<'a> WordTable<'a> {
    pub fn over(words: &'a [u64]) -> Result<WordTable<'a>, Fault>
        ensures { MatchResult result (λ t. (t.words.now ≡ words.now) × (word_rule words.now ≡ Ok tt)) (λ e. word_rule words.now ≡ Err e) }
    {
        if words.len() != WORDS {
            return Err(Fault::MemoryLength);
        }
        Ok(WordTable { words })
    }

    // the first word from `from` on, and before `end`, that has a fact
    fn next_filled(&self, from: usize, end: usize) -> Option<usize>
        requires { end ≤ 331776 }
        ensures { FirstFilled self.now.words.now from end result }
    {
        (from..end).find(|w| self.words[*w] != 0)
    }
}

impl<'a> Facts for WordTable<'a> {
    ghost members = { λ t. in_words t.words.now };

    fn has(&self, set: u16, fact: u16) -> bool {
        // `is_some_and` was tried: the proof does not close
        let Some(n) = member_number(set, fact) else {
            return false;
        };
        let word = self.words[n as usize / 64];
        (word >> (n % 64)) & 1 == 1
    }

    fn next(&self, set: u16, from: u16) -> Option<u16> {
        let start = member_number(set, from)? as usize;
        let rest = self.words[start / 64] >> (start % 64);
        if rest != 0 {
            return Some(from + rest.trailing_zeros() as u16);
        }
        let w = self.next_filled(start / 64 + 1, ROW * (usize::from(set) + 1))?;
        let number = 64 * w + self.words[w].trailing_zeros() as usize;
        Some(from + (number - start) as u16)
    }
}
