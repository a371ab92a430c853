ghost use Rattle.std.specs.Prelude.{ℕ, ◌<◌, ◌≤◌, List, IfOk};

use crate::lines::mistake::Mistake;
use crate::lines::numerals::numeral;
use std::iter::Peekable;
use std::str::SplitWhitespace;

const NUMBER: &str = "a number from 0 to 4294967295";

const SIZE: &str = "a number from 0 to 65535";

// What should stand next in a line that cannot be read on.
#[derive(Clone, Copy)]
pub(crate) struct Expected {
    pub(crate) what: &'static str,
}

// The words of one line up to a '#', taken from left to right: the one taken last, and those that are left.
#[derive(Drop)]
pub(crate) struct Words<'a> {
    before: Option<&'a str>,
    rest: Peekable<SplitWhitespace<'a>>,
}

impl<'a> Words<'a> {
    pub(crate) fn of(line: &'a str) -> Words<'a> {
        let said = line.split_once('#').map_or(line, |(front, _)| front);
        Words {
            before: None,
            rest: said.split_whitespace().peekable(),
        }
    }

    // what is wrong with the line where it should go on otherwise
    pub(crate) fn mistake(&mut self, expected: Expected) -> Mistake<'a> {
        Mistake::Expected {
            what: expected.what,
            after: self.before,
            found: self.ahead(),
        }
    }

    pub(crate) fn ahead(&mut self) -> Option<&'a str> {
        self.rest.peek().copied()
    }

    pub(crate) fn take(&mut self) -> Option<&'a str> {
        let word = self.rest.next()?;
        self.before = Some(word);
        Some(word)
    }

    // takes the next word if it is this one
    pub(crate) fn accept(&mut self, word: &str) -> bool {
        let same = self.ahead() == Some(word);
        if same {
            self.take();
        }
        same
    }

    // Takes the next word as what `read` makes of it; a word of which it makes nothing stays.
    // A closure and no `FromStr`: what should stand there is told by the place, and not by the type.
    pub(crate) fn read<T, F: FnOnce(&str) -> Option<T>>(
        &mut self,
        what: &'static str,
        read: F,
    ) -> Result<T, Expected>
        requires { F.IsAlwaysCallable read }
        ensures { IfOk result (λ x. (word : _) × F.post read word (Some x)) }
    {
        let x = self.ahead().and_then(read).ok_or(Expected { what })?;
        self.take();
        Ok(x)
    }

    pub(crate) fn word(&mut self, what: &'static str) -> Result<&'a str, Expected> {
        self.take().ok_or(Expected { what })
    }

    pub(crate) fn number(&mut self) -> Result<u32, Expected> {
        self.number_up_to(u32::MAX, NUMBER)
    }

    // a label, a variable or the like
    pub(crate) fn byte(&mut self) -> Result<u8, Expected> {
        self.number_up_to(255, "a number from 0 to 255")
    }

    pub(crate) fn context(&mut self) -> Result<u8, Expected>
        ensures { IfOk result (λ n. n < 16) }
    {
        self.number_up_to(15, "a context from 0 to 15")
    }

    // how long a piece of memory shall be, or a mask
    pub(crate) fn size(&mut self) -> Result<u16, Expected> {
        self.number_up_to(65535, SIZE)
    }

    // numbers up to the line's end, those left out being 0
    pub(crate) fn numbers_or_zero<const N: usize>(&mut self) -> Result<[u32; N], Expected> {
        let mut numbers = [0; N];
        for number in &mut numbers {
            if self.ahead().is_some() {
                *number = self.number()?;
            }
        }
        Ok(numbers)
    }

    // what is called `what`, a number that is at most this
    pub(crate) fn number_up_to<N: TryFrom<u32>>(
        &mut self,
        most: u32,
        what: &'static str,
    ) -> Result<N, Expected>
    where
        N::Error: Drop,
        ensures { IfOk result (λ x. (n : ℕ) × (n ≤ most) × N.try_from_gives n (Ok x)) }
    {
        // not by `numeral_up_to`: with a generic function called in the closure the proof does not close
        self.read(what, move |word| {
            N::try_from(numeral(word).filter(|n| *n <= most)?).ok()
        })
    }

    pub(crate) fn end(&mut self) -> Result<(), Expected> {
        match self.ahead() {
            None => Ok(()),
            Some(_) => Err(Expected {
                what: "the end of the line",
            }),
        }
    }
}
