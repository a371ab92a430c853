ghost use Rattle.std.specs.Prelude.{◌≡◌, None};

use crate::cases::answer::Answer;
use crate::cases::case::Case;
use crate::cases::failure::Failure;
use crate::lines::{Expected, Words};
use std::alloc::Global;

// The case under way in one source of lines: none from a mistake on until the next begins.
#[derive(Drop)]
pub(crate) struct Session {
    heap: Global,
    case: Option<Case>,
}

impl Session {
    // what comes before the first case belongs to one without a name
    pub(crate) fn new(heap: Global) -> Session {
        Session {
            heap,
            case: Some(Case::new(heap)),
        }
    }

    // Nothing is said to a line without words, nor to a command where no case is under way.
    pub(crate) fn reply<'a>(&mut self, line: &'a str) -> Result<Option<Answer<'a>>, Failure<'a>> {
        let mut words = Words::of(line);
        if words.accept("case") {
            return self.begin(&mut words).map(Some);
        }
        let (Some(name), Some(case)) = (words.take(), &mut self.case) else {
            return Ok(None);
        };
        case.obey(name, &mut words).map(Some)
    }

    fn begin<'a>(&mut self, words: &mut Words<'a>) -> Result<Answer<'a>, Failure<'a>> {
        let name = read_name(words).map_err(|expected| words.mistake(expected))?;
        self.case = Some(Case::new(self.heap));
        Ok(Answer::Case { name })
    }

    // leaves the case, after a mistake
    pub(crate) fn break_off(&mut self)
        ensures { self.new.case ≡ None }
    {
        self.case = None;
    }
}

fn read_name<'a>(words: &mut Words<'a>) -> Result<&'a str, Expected> {
    let name = words.word("a name")?;
    words.end()?;
    Ok(name)
}
