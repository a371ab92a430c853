use crate::findings::Sides;
use crate::lines::{Expected, Words};
use std::fmt;

#[derive(Clone, Copy)]
pub(crate) enum TableKind {
    Word,
    List,
}

impl fmt::Display for TableKind {
    fn fmt<W: fmt::Write>(&self, f: &mut fmt::Formatter<W>) -> fmt::Result {
        f.write_str(match self {
            TableKind::Word => "word",
            TableKind::List => "list",
        })
    }
}

// Over which fact tables a proposal is tried.
#[derive(Clone, Copy)]
pub(crate) struct Tables(pub(crate) Sides<TableKind>);

impl Tables {
    pub(crate) const BOTH: Tables = Tables(Sides::Both(TableKind::Word, TableKind::List));

    pub(crate) fn read(words: &mut Words<'_>) -> Result<Tables, Expected> {
        words.read("word, list or both", Tables::named)
    }

    fn named(word: &str) -> Option<Tables> {
        match word {
            "word" => Some(Tables(Sides::One(TableKind::Word))),
            "list" => Some(Tables(Sides::One(TableKind::List))),
            "both" => Some(Tables::BOTH),
            _ => None,
        }
    }
}

impl fmt::Display for Tables {
    fn fmt<W: fmt::Write>(&self, f: &mut fmt::Formatter<W>) -> fmt::Result {
        match self.0 {
            Sides::One(kind) => write!(f, "{kind}"),
            Sides::Both(..) => f.write_str("both"),
        }
    }
}
