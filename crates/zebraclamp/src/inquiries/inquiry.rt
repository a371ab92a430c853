use crate::findings::Sides;
use crate::lines::{Expected, Words};
use std::fmt;

#[derive(Clone, Copy)]
pub(crate) enum StoreKind {
    Deep,
    Shallow,
}

impl fmt::Display for StoreKind {
    fn fmt<W: fmt::Write>(&self, f: &mut fmt::Formatter<W>) -> fmt::Result {
        f.write_str(match self {
            StoreKind::Deep => "deep",
            StoreKind::Shallow => "shallow",
        })
    }
}

// How owners are to be found: over which stores, with how many binding records lent, and into memory of what lengths.
#[derive(Clone, Copy)]
pub(crate) struct Inquiry {
    pub(crate) stores: Sides<StoreKind>,
    pub(crate) records: u16,
    pub(crate) owners: u16,
    pub(crate) captured: u16,
}

impl Inquiry {
    // [deep|shallow] [RECORDS] [output OWNERS [CAPTURED]]
    pub(crate) fn read(words: &mut Words<'_>) -> Result<Inquiry, Expected> {
        let stores = read_stores(words);
        let records = read_records(words)?;
        let (owners, captured) = read_output(words)?;
        Ok(Inquiry {
            stores,
            records,
            owners,
            captured,
        })
    }
}

// both if neither is said
fn read_stores(words: &mut Words<'_>) -> Sides<StoreKind> {
    if words.accept("deep") {
        Sides::One(StoreKind::Deep)
    } else if words.accept("shallow") {
        Sides::One(StoreKind::Shallow)
    } else {
        Sides::Both(StoreKind::Deep, StoreKind::Shallow)
    }
}

fn read_records(words: &mut Words<'_>) -> Result<u16, Expected> {
    match words.ahead() {
        None | Some("output") => Ok(255),
        Some(_) => words.size(),
    }
}

fn read_output(words: &mut Words<'_>) -> Result<(u16, u16), Expected> {
    if !words.accept("output") {
        return Ok((256, 256));
    }
    let owners = words.size()?;
    if words.ahead().is_none() {
        return Ok((owners, owners));
    }
    let captured = words.size()?;
    Ok((owners, captured))
}
