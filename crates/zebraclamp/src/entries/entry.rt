ghost use Rattle.std.specs.Prelude.{◌<◌, IfSome};

use crate::entries::tables::Tables;
use crate::lines::{Expected, Words, numeral_up_to};
use crate::notation::{FactNumber, SetNumber};

// A command that enters something into the draft of a proposal.
#[derive(Clone, Copy)]
pub(crate) enum Entry {
    Row([u16; 32]),
    Mask { label: u8, bits: u16 },
    // more contexts for the label, as bits
    Listed { label: u8, contexts: u16 },
    Fact { set: SetNumber, fact: FactNumber },
    // so many numbers, each by `step` above the one before
    Numbers { first: u32, step: u32, count: u16 },
    Table(Tables),
}

// Each of these reads what stands behind a command's name.
impl Entry {
    // X=B X=B ..
    pub(crate) fn read_row(words: &mut Words<'_>) -> Result<Entry, Expected> {
        let mut row = [0; 32];
        for _ in 0..32 {
            if words.ahead().is_none() {
                break;
            }
            let (variable, birthplace) = words.read(
                "X=B, X below 32 and B from 0 to 65535",
                row_entry,
            )?;
            row[usize::from(variable)] = birthplace;
        }
        Ok(Entry::Row(row))
    }

    // LABEL BITS
    pub(crate) fn read_mask(words: &mut Words<'_>) -> Result<Entry, Expected> {
        let label = words.byte()?;
        let bits = words.size()?;
        Ok(Entry::Mask { label, bits })
    }

    // LABEL CONTEXT CONTEXT ..
    pub(crate) fn read_listed(words: &mut Words<'_>) -> Result<Entry, Expected> {
        let label = words.byte()?;
        let mut contexts = 0;
        for _ in 0..16 {
            if words.ahead().is_none() {
                break;
            }
            contexts |= 1u16 << words.context()?;
        }
        Ok(Entry::Listed { label, contexts })
    }

    // SET FACT
    pub(crate) fn read_fact(words: &mut Words<'_>) -> Result<Entry, Expected> {
        let set = SetNumber::read(words)?;
        let fact = FactNumber::read(words)?;
        Ok(Entry::Fact { set, fact })
    }

    // FIRST [STEP COUNT]
    pub(crate) fn read_numbers(words: &mut Words<'_>) -> Result<Entry, Expected> {
        let first = words.number()?;
        let (step, count) = read_more(words)?;
        Ok(Entry::Numbers { first, step, count })
    }

    // word, list or both
    pub(crate) fn read_table(words: &mut Words<'_>) -> Result<Entry, Expected> {
        Ok(Entry::Table(Tables::read(words)?))
    }
}

fn row_entry(word: &str) -> Option<(u8, u16)>
    ensures { IfSome result (λ entry. entry.0 < 32) }
{
    let (variable, birthplace) = word.split_once('=')?;
    let variable = numeral_up_to(variable, 31)?;
    let birthplace = numeral_up_to(birthplace, 65535)?;
    Some((variable, birthplace))
}

fn read_more(words: &mut Words<'_>) -> Result<(u32, u16), Expected> {
    if words.ahead().is_none() {
        return Ok((0, 1));
    }
    let step = words.number()?;
    let count = words.size()?;
    Ok((step, count))
}
