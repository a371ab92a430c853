use crate::drafts::entered::Entered;
use crate::entries::{Entry, Tables};
use facts::SETS;
use std::alloc::{AllocError, Global};
use std::collections::{BTreeMap, BTreeSet};

// What has been said of a proposal: rows one behind the other, masks by label, facts as the numbers 4608 × set + fact, and numbers that stand in the list table alone.
#[derive(Drop)]
pub(crate) struct Draft {
    heap: Global,
    rows: Vec<u16>,
    masks: BTreeMap<u8, u16>,
    facts: BTreeSet<u32>,
    numbers: Vec<u32>,
    tables: Tables,
}

impl Draft {
    pub(crate) fn new(heap: Global) -> Draft {
        Draft {
            heap,
            rows: Vec::new(heap),
            masks: BTreeMap::new(heap),
            facts: BTreeSet::new(heap),
            numbers: Vec::new(heap),
            tables: Tables::BOTH,
        }
    }

    pub(crate) fn carry_out(&mut self, entry: Entry) -> Result<Entered, AllocError> {
        match entry {
            Entry::Row(row) => {
                let number = self.rows.len() / 32;
                self.rows.extend_from_slice(&row)?;
                Ok(Entered::Row { number, row })
            }
            Entry::Mask { label, bits } => {
                self.set_mask(label, bits)?;
                Ok(Entered::Mask { label, bits })
            }
            Entry::Listed { label, contexts } => {
                let bits = self.mask(label) | contexts;
                self.set_mask(label, bits)?;
                Ok(Entered::Listed { label, bits })
            }
            Entry::Fact { set, fact } => {
                // not by `member_number`: both are known to be numbers, and it answers an Option
                self.facts
                    .insert(u32::from(SETS) * u32::from(set.0) + u32::from(fact.0))?;
                Ok(Entered::Fact { set, fact })
            }
            Entry::Numbers { first, step, count } => {
                let total = self.add_numbers(first, step, count)?;
                Ok(Entered::Numbers { total })
            }
            Entry::Table(tables) => {
                self.tables = tables;
                Ok(Entered::Table(tables))
            }
        }
    }

    fn mask(&self, label: u8) -> u16 {
        self.masks.get(&label).copied().unwrap_or(0)
    }

    fn set_mask(&mut self, label: u8, bits: u16) -> Result<(), AllocError> {
        self.masks.insert(label, bits)?;
        Ok(())
    }

    fn add_numbers(&mut self, first: u32, step: u32, count: u16) -> Result<usize, AllocError> {
        let numbers = (0..count).map(|i| first.wrapping_add(step.wrapping_mul(u32::from(i))));
        self.numbers.extend(numbers)?;
        Ok(self.numbers.len())
    }

    pub(crate) fn tables(&self) -> Tables {
        self.tables
    }

    // the rows, cut off or filled up with 0 where another length is asked
    pub(crate) fn rows(&self, len: Option<usize>) -> Result<Vec<u16>, AllocError> {
        (0..len.unwrap_or(self.rows.len()))
            .map(|i| self.rows.get(i).copied().unwrap_or(0))
            .collect(self.heap)
    }

    // the masks of labels 0 to 255, cut off or filled up with 0
    pub(crate) fn masks(&self, len: usize) -> Result<Vec<u16>, AllocError> {
        (0..len)
            .map(|i| u8::try_from(i).map_or(0, |label| self.mask(label)))
            .collect(self.heap)
    }

    // the word table's words: 72 for each set, cut off or filled up with 0
    pub(crate) fn words(&self, len: usize) -> Result<Vec<u64>, AllocError> {
        let mut words = vec![in self.heap; 0u64; len]?;
        for fact in self.facts.iter() {
            if let Some(word) = words.get_mut((*fact / 64) as usize) {
                *word |= 1u64 << (*fact % 64);
            }
        }
        Ok(words)
    }

    // the list table's numbers: the facts, rising, and then the other numbers
    pub(crate) fn list(&self) -> Result<Vec<u32>, AllocError> {
        let mut list: Vec<u32> = self.facts.iter().copied().collect(self.heap)?;
        list.extend_from_slice(self.numbers.as_slice())?;
        Ok(list)
    }
}
