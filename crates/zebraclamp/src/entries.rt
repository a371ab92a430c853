mod entry;
mod tables;

pub(crate) use crate::entries::entry::Entry;
pub(crate) use crate::entries::tables::{TableKind, Tables};
