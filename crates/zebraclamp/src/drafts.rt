mod draft;
mod entered;

pub(crate) use crate::drafts::draft::Draft;
pub(crate) use crate::drafts::entered::Entered;
