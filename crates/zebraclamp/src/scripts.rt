mod kinds;
mod said;
mod saying;
mod script;

pub(crate) use crate::scripts::said::Said;
pub(crate) use crate::scripts::saying::Saying;
pub(crate) use crate::scripts::script::{Script, Sizes};
