mod finder;
mod inquiry;
mod listing;

pub(crate) use crate::inquiries::finder::find;
pub(crate) use crate::inquiries::inquiry::{Inquiry, StoreKind};
pub(crate) use crate::inquiries::listing::Listing;
