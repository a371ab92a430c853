mod answer;
mod case;
mod command;
mod failure;
mod session;
mod tally;

pub(crate) use crate::cases::failure::Failure;
pub(crate) use crate::cases::session::Session;
pub(crate) use crate::cases::tally::Tally;
