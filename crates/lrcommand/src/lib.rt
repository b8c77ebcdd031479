//! The commands of the program `lrt`: from its arguments to its exit status, over devices that the caller gives.
#![tactic(auto)]

mod commands;
mod faults;
mod lines;
mod printing;
mod requests;

pub use crate::commands::command;
pub use crate::faults::Fault;
pub use crate::requests::{Command, Listing, Reply, Request, Source, USAGE, requested};
