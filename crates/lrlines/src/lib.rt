//! Lines read from a device, each answered on another.
#![tactic(auto)]

mod answering;
mod devices;
mod errors;
mod words;

pub use crate::answering::{LineAnswers, answer_lines};
pub use crate::devices::{Counted, DeviceFault, LineRead, LineWrite};
pub use crate::errors::LineError;
pub use crate::words::Words;
