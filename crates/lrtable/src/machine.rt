//! The machine that a state table drives, which accepts or rejects texts.

mod answers;
mod lines;
mod running;
mod runs;

pub use crate::machine::answers::{line_tokens, production_label, production_labels};
pub use crate::machine::lines::run_lines;
pub use crate::machine::running::run;
pub use crate::machine::runs::{Run, Verdict};
pub use lrlines::{
    Counted, DeviceFault, LineAnswers, LineError, LineRead, LineWrite, answer_lines,
};
