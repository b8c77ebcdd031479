//! Whether a table's machine accepts all sentences of the grammar.

/// What is known of the texts that the machine of a table accepts.
#[derive(Clone, Copy, Debug, PartialEq, Eq)]
pub enum Exactness {
    /// It accepts exactly the sentences.
    Exact,
    /// It accepts sentences alone, and each that it doesn't accept stops at an error for which moves contend.
    ButAtErrors,
    /// It accepts sentences alone. That it accepts them all is not shown, and may not be so.
    Open,
}
