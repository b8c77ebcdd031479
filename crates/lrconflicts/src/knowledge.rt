//! Whether it is known that a grammar is ambiguous.

ghost use Rattle.std.specs.Prelude.{◌≡◌, IsTrue, ◌↔◌};
ghost use Rattle.lrconflicts.specs.declared.knowledge.Knowledge.TheVariants.{Ambiguous};

/// Whether it is known that the grammar is ambiguous at a conflict.
#[derive(Clone, Copy, Debug, PartialEq, Eq)]
pub enum Knowledge {
    /// It is: a text has two trees, which part at the conflict.
    Ambiguous,
    /// No such text was found in the steps allowed. That doesn't say that there is none.
    NotKnown,
}

impl Knowledge {
    /// That of a conflict for which such a text is found, or is not.
    pub fn of(is_found: bool) -> Knowledge
        ensures { (result ≡ Ambiguous) ↔ IsTrue is_found }
    {
        if is_found {
            Knowledge::Ambiguous
        } else {
            Knowledge::NotKnown
        }
    }
}
