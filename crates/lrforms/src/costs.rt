//! What a text costs.

/// What a text costs: first its tokens, and then the reductions of its tree.
#[derive(Clone, Copy, Default, PartialEq, Eq, PartialOrd, Ord)]
pub(crate) struct Cost {
    pub(crate) tokens: usize,
    pub(crate) reductions: usize,
}

impl Cost {
    /// That of a token.
    pub(crate) const TOKEN: Cost = Cost {
        tokens: 1,
        reductions: 0,
    };

    /// That of a node over nothing.
    pub(crate) const NODE: Cost = Cost {
        tokens: 0,
        reductions: 1,
    };

    /// That of both one after the other.
    pub(crate) fn and(self, more: Cost) -> Cost {
        Cost {
            tokens: self.tokens.saturating_add(more.tokens),
            reductions: self.reductions.saturating_add(more.reductions),
        }
    }

    /// That of what is left of the text without a part that costs this.
    pub(crate) fn without(self, part: Cost) -> Cost {
        Cost {
            tokens: self.tokens.saturating_sub(part.tokens),
            reductions: self.reductions.saturating_sub(part.reductions),
        }
    }

    /// How many moves read the text.
    pub(crate) fn moves(self) -> usize {
        self.tokens.saturating_add(self.reductions)
    }
}
