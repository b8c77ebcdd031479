//! Grammars without their precedences.

ghost use Rattle.std.specs.Prelude.{◌≡◌, map, IfOk, OnOk, OnErr};
ghost use Rattle.lrspec.specs.tables.LrTables.{HasNoPrecedences};
ghost use Rattle.lrspec.specs.texts.Parts.{grammar_of_parts};
ghost use Rattle.lrtext.specs.StoredParts.{parts_of, token_of};
ghost use Rattle.lrreasons.specs.Precedences.{plain_token, without_precedences};

use lrgrammar::grammar::{GrammarParts, PartToken};
use std::alloc::{AllocError, Global};

/// The tokens without their precedences.
fn plain_tokens(alloc: Global, tokens: &[PartToken]) -> Result<Vec<PartToken>, AllocError>
    ensures { IfOk result (λ v. map token_of v.items ≡ map plain_token (map token_of tokens.now)) }
{
    let mut plain = Vec::new(alloc);
    for token in tokens {
        plain.push(PartToken {
            name: token.name.clone()?,
            precedence: None,
        })?;
    }
    Ok(plain)
}

/// Takes away the precedences of all tokens. The table of the grammar of the parts then lists all conflicts that they settled,
/// and the reasons for these tell what it was that they settled. The error says that memory was refused; the parts are then as
/// they were.
pub fn drop_precedences(alloc: Global, parts: &mut GrammarParts) -> Result<(), AllocError>
    ensures parts { OnOk result (parts_of parts.new ≡ without_precedences (parts_of parts.old)) }
    ensures none { OnOk result (HasNoPrecedences (grammar_of_parts (parts_of parts.new))) }
    ensures kept { OnErr result (parts.new ≡ parts.old) }
{
    parts.tokens = plain_tokens(alloc, &parts.tokens)?;
    Ok(())
}
