//! FIRST sets and nullable rules.

ghost use Rattle.std.specs.Prelude.{◌≡◌, ◌<◌, length, IfOk};
ghost use Rattle.lrbits.specs.Bits.{bit};
ghost use Rattle.lrgrammar.specs.Firsts.{firsts_of, AreFirstsOf};

mod nullable;
mod rows;

use crate::grammar::YaccGrammar;
use crate::idx::{IndexStorage, RIdx};
use crate::vob::Vob;
use nullable::nullable_rules;
use rows::first_rows;
use std::alloc::AllocError;
use std::marker::{Model, PhantomData};

/// For each rule whether it is nullable, and which tokens begin its bodies.
#[derive(Drop)]
pub struct YaccFirsts<T> {
    nullable: Vob,
    firsts: Vec<Vob>,
    phantom: PhantomData<T>,
}

impl<T> Model for YaccFirsts<T> {
    ghost use Rattle.lrgrammar.specs.Firsts.{Firsts};

    ghost Value = { Firsts };

    ghost use Rattle.lrgrammar.specs.StoredFirsts.{firsts_view};

    ghost view = { firsts_view };
}

impl<T: IndexStorage> YaccFirsts<T> {
    /// One bit a token, set where the token begins a body of the rule.
    pub fn firsts(&self, ridx: RIdx<T>) -> &Vob
        requires { T.number ridx.0 < length self.now.tokens }
        ensures { result.now ≡ firsts_of self.now (T.number ridx.0) }
    {
        &self.firsts[ridx.0.to_usize()]
    }

    /// Whether the rule is nullable.
    pub fn is_epsilon_set(&self, ridx: RIdx<T>) -> bool
        requires { T.number ridx.0 < length self.now.nullable }
        ensures { result ≡ bit self.now.nullable (T.number ridx.0) }
    {
        self.nullable.get(ridx.0.to_usize())
    }
}

impl<T: IndexStorage> YaccGrammar<T> {
    /// The nullable rules and the FIRST sets of the grammar. The error says that memory was
    /// refused.
    pub fn firsts(&self) -> Result<YaccFirsts<T>, AllocError>
        ensures { IfOk result (AreFirstsOf self.now) }
    {
        let nullable = nullable_rules(self)?;
        let firsts = first_rows(self, &nullable)?;
        Ok(YaccFirsts {
            nullable,
            firsts,
            phantom: PhantomData,
        })
    }
}
