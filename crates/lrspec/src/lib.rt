//! LR(1) grammars, item sets, graphs, tables and machines as mathematics: definitions in `specs/`, and
//! the theorems about them in `proofs/`. There is no code here.
#![tactic(auto)]
