//! The emitted subset of ECMAScript 2020 as a reader takes it: a reader on lists of bytes for every production, and the law that it
//! reads exactly what spells a module and stops exactly where no module goes on.
//!
//! `specs/` has the readers, `proofs/` the law of each of them. The functions here only state what follows for modules.
#![tactic(auto)]

mod laws;
mod words;

pub use laws::{one_module, place_is_exact, read_module_is_spelled, spelled_module_is_read};
pub use words::{
    Head, Infix, ItemHead, LineHead, MemberHead, NewHead, ParenthesisHead, Stage, StatementHead,
};
