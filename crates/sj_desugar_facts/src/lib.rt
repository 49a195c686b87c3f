//! The code of desugaring: what it asks of a body: which trees are plain, which locals are mutable, and which receivers are never null.
//!
//! `sj_desugar_spec` and `sure_receivers` define them.
#![tactic(auto)]

mod locals;
mod plain;
mod positions;
mod sure;

pub use locals::mutable_locals;
pub use plain::{are_plain, is_fixed, is_no_type, is_plain};
pub use positions::position_of;
pub use sure::{is_sure, sure_locals};
