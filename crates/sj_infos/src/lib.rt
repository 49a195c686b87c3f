//! What the body of a method asks for: the references that decide which classes, fields and bodies a program needs. And the forms of a
//! body for which a class needs code of its own.
#![tactic(auto)]

mod asking;
mod forms;
mod infos;
mod laws;
mod sure;
mod trees;

pub use asking::infos_of;
pub use forms::{BodyForm, forms_of};
pub use infos::{Info, Infos};
pub use laws::worked_bodies;
