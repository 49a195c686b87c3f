//! Mangling of names, and the names of bindings in the emitted code.
#![tactic(auto)]

mod bindings;
mod laws;
mod mangling;

pub use bindings::{
    ClassBinding, FieldBinding, LocalBinding, MethodBinding, class_binding, field_binding,
    function_name, local_binding, method_binding,
};
pub use laws::{function_names_differ, mangled_texts_differ};
pub use mangling::{mangle, mangle_class, mangle_method};
