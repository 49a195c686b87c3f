//! Which helpers the pieces of a linked world use, and that what they throw is reachable.
//!
//! `specs/` says which helpers the code of a body uses. The functions here are laws: they do nothing when they run, and their clauses are theorems.
#![tactic(auto)]

ghost use Rattle.object_helpers.specs.Laws.{BodiesUseObjectHelpers, ThrownClassesAreReached, ArraysExtendAMadeClass};

/// The emitted code of a body uses of all helpers no other than those that what the body asks for allows: a check or a division only where it asks for the exception
/// that this throws, and a helper that makes arrays only where it asks for arrays.
pub fn bodies_use_object_helpers()
    ensures { BodiesUseObjectHelpers }
{}

/// Take a folder that is accepted, the methods of all bodies that are needed, and linked pieces of them. The class that one of their helpers throws is made, and its constructor
/// that takes a message is needed.
pub fn thrown_classes_are_reached()
    ensures { ThrownClassesAreReached }
{}

/// Where the class of arrays is one of their helpers, `java.lang.Object` is made, or the exception of a store is.
pub fn arrays_extend_a_made_class()
    ensures { ArraysExtendAMadeClass }
{}
