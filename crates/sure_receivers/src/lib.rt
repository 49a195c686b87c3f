//! Receivers that are never null, and so need no null check.
//!
//! `specs/` says which receivers of a body are sure: by their form, by their type, or as an immutable local whose right side is sure. The meaning
//! of bodies and what is written for them both go by it. The function here is a law: it does nothing when it runs, and its clause is a row of worked receivers.
#![tactic(auto)]

ghost use Rattle.sure_receivers.specs.Rows.{WorkedReceivers};

/// Worked receivers, and the locals of worked bodies.
pub fn worked_receivers()
    ensures { WorkedReceivers }
{}
