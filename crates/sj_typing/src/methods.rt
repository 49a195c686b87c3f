// The check of a method.
ghost use Rattle.std.specs.Prelude.{◌≡◌, IsSome};
ghost use Rattle.sj_names.specs.Counting.{raised};
ghost use Rattle.sj_trees.specs.View.{view};
ghost use Rattle.sj_ask.specs.Answers.{IsAnswer};
ghost use Rattle.sj_typing_spec.specs.Checks as checks;
ghost use Rattle.sj_typing_spec.specs.Answered.{AsRun, agreed, IsVerdict};

use crate::checks::{ask_sub, check};
use sj_ask::{Oracle, TypeError};
use sj_names::Meter;
use sj_trees::{IrType, MethodDef, Tree, type_of};
use std::alloc::Global;

/// Checks the types of a method's body in the world of the oracle. `Ok` exactly where each tree of the body meets the rule of its form and
/// the body yields the method's result; otherwise `Refused` with the first tree that doesn't, children before parents and left to right: the
/// tag of its form and its number, parents first, from 0; or with 0 and 0 where each tree does, and the body doesn't yield the result.
///
/// A number past 32 bits is given as the last of them. The oracle is asked for each type that has to fit another, and for each field, up to
/// the first refusal; the meter counts one more check.
///
/// The condition is that the method has a body. A `Return` to a label that isn't around it breaks the rule of its form, and a field that isn't
/// mutable is set only on This of the type of its class, in a constructor.
pub fn check_method<O: Oracle>(
    alloc: Global,
    m: &MethodDef,
    oracle: &mut O,
    meter: &mut Meter,
) -> Result<(), TypeError>
    requires { IsSome m.now.body }
    ensures stand { O.stand oracle.new ≡ O.stand oracle.old }
    ensures verdict { IsVerdict (O.stand oracle.old).classes m.now result }
    ensures told { AsRun (IsAnswer (O.stand oracle.old)) (checks.check_task m.now m.now.body) (agreed result) (O.told oracle.old) (O.told oracle.new) }
    ensures meter { meter.new ≡ record meter.old { checked = raised meter.old.checked } }
{
    meter.raise_checked();
    match &m.body {
        Some(body) => check_body(alloc, m, body.tree(), oracle),
        None => Ok(()),
    }
}

fn check_body<O: Oracle>(
    alloc: Global,
    m: &MethodDef,
    body: &Tree,
    oracle: &mut O,
) -> Result<(), TypeError>
    ensures stand { O.stand oracle.new ≡ O.stand oracle.old }
    ensures told { AsRun (IsAnswer (O.stand oracle.old)) (checks.body_task m.now.namespace (view body.now) m.now.result) (agreed result) (O.told oracle.old) (O.told oracle.new) }
{
    let mut labels = Vec::new(alloc);
    check(alloc, m.namespace, &mut labels, body, 0, oracle)?;
    check_result(alloc, body, &m.result, oracle)
}

// That the body yields the result.
fn check_result<O: Oracle>(
    alloc: Global,
    body: &Tree,
    result_type: &IrType,
    oracle: &mut O,
) -> Result<(), TypeError>
    ensures stand { O.stand oracle.new ≡ O.stand oracle.old }
    ensures told { AsRun (IsAnswer (O.stand oracle.old)) (checks.ask_result (view body.now) result_type.now) (agreed result) (O.told oracle.old) (O.told oracle.new) }
{
    match result_type {
        IrType::NoType => Ok(()),
        _ => check_yield(alloc, body, result_type, oracle),
    }
}

fn check_yield<O: Oracle>(
    alloc: Global,
    body: &Tree,
    wanted: &IrType,
    oracle: &mut O,
) -> Result<(), TypeError>
    ensures stand { O.stand oracle.new ≡ O.stand oracle.old }
    ensures told { AsRun (IsAnswer (O.stand oracle.old)) (checks.ask_wanted (view body.now) wanted.now) (agreed result) (O.told oracle.old) (O.told oracle.new) }
{
    let tpe = type_of(alloc, body)?;
    if ask_sub(alloc, &tpe, wanted, oracle)? {
        Ok(())
    } else {
        Err(TypeError::Refused { rule: 0, place: 0 })
    }
}
