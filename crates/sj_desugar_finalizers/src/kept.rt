// What a finalizer keeps of the variables around its try.
ghost use Rattle.std.specs.Prelude.{◌≡◌, [], ◌∷◌, ◌++◌, map, IfOk, OnOk};
ghost use Rattle.std.specs.List.{list_any};
ghost use Rattle.sj_core.specs.Views.{variable_view};
ghost use Rattle.sj_desugar_spec.specs.Desugar as desugar;
ghost use Rattle.sj_desugar_spec.specs.Finalizers as specs;
ghost use Rattle.sj_desugar_spec.specs.Spill as spill;
ghost use Rattle.sj_desugar_forms.specs.Views.{code_view, destination_view, target_view};
ghost use Rattle.sj_trees.specs.View.{view};

use crate::walks::{holds_finally, labels_left};
use sj_core::{CoreExpression, CoreStatement, CoreVariable};
use sj_desugar_forms::{
    Destination, Target, Written, copied_variable, joined, nothing, number_behind, one, target_of,
};
use sj_names::NoMemory;
use sj_trees::Tree;
use std::alloc::Global;

/// The variables that a finalizer keeps: none where it holds no try with a finalizer, and else each to which a value goes that a jump out of it
/// brings. Want of memory is the only error.
pub fn kept_in(
    alloc: Global,
    targets: &[Target],
    finalizer: &Tree,
) -> Result<Vec<CoreVariable>, NoMemory>
    ensures { IfOk result (λ xs. map variable_view xs.items ≡ specs.kept (desugar.target_of (map target_view targets.now)) (view finalizer.now)) }
{
    let mut kept = Vec::new(alloc);
    if !holds_finally(finalizer) {
        return Ok(kept);
    }
    let labels = labels_left(alloc, finalizer)?;
    for label in &labels {
        let goes_to = target_of(targets, label)?;
        add_destination(&mut kept, goes_to)?;
    }
    Ok(kept)
}

fn is_same_variable(one: &CoreVariable, other: &CoreVariable) -> bool
    ensures { result ≡ specs.is_same_variable (variable_view one.now) (variable_view other.now) }
{
    match (one, other) {
        (CoreVariable::Local(name), CoreVariable::Local(other_name)) => name.is_same(other_name),
        (CoreVariable::Numbered(number), CoreVariable::Numbered(other_number)) => {
            number == other_number
        }
        (CoreVariable::Receiver, CoreVariable::Receiver) => true,
        _ => false,
    }
}

fn is_kept(kept: &[CoreVariable], variable: &CoreVariable) -> bool
    ensures { result ≡ list_any (specs.is_same_variable (variable_view variable.now)) (map variable_view kept.now) }
{
    for each in kept {
        if is_same_variable(variable, each) {
            return true;
        }
    }
    false
}

// Adds the variable of a destination, where it is one that isn't there yet.
fn add_destination(kept: &mut Vec<CoreVariable>, goes_to: Destination) -> Result<(), NoMemory>
    ensures { OnOk result (map variable_view kept.new.items ≡ map variable_view kept.old.items ++ specs.each_once (map variable_view kept.old.items) (specs.variables_in (destination_view goes_to))) }
{
    match goes_to {
        Destination::Variable(variable, _) => {
            if !is_kept(kept, &variable) {
                kept.push(variable)?;
            }
            Ok(())
        }
        Destination::Discard | Destination::Result(_) => Ok(()),
    }
}

// `const $k = x;`
fn keep(alloc: Global, variable: &CoreVariable, number: u64) -> Result<Written, NoMemory>
    ensures { IfOk result (λ w. code_view w ≡ specs.keep_all (variable_view variable.now ∷ []) number) }
{
    let next = number_behind(number)?;
    let value = CoreExpression::Variable(copied_variable(variable)?);
    let statement = CoreStatement::Constant {
        position: None,
        variable: CoreVariable::Numbered(number),
        value,
    };
    one(alloc, statement, next)
}

/// `const $k = x;` for each of these variables, from this number on. Want of memory is the only error.
#[tactic(auto, using(std::proofs::lemmas::Grind::common_steps, sj_desugar_forms::proofs::Lists::pushes))]
pub fn keep_all(alloc: Global, variables: &[CoreVariable], number: u64) -> Result<Written, NoMemory>
    ensures { IfOk result (λ w. code_view w ≡ specs.keep_all (map variable_view variables.now) number) }
{
    let mut written = nothing(alloc, number);
    for variable in variables {
        let code = keep(alloc, variable, written.next)?;
        written = joined(written, code)?;
    }
    Ok(written)
}

// `x = $k;`
fn give_back(
    alloc: Global,
    variable: &CoreVariable,
    number: u64,
    next: u64,
) -> Result<Written, NoMemory>
    ensures { IfOk result (λ w. code_view w ≡ specs.give_all_back (variable_view variable.now ∷ []) number next) }
{
    let value = CoreExpression::Variable(CoreVariable::Numbered(number));
    let statement = CoreStatement::Assign {
        position: None,
        variable: copied_variable(variable)?,
        value,
    };
    one(alloc, statement, next)
}

// `x = $k;` for each of these variables, from this number on, where `next` is the number of the next variable for an operand.
#[tactic(auto, using(std::proofs::lemmas::Grind::common_steps, sj_desugar_forms::proofs::Lists::pushes))]
fn give_all_back(
    alloc: Global,
    variables: &[CoreVariable],
    number: u64,
    next: u64,
) -> Result<Written, NoMemory>
    ensures { IfOk result (λ w. code_view w ≡ specs.give_all_back (map variable_view variables.now) number next) }
{
    let mut written = nothing(alloc, next);
    let mut from = number;
    for variable in variables {
        let code = give_back(alloc, variable, from, next)?;
        written = joined(written, code)?;
        from = number_behind(from)?;
    }
    Ok(written)
}

/// The code of a finalizer behind what keeps these variables, from this number on, and in front of what gives them back. Want of memory is the only
/// error.
pub fn given_back(
    alloc: Global,
    variables: &[CoreVariable],
    number: u64,
    front: Written,
    code: Written,
) -> Result<Written, NoMemory>
    ensures { IfOk result (λ w. code_view w ≡ spill.joined (spill.joined (code_view front) (code_view code)) (specs.give_all_back (map variable_view variables.now) number code.next)) }
{
    let next = code.next;
    let back = give_all_back(alloc, variables, number, next)?;
    joined(joined(front, code)?, back)
}
