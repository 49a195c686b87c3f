// Trees.
ghost use Rattle.std.specs.Prelude.{◌≡◌, [], ◌∷◌, ◌++◌, ◌==◌, IfOk, IfErr, codes, map};
ghost use Rattle.exact_place.specs.Reading.{after_at, lead_at, list_at, literal_at, value_at};
ghost use Rattle.sj_trees.specs.View.{view, view_case, terms_view, cases_view};
ghost use Rattle.text_scan.specs.Gives.{Gives};
ghost use Rattle.sj_text_spec.specs.Reading as reading;
ghost use Rattle.sj_trees.specs.declared.forms.StatementForm.TheVariants as statements;
ghost use Rattle.sj_trees.specs.declared.forms.BranchForm.TheVariants as branches;
ghost use Rattle.sj_trees.specs.declared.forms.CallForm.TheVariants as calls;
ghost use Rattle.sj_trees.specs.declared.forms.OperationForm.TheVariants as operations;

use crate::forms::{NOWHERE, Read, ended_tree, leaf_of};
use sj_names::Items;
use sj_text_parts::{
    Part, array_field, binary_field, bracketed_of, class_field, field_field, form_of, label_field,
    mark_field, method_field, name_field, namespace_field, type_field, unary_field,
};
use sj_text_scan::int_of;
use sj_trees::{BranchForm, CallForm, Form, MatchCase, OperationForm, StatementForm, Tree};
use std::alloc::Global;
use text_scan::{Stop, literal, next_is};

/// A list of this alone.
fn one<T: Drop>(alloc: Global, value: T) -> Result<Vec<T>, Stop>
    ensures alone { IfOk result (λ values. values.items ≡ value ∷ []) }
    ensures memory { IfErr result (λ e. e ≡ Stop.NoMemory) }
{
    let mut values = Vec::new(alloc);
    values.push(value)?;
    Ok(values)
}

/// Both lists as one, behind the closing bracket.
fn closed<'a, T: Drop>(
    first: Vec<T>,
    others: Vec<T>,
    bytes: &'a [u8],
) -> Result<(Vec<T>, &'a [u8]), Stop>
    ensures after { Gives (λ x. (tt, x.1.now)) result (literal_at (codes "]") bytes.now) }
    ensures all { IfOk result (λ x. x.0.items ≡ first.items ++ others.items) }
{
    let rest = literal(b"]", bytes)?;
    let mut all = first;
    let mut others = others;
    all.append(&mut others)?;
    Ok((all, rest))
}

/// The value, behind the closing parenthesis.
pub fn ended<'a, T: Drop>(value: T, bytes: &'a [u8]) -> Result<(T, &'a [u8]), Stop>
    ensures { Gives (λ x. (x.0, x.1.now)) result (reading.close_at value bytes.now) }
{
    let rest = literal(b")", bytes)?;
    Ok((value, rest))
}

/// The case, behind the closing parenthesis.
fn ended_case<'a>(case: MatchCase, bytes: &'a [u8]) -> Result<(MatchCase, &'a [u8]), Stop>
    ensures { Gives (λ x. (view_case x.0, x.1.now)) result (reading.close_at (view_case case) bytes.now) }
{
    let rest = literal(b")", bytes)?;
    Ok((case, rest))
}

/// A tree, read with this much fuel.
#[cycle(trees)]
pub fn tree_of<'a>(alloc: Global, fuel: usize, bytes: &'a [u8]) -> Read<'a>
    ensures { Gives (λ x. (view x.0, x.1.now)) result (reading.tree_at fuel bytes.now) }
{
    if fuel == 0 {
        return Err(Stop::Bad(bytes.len()));
    }
    level_of(alloc, fuel - 1, bytes)
}

/// A tree whose own trees are read with this much fuel.
#[cycle(trees)]
#[tactic(auto, unfolding(sj_text_spec::specs::Reading::tree_level))]
fn level_of<'a>(alloc: Global, fuel: usize, bytes: &'a [u8]) -> Read<'a>
    ensures { Gives (λ x. (view x.0, x.1.now)) result (reading.tree_level (reading.tree_at fuel) fuel bytes.now) }
{
    let rest = literal(b"(", bytes)?;
    let (form, rest) = form_of(rest)?;
    fields_of(alloc, fuel, form, rest)
}

/// The fields of a form, behind its name.
#[cycle(trees)]
#[tactic(auto, unfolding(sj_text_spec::specs::Reading::fields_at))]
fn fields_of<'a>(alloc: Global, fuel: usize, form: Form, bytes: &'a [u8]) -> Read<'a>
    ensures { Gives (λ x. (view x.0, x.1.now)) result (reading.fields_at (reading.tree_at fuel) fuel form bytes.now) }
{
    match form {
        Form::Leaf(form) => leaf_of(alloc, fuel, form, bytes),
        Form::Statement(form) => statement_of(alloc, fuel, form, bytes),
        Form::Branch(form) => branch_of(alloc, fuel, form, bytes),
        Form::Call(form) => call_of(alloc, fuel, form, bytes),
        Form::Operation(form) => operation_of(alloc, fuel, form, bytes),
    }
}

/// A tree behind a space.
#[cycle(trees)]
fn tree_field<'a>(alloc: Global, fuel: usize, bytes: &'a [u8]) -> Read<'a>
    ensures { Gives (λ x. (view x.0, x.1.now)) result (lead_at (codes " ") (reading.tree_at fuel) bytes.now) }
{
    tree_of(alloc, fuel, literal(b" ", bytes)?)
}

/// A tree behind a space, boxed.
#[cycle(trees)]
fn boxed_field<'a>(
    alloc: Global,
    fuel: usize,
    bytes: &'a [u8],
) -> Result<(Box<Tree>, &'a [u8]), Stop>
    ensures { Gives (λ x. (view x.0.value, x.1.now)) result (lead_at (codes " ") (reading.tree_at fuel) bytes.now) }
{
    let (tree, rest) = tree_field(alloc, fuel, bytes)?;
    Ok((Box::new(alloc, tree)?, rest))
}

/// The second and later trees in brackets, each behind a space.
#[cycle(trees)]
fn more_trees_of<'a>(
    alloc: Global,
    fuel: usize,
    bytes: &'a [u8],
) -> Result<(Vec<Tree>, &'a [u8]), Stop>
    ensures { Gives (λ x. (map view x.0.items, x.1.now)) result (list_at fuel (λ c. c == 32) (lead_at (codes " ") (reading.tree_at fuel)) bytes.now) }
{
    let mut trees = Vec::new(alloc);
    let mut rest = bytes;
    for _ in 0..fuel {
        if !next_is(b' ', rest) {
            return Ok((trees, rest));
        }
        let (tree, after) = tree_field(alloc, fuel, rest)?;
        trees.push(tree)?;
        rest = after;
    }
    Err(Stop::Bad(rest.len()))
}

/// Trees in brackets behind the opening one, one at least.
#[cycle(trees)]
fn some_trees_of<'a>(
    alloc: Global,
    fuel: usize,
    bytes: &'a [u8],
) -> Result<(Vec<Tree>, &'a [u8]), Stop>
    ensures { Gives (λ x. (map view x.0.items, x.1.now)) result (after_at (reading.tree_at fuel) (λ x. after_at (list_at fuel (λ c. c == 32) (lead_at (codes " ") (reading.tree_at fuel))) (λ xs. lead_at (codes "]") (value_at (x ∷ xs)))) bytes.now) }
{
    let (first, rest) = tree_of(alloc, fuel, bytes)?;
    let first = one(alloc, first)?;
    let (others, rest) = more_trees_of(alloc, fuel, rest)?;
    let (trees, rest) = closed(first, others, rest)?;
    Ok((trees, rest))
}

/// Trees in brackets.
#[cycle(trees)]
#[tactic(auto, unfolding(sj_text_spec::specs::Reading::bracketed_at))]
fn trees_of<'a>(alloc: Global, fuel: usize, bytes: &'a [u8]) -> Result<(Vec<Tree>, &'a [u8]), Stop>
    ensures { Gives (λ x. (map view x.0.items, x.1.now)) result (reading.bracketed_at fuel (reading.tree_at fuel) bytes.now) }
{
    let rest = literal(b"[", bytes)?;
    if next_is(b']', rest) {
        let rest = literal(b"]", rest)?;
        Ok((Vec::new(alloc), rest))
    } else {
        some_trees_of(alloc, fuel, rest)
    }
}

/// Trees in brackets behind a space.
#[cycle(trees)]
#[tactic(auto, unfolding(sj_text_spec::specs::Reading::trees_at))]
fn trees_field<'a>(
    alloc: Global,
    fuel: usize,
    bytes: &'a [u8],
) -> Result<(Vec<Tree>, &'a [u8]), Stop>
    ensures { Gives (λ x. (terms_view x.0.items, x.1.now)) result (lead_at (codes " ") (reading.trees_at (reading.tree_at fuel) fuel) bytes.now) }
{
    trees_of(alloc, fuel, literal(b" ", bytes)?)
}

// A key of a case.
#[derive(Drop)]
struct KeyPart;

impl Part for KeyPart {
    ghost use Rattle.std.specs.Prelude.{ℤ, ◌^◌};
    ghost use Rattle.sj_text_spec.specs.Reading.{integer_at};

    type Value = i32;

    ghost Seen = { ℤ };

    ghost seen = { λ k. k };

    ghost reading = { λ _. integer_at (2 ^ 31) };

    fn read<'a>(&self, _alloc: Global, bytes: &'a [u8]) -> Result<(i32, &'a [u8]), Stop> {
        int_of(bytes)
    }
}

/// A case: its keys and its tree.
#[cycle(trees)]
#[tactic(auto, unfolding(sj_text_spec::specs::Reading::case_at))]
fn case_of<'a>(alloc: Global, fuel: usize, bytes: &'a [u8]) -> Result<(MatchCase, &'a [u8]), Stop>
    ensures { Gives (λ x. (view_case x.0, x.1.now)) result (reading.case_at (reading.tree_at fuel) fuel bytes.now) }
{
    let rest = literal(b"(", bytes)?;
    let (keys, rest) = bracketed_of(alloc, fuel, &KeyPart, rest)?;
    let (body, rest) = tree_field(alloc, fuel, rest)?;
    ended_case(
        MatchCase {
            keys: Items::from_vec(keys),
            body,
        },
        rest,
    )
}

/// A case behind a space.
#[cycle(trees)]
fn spaced_case<'a>(
    alloc: Global,
    fuel: usize,
    bytes: &'a [u8],
) -> Result<(MatchCase, &'a [u8]), Stop>
    ensures { Gives (λ x. (view_case x.0, x.1.now)) result (lead_at (codes " ") (reading.case_at (reading.tree_at fuel) fuel) bytes.now) }
{
    case_of(alloc, fuel, literal(b" ", bytes)?)
}

/// The second and later cases in brackets, each behind a space.
#[cycle(trees)]
fn more_cases_of<'a>(
    alloc: Global,
    fuel: usize,
    bytes: &'a [u8],
) -> Result<(Vec<MatchCase>, &'a [u8]), Stop>
    ensures { Gives (λ x. (map view_case x.0.items, x.1.now)) result (list_at fuel (λ c. c == 32) (lead_at (codes " ") (reading.case_at (reading.tree_at fuel) fuel)) bytes.now) }
{
    let mut cases = Vec::new(alloc);
    let mut rest = bytes;
    for _ in 0..fuel {
        if !next_is(b' ', rest) {
            return Ok((cases, rest));
        }
        let (case, after) = spaced_case(alloc, fuel, rest)?;
        cases.push(case)?;
        rest = after;
    }
    Err(Stop::Bad(rest.len()))
}

/// Cases in brackets behind the opening one, one at least.
#[cycle(trees)]
fn some_cases_of<'a>(
    alloc: Global,
    fuel: usize,
    bytes: &'a [u8],
) -> Result<(Vec<MatchCase>, &'a [u8]), Stop>
    ensures { Gives (λ x. (map view_case x.0.items, x.1.now)) result (after_at (reading.case_at (reading.tree_at fuel) fuel) (λ x. after_at (list_at fuel (λ c. c == 32) (lead_at (codes " ") (reading.case_at (reading.tree_at fuel) fuel))) (λ xs. lead_at (codes "]") (value_at (x ∷ xs)))) bytes.now) }
{
    let (first, rest) = case_of(alloc, fuel, bytes)?;
    let first = one(alloc, first)?;
    let (others, rest) = more_cases_of(alloc, fuel, rest)?;
    let (cases, rest) = closed(first, others, rest)?;
    Ok((cases, rest))
}

/// Cases in brackets.
#[cycle(trees)]
#[tactic(auto, unfolding(sj_text_spec::specs::Reading::bracketed_at))]
fn cases_of<'a>(
    alloc: Global,
    fuel: usize,
    bytes: &'a [u8],
) -> Result<(Vec<MatchCase>, &'a [u8]), Stop>
    ensures { Gives (λ x. (map view_case x.0.items, x.1.now)) result (reading.bracketed_at fuel (reading.case_at (reading.tree_at fuel) fuel) bytes.now) }
{
    let rest = literal(b"[", bytes)?;
    if next_is(b']', rest) {
        let rest = literal(b"]", rest)?;
        Ok((Vec::new(alloc), rest))
    } else {
        some_cases_of(alloc, fuel, rest)
    }
}

/// Cases in brackets behind a space.
#[cycle(trees)]
#[tactic(auto, unfolding(sj_text_spec::specs::Reading::cases_at))]
fn cases_field<'a>(
    alloc: Global,
    fuel: usize,
    bytes: &'a [u8],
) -> Result<(Vec<MatchCase>, &'a [u8]), Stop>
    ensures { Gives (λ x. (cases_view x.0.items, x.1.now)) result (lead_at (codes " ") (reading.cases_at (reading.tree_at fuel) fuel) bytes.now) }
{
    cases_of(alloc, fuel, literal(b" ", bytes)?)
}

#[cycle(trees)]
#[tactic(auto, unfolding(sj_text_spec::specs::Reading::statement_at))]
fn var_def_of<'a>(alloc: Global, fuel: usize, bytes: &'a [u8]) -> Read<'a>
    ensures { Gives (λ x. (view x.0, x.1.now)) result (reading.statement_at (reading.tree_at fuel) fuel statements.VarDef bytes.now) }
{
    let (name, rest) = name_field(alloc, fuel, bytes)?;
    let (tpe, rest) = type_field(alloc, fuel, rest)?;
    let (mutable, rest) = mark_field(rest)?;
    let (value, rest) = boxed_field(alloc, fuel, rest)?;
    ended_tree(
        Tree::VarDef {
            position: NOWHERE,
            name,
            tpe,
            mutable,
            value,
        },
        rest,
    )
}

#[cycle(trees)]
#[tactic(auto, unfolding(sj_text_spec::specs::Reading::statement_at))]
fn block_of<'a>(alloc: Global, fuel: usize, bytes: &'a [u8]) -> Read<'a>
    ensures { Gives (λ x. (view x.0, x.1.now)) result (reading.statement_at (reading.tree_at fuel) fuel statements.Block bytes.now) }
{
    let (trees, rest) = trees_field(alloc, fuel, bytes)?;
    ended_tree(
        Tree::Block {
            position: NOWHERE,
            trees,
        },
        rest,
    )
}

#[cycle(trees)]
#[tactic(auto, unfolding(sj_text_spec::specs::Reading::statement_at))]
fn labeled_of<'a>(alloc: Global, fuel: usize, bytes: &'a [u8]) -> Read<'a>
    ensures { Gives (λ x. (view x.0, x.1.now)) result (reading.statement_at (reading.tree_at fuel) fuel statements.Labeled bytes.now) }
{
    let (label, rest) = label_field(alloc, fuel, bytes)?;
    let (tpe, rest) = type_field(alloc, fuel, rest)?;
    let (body, rest) = boxed_field(alloc, fuel, rest)?;
    ended_tree(
        Tree::Labeled {
            position: NOWHERE,
            label,
            tpe,
            body,
        },
        rest,
    )
}

#[cycle(trees)]
#[tactic(auto, unfolding(sj_text_spec::specs::Reading::statement_at))]
fn assign_of<'a>(alloc: Global, fuel: usize, bytes: &'a [u8]) -> Read<'a>
    ensures { Gives (λ x. (view x.0, x.1.now)) result (reading.statement_at (reading.tree_at fuel) fuel statements.Assign bytes.now) }
{
    let (target, rest) = boxed_field(alloc, fuel, bytes)?;
    let (value, rest) = boxed_field(alloc, fuel, rest)?;
    ended_tree(
        Tree::Assign {
            position: NOWHERE,
            target,
            value,
        },
        rest,
    )
}

#[cycle(trees)]
#[tactic(auto, unfolding(sj_text_spec::specs::Reading::statement_at))]
fn return_of<'a>(alloc: Global, fuel: usize, bytes: &'a [u8]) -> Read<'a>
    ensures { Gives (λ x. (view x.0, x.1.now)) result (reading.statement_at (reading.tree_at fuel) fuel statements.Return bytes.now) }
{
    let (value, rest) = boxed_field(alloc, fuel, bytes)?;
    let (label, rest) = label_field(alloc, fuel, rest)?;
    ended_tree(
        Tree::Return {
            position: NOWHERE,
            value,
            label,
        },
        rest,
    )
}

#[cycle(trees)]
#[tactic(auto, unfolding(sj_text_spec::specs::Reading::statement_at))]
fn throw_of<'a>(alloc: Global, fuel: usize, bytes: &'a [u8]) -> Read<'a>
    ensures { Gives (λ x. (view x.0, x.1.now)) result (reading.statement_at (reading.tree_at fuel) fuel statements.Throw bytes.now) }
{
    let (value, rest) = boxed_field(alloc, fuel, bytes)?;
    ended_tree(
        Tree::Throw {
            position: NOWHERE,
            value,
        },
        rest,
    )
}

#[cycle(trees)]
#[tactic(auto, unfolding(sj_text_spec::specs::Reading::statement_at))]
fn store_module_of<'a>(alloc: Global, fuel: usize, bytes: &'a [u8]) -> Read<'a>
    ensures { Gives (λ x. (view x.0, x.1.now)) result (reading.statement_at (reading.tree_at fuel) fuel statements.StoreModule bytes.now) }
{
    let (class, rest) = class_field(alloc, fuel, bytes)?;
    let (value, rest) = boxed_field(alloc, fuel, rest)?;
    ended_tree(
        Tree::StoreModule {
            position: NOWHERE,
            class,
            value,
        },
        rest,
    )
}

#[cycle(trees)]
#[tactic(auto, unfolding(sj_text_spec::specs::Reading::statement_at))]
fn log_of<'a>(alloc: Global, fuel: usize, bytes: &'a [u8]) -> Read<'a>
    ensures { Gives (λ x. (view x.0, x.1.now)) result (reading.statement_at (reading.tree_at fuel) fuel statements.Log bytes.now) }
{
    let (value, rest) = boxed_field(alloc, fuel, bytes)?;
    ended_tree(
        Tree::Log {
            position: NOWHERE,
            value,
        },
        rest,
    )
}

/// A form that sets, leaves, throws or writes, or holds statements in a row.
#[cycle(trees)]
#[tactic(auto, unfolding(sj_text_spec::specs::Reading::statement_at))]
fn statement_of<'a>(alloc: Global, fuel: usize, form: StatementForm, bytes: &'a [u8]) -> Read<'a>
    ensures { Gives (λ x. (view x.0, x.1.now)) result (reading.statement_at (reading.tree_at fuel) fuel form bytes.now) }
{
    match form {
        StatementForm::VarDef => var_def_of(alloc, fuel, bytes),
        StatementForm::Block => block_of(alloc, fuel, bytes),
        StatementForm::Labeled => labeled_of(alloc, fuel, bytes),
        StatementForm::Assign => assign_of(alloc, fuel, bytes),
        StatementForm::Return => return_of(alloc, fuel, bytes),
        StatementForm::Throw => throw_of(alloc, fuel, bytes),
        StatementForm::StoreModule => store_module_of(alloc, fuel, bytes),
        StatementForm::Log => log_of(alloc, fuel, bytes),
    }
}

#[cycle(trees)]
#[tactic(auto, unfolding(sj_text_spec::specs::Reading::branch_at))]
fn if_of<'a>(alloc: Global, fuel: usize, bytes: &'a [u8]) -> Read<'a>
    ensures { Gives (λ x. (view x.0, x.1.now)) result (reading.branch_at (reading.tree_at fuel) fuel branches.If bytes.now) }
{
    let (condition, rest) = boxed_field(alloc, fuel, bytes)?;
    let (consequent, rest) = boxed_field(alloc, fuel, rest)?;
    let (alternative, rest) = boxed_field(alloc, fuel, rest)?;
    let (tpe, rest) = type_field(alloc, fuel, rest)?;
    ended_tree(
        Tree::If {
            position: NOWHERE,
            condition,
            yes: consequent,
            no: alternative,
            tpe,
        },
        rest,
    )
}

#[cycle(trees)]
#[tactic(auto, unfolding(sj_text_spec::specs::Reading::branch_at))]
fn while_of<'a>(alloc: Global, fuel: usize, bytes: &'a [u8]) -> Read<'a>
    ensures { Gives (λ x. (view x.0, x.1.now)) result (reading.branch_at (reading.tree_at fuel) fuel branches.While bytes.now) }
{
    let (condition, rest) = boxed_field(alloc, fuel, bytes)?;
    let (body, rest) = boxed_field(alloc, fuel, rest)?;
    ended_tree(
        Tree::While {
            position: NOWHERE,
            condition,
            body,
        },
        rest,
    )
}

#[cycle(trees)]
#[tactic(auto, unfolding(sj_text_spec::specs::Reading::branch_at))]
fn do_while_of<'a>(alloc: Global, fuel: usize, bytes: &'a [u8]) -> Read<'a>
    ensures { Gives (λ x. (view x.0, x.1.now)) result (reading.branch_at (reading.tree_at fuel) fuel branches.DoWhile bytes.now) }
{
    let (body, rest) = boxed_field(alloc, fuel, bytes)?;
    let (condition, rest) = boxed_field(alloc, fuel, rest)?;
    ended_tree(
        Tree::DoWhile {
            position: NOWHERE,
            body,
            condition,
        },
        rest,
    )
}

#[cycle(trees)]
#[tactic(auto, unfolding(sj_text_spec::specs::Reading::branch_at))]
fn try_catch_of<'a>(alloc: Global, fuel: usize, bytes: &'a [u8]) -> Read<'a>
    ensures { Gives (λ x. (view x.0, x.1.now)) result (reading.branch_at (reading.tree_at fuel) fuel branches.TryCatch bytes.now) }
{
    let (block, rest) = boxed_field(alloc, fuel, bytes)?;
    let (name, rest) = name_field(alloc, fuel, rest)?;
    let (handler, rest) = boxed_field(alloc, fuel, rest)?;
    let (tpe, rest) = type_field(alloc, fuel, rest)?;
    ended_tree(
        Tree::TryCatch {
            position: NOWHERE,
            block,
            name,
            handler,
            tpe,
        },
        rest,
    )
}

#[cycle(trees)]
#[tactic(auto, unfolding(sj_text_spec::specs::Reading::branch_at))]
fn try_finally_of<'a>(alloc: Global, fuel: usize, bytes: &'a [u8]) -> Read<'a>
    ensures { Gives (λ x. (view x.0, x.1.now)) result (reading.branch_at (reading.tree_at fuel) fuel branches.TryFinally bytes.now) }
{
    let (block, rest) = boxed_field(alloc, fuel, bytes)?;
    let (finalizer, rest) = boxed_field(alloc, fuel, rest)?;
    ended_tree(
        Tree::TryFinally {
            position: NOWHERE,
            block,
            finalizer,
        },
        rest,
    )
}

#[cycle(trees)]
#[tactic(auto, unfolding(sj_text_spec::specs::Reading::branch_at))]
fn match_of<'a>(alloc: Global, fuel: usize, bytes: &'a [u8]) -> Read<'a>
    ensures { Gives (λ x. (view x.0, x.1.now)) result (reading.branch_at (reading.tree_at fuel) fuel branches.Match bytes.now) }
{
    let (selector, rest) = boxed_field(alloc, fuel, bytes)?;
    let (cases, rest) = cases_field(alloc, fuel, rest)?;
    let (default, rest) = boxed_field(alloc, fuel, rest)?;
    let (tpe, rest) = type_field(alloc, fuel, rest)?;
    ended_tree(
        Tree::Match {
            position: NOWHERE,
            selector,
            cases,
            default,
            tpe,
        },
        rest,
    )
}

/// A form that chooses, repeats or catches.
#[cycle(trees)]
#[tactic(auto, unfolding(sj_text_spec::specs::Reading::branch_at))]
fn branch_of<'a>(alloc: Global, fuel: usize, form: BranchForm, bytes: &'a [u8]) -> Read<'a>
    ensures { Gives (λ x. (view x.0, x.1.now)) result (reading.branch_at (reading.tree_at fuel) fuel form bytes.now) }
{
    match form {
        BranchForm::If => if_of(alloc, fuel, bytes),
        BranchForm::While => while_of(alloc, fuel, bytes),
        BranchForm::DoWhile => do_while_of(alloc, fuel, bytes),
        BranchForm::TryCatch => try_catch_of(alloc, fuel, bytes),
        BranchForm::TryFinally => try_finally_of(alloc, fuel, bytes),
        BranchForm::Match => match_of(alloc, fuel, bytes),
    }
}

#[cycle(trees)]
#[tactic(auto, unfolding(sj_text_spec::specs::Reading::call_at))]
fn new_of<'a>(alloc: Global, fuel: usize, bytes: &'a [u8]) -> Read<'a>
    ensures { Gives (λ x. (view x.0, x.1.now)) result (reading.call_at (reading.tree_at fuel) fuel calls.New bytes.now) }
{
    let (class, rest) = class_field(alloc, fuel, bytes)?;
    let (method, rest) = method_field(alloc, fuel, rest)?;
    let (arguments, rest) = trees_field(alloc, fuel, rest)?;
    ended_tree(
        Tree::New {
            position: NOWHERE,
            class,
            constructor: method,
            arguments,
        },
        rest,
    )
}

#[cycle(trees)]
#[tactic(auto, unfolding(sj_text_spec::specs::Reading::call_at))]
fn select_of<'a>(alloc: Global, fuel: usize, bytes: &'a [u8]) -> Read<'a>
    ensures { Gives (λ x. (view x.0, x.1.now)) result (reading.call_at (reading.tree_at fuel) fuel calls.Select bytes.now) }
{
    let (qualifier, rest) = boxed_field(alloc, fuel, bytes)?;
    let (class, rest) = class_field(alloc, fuel, rest)?;
    let (field, rest) = field_field(alloc, fuel, rest)?;
    let (tpe, rest) = type_field(alloc, fuel, rest)?;
    ended_tree(
        Tree::Select {
            position: NOWHERE,
            object: qualifier,
            class,
            field,
            tpe,
        },
        rest,
    )
}

#[cycle(trees)]
#[tactic(auto, unfolding(sj_text_spec::specs::Reading::call_at))]
fn apply_of<'a>(alloc: Global, fuel: usize, bytes: &'a [u8]) -> Read<'a>
    ensures { Gives (λ x. (view x.0, x.1.now)) result (reading.call_at (reading.tree_at fuel) fuel calls.Apply bytes.now) }
{
    let (receiver, rest) = boxed_field(alloc, fuel, bytes)?;
    let (method, rest) = method_field(alloc, fuel, rest)?;
    let (arguments, rest) = trees_field(alloc, fuel, rest)?;
    let (tpe, rest) = type_field(alloc, fuel, rest)?;
    ended_tree(
        Tree::Apply {
            position: NOWHERE,
            receiver,
            method,
            arguments,
            tpe,
        },
        rest,
    )
}

#[cycle(trees)]
#[tactic(auto, unfolding(sj_text_spec::specs::Reading::call_at))]
fn apply_statically_of<'a>(alloc: Global, fuel: usize, bytes: &'a [u8]) -> Read<'a>
    ensures { Gives (λ x. (view x.0, x.1.now)) result (reading.call_at (reading.tree_at fuel) fuel calls.ApplyStatically bytes.now) }
{
    let (receiver, rest) = boxed_field(alloc, fuel, bytes)?;
    let (class, rest) = class_field(alloc, fuel, rest)?;
    let (namespace, rest) = namespace_field(rest)?;
    let (method, rest) = method_field(alloc, fuel, rest)?;
    let (arguments, rest) = trees_field(alloc, fuel, rest)?;
    let (tpe, rest) = type_field(alloc, fuel, rest)?;
    ended_tree(
        Tree::ApplyStatically {
            position: NOWHERE,
            receiver,
            class,
            namespace,
            method,
            arguments,
            tpe,
        },
        rest,
    )
}

#[cycle(trees)]
#[tactic(auto, unfolding(sj_text_spec::specs::Reading::call_at))]
fn apply_static_of<'a>(alloc: Global, fuel: usize, bytes: &'a [u8]) -> Read<'a>
    ensures { Gives (λ x. (view x.0, x.1.now)) result (reading.call_at (reading.tree_at fuel) fuel calls.ApplyStatic bytes.now) }
{
    let (class, rest) = class_field(alloc, fuel, bytes)?;
    let (namespace, rest) = namespace_field(rest)?;
    let (method, rest) = method_field(alloc, fuel, rest)?;
    let (arguments, rest) = trees_field(alloc, fuel, rest)?;
    let (tpe, rest) = type_field(alloc, fuel, rest)?;
    ended_tree(
        Tree::ApplyStatic {
            position: NOWHERE,
            class,
            namespace,
            method,
            arguments,
            tpe,
        },
        rest,
    )
}

/// A form that calls a method or reads a field of an object.
#[cycle(trees)]
#[tactic(auto, unfolding(sj_text_spec::specs::Reading::call_at))]
fn call_of<'a>(alloc: Global, fuel: usize, form: CallForm, bytes: &'a [u8]) -> Read<'a>
    ensures { Gives (λ x. (view x.0, x.1.now)) result (reading.call_at (reading.tree_at fuel) fuel form bytes.now) }
{
    match form {
        CallForm::New => new_of(alloc, fuel, bytes),
        CallForm::Select => select_of(alloc, fuel, bytes),
        CallForm::Apply => apply_of(alloc, fuel, bytes),
        CallForm::ApplyStatically => apply_statically_of(alloc, fuel, bytes),
        CallForm::ApplyStatic => apply_static_of(alloc, fuel, bytes),
    }
}

#[cycle(trees)]
#[tactic(auto, unfolding(sj_text_spec::specs::Reading::operation_at))]
fn unary_op_of<'a>(alloc: Global, fuel: usize, bytes: &'a [u8]) -> Read<'a>
    ensures { Gives (λ x. (view x.0, x.1.now)) result (reading.operation_at (reading.tree_at fuel) fuel operations.UnaryOp bytes.now) }
{
    let (operator, rest) = unary_field(bytes)?;
    let (operand, rest) = boxed_field(alloc, fuel, rest)?;
    ended_tree(
        Tree::UnaryOp {
            position: NOWHERE,
            operator,
            operand,
        },
        rest,
    )
}

#[cycle(trees)]
#[tactic(auto, unfolding(sj_text_spec::specs::Reading::operation_at))]
fn binary_op_of<'a>(alloc: Global, fuel: usize, bytes: &'a [u8]) -> Read<'a>
    ensures { Gives (λ x. (view x.0, x.1.now)) result (reading.operation_at (reading.tree_at fuel) fuel operations.BinaryOp bytes.now) }
{
    let (operator, rest) = binary_field(bytes)?;
    let (left, rest) = boxed_field(alloc, fuel, rest)?;
    let (right, rest) = boxed_field(alloc, fuel, rest)?;
    ended_tree(
        Tree::BinaryOp {
            position: NOWHERE,
            operator,
            left,
            right,
        },
        rest,
    )
}

#[cycle(trees)]
#[tactic(auto, unfolding(sj_text_spec::specs::Reading::operation_at))]
fn new_array_of<'a>(alloc: Global, fuel: usize, bytes: &'a [u8]) -> Read<'a>
    ensures { Gives (λ x. (view x.0, x.1.now)) result (reading.operation_at (reading.tree_at fuel) fuel operations.NewArray bytes.now) }
{
    let (array, rest) = array_field(alloc, fuel, bytes)?;
    let (length, rest) = boxed_field(alloc, fuel, rest)?;
    ended_tree(
        Tree::NewArray {
            position: NOWHERE,
            array,
            length,
        },
        rest,
    )
}

#[cycle(trees)]
#[tactic(auto, unfolding(sj_text_spec::specs::Reading::operation_at))]
fn array_value_of<'a>(alloc: Global, fuel: usize, bytes: &'a [u8]) -> Read<'a>
    ensures { Gives (λ x. (view x.0, x.1.now)) result (reading.operation_at (reading.tree_at fuel) fuel operations.ArrayValue bytes.now) }
{
    let (array, rest) = array_field(alloc, fuel, bytes)?;
    let (items, rest) = trees_field(alloc, fuel, rest)?;
    ended_tree(
        Tree::ArrayValue {
            position: NOWHERE,
            array,
            items,
        },
        rest,
    )
}

#[cycle(trees)]
#[tactic(auto, unfolding(sj_text_spec::specs::Reading::operation_at))]
fn array_length_of<'a>(alloc: Global, fuel: usize, bytes: &'a [u8]) -> Read<'a>
    ensures { Gives (λ x. (view x.0, x.1.now)) result (reading.operation_at (reading.tree_at fuel) fuel operations.ArrayLength bytes.now) }
{
    let (array, rest) = boxed_field(alloc, fuel, bytes)?;
    ended_tree(
        Tree::ArrayLength {
            position: NOWHERE,
            array,
        },
        rest,
    )
}

#[cycle(trees)]
#[tactic(auto, unfolding(sj_text_spec::specs::Reading::operation_at))]
fn array_select_of<'a>(alloc: Global, fuel: usize, bytes: &'a [u8]) -> Read<'a>
    ensures { Gives (λ x. (view x.0, x.1.now)) result (reading.operation_at (reading.tree_at fuel) fuel operations.ArraySelect bytes.now) }
{
    let (array, rest) = boxed_field(alloc, fuel, bytes)?;
    let (index, rest) = boxed_field(alloc, fuel, rest)?;
    let (tpe, rest) = type_field(alloc, fuel, rest)?;
    ended_tree(
        Tree::ArraySelect {
            position: NOWHERE,
            array,
            index,
            tpe,
        },
        rest,
    )
}

#[cycle(trees)]
#[tactic(auto, unfolding(sj_text_spec::specs::Reading::operation_at))]
fn is_instance_of_of<'a>(alloc: Global, fuel: usize, bytes: &'a [u8]) -> Read<'a>
    ensures { Gives (λ x. (view x.0, x.1.now)) result (reading.operation_at (reading.tree_at fuel) fuel operations.IsInstanceOf bytes.now) }
{
    let (value, rest) = boxed_field(alloc, fuel, bytes)?;
    let (tpe, rest) = type_field(alloc, fuel, rest)?;
    ended_tree(
        Tree::IsInstanceOf {
            position: NOWHERE,
            value,
            tpe,
        },
        rest,
    )
}

#[cycle(trees)]
#[tactic(auto, unfolding(sj_text_spec::specs::Reading::operation_at))]
fn as_instance_of_of<'a>(alloc: Global, fuel: usize, bytes: &'a [u8]) -> Read<'a>
    ensures { Gives (λ x. (view x.0, x.1.now)) result (reading.operation_at (reading.tree_at fuel) fuel operations.AsInstanceOf bytes.now) }
{
    let (value, rest) = boxed_field(alloc, fuel, bytes)?;
    let (tpe, rest) = type_field(alloc, fuel, rest)?;
    ended_tree(
        Tree::AsInstanceOf {
            position: NOWHERE,
            value,
            tpe,
        },
        rest,
    )
}

/// An operator, an array's form or a test.
#[cycle(trees)]
#[tactic(auto, unfolding(sj_text_spec::specs::Reading::operation_at))]
fn operation_of<'a>(alloc: Global, fuel: usize, form: OperationForm, bytes: &'a [u8]) -> Read<'a>
    ensures { Gives (λ x. (view x.0, x.1.now)) result (reading.operation_at (reading.tree_at fuel) fuel form bytes.now) }
{
    match form {
        OperationForm::UnaryOp => unary_op_of(alloc, fuel, bytes),
        OperationForm::BinaryOp => binary_op_of(alloc, fuel, bytes),
        OperationForm::NewArray => new_array_of(alloc, fuel, bytes),
        OperationForm::ArrayValue => array_value_of(alloc, fuel, bytes),
        OperationForm::ArrayLength => array_length_of(alloc, fuel, bytes),
        OperationForm::ArraySelect => array_select_of(alloc, fuel, bytes),
        OperationForm::IsInstanceOf => is_instance_of_of(alloc, fuel, bytes),
        OperationForm::AsInstanceOf => as_instance_of_of(alloc, fuel, bytes),
    }
}
