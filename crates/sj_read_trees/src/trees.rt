// Trees.
ghost use Rattle.std.specs.Prelude.{◌≡◌, map};
ghost use Rattle.sj_trees.specs.View.{view, view_case};
ghost use Rattle.sj_read_spec.specs.Reading.{many_at, list_at};
ghost use Rattle.sj_read_spec.specs.Types.{signed_at};
ghost use Rattle.sj_read_spec.specs.Trees.{tree_at, case_at, statement_at, branch_at, call_at, operation_at};
ghost use Rattle.sj_read_trees.specs.Stops.{Gives};
ghost use Rattle.std.specs.Int.{w32};

use crate::fields::{byte_of, mark_of, number_of, signed_number_of};
use crate::file_tables::FileTables;
use crate::items::{Item, list_of};
use crate::leaves::leaf_of;
use crate::references::array_reference_of;
use crate::stops::{Stop, bad};
use crate::tables::{
    class_name_of, field_name_of, label_name_of, local_name_of, method_name_of, position_of,
};
use crate::types::{binary_of, namespace_of, tag_of, type_of, unary_of};
use sj_names::Items;
use sj_trees::{
    BranchForm, CallForm, Code, Form, MatchCase, OperationForm, Position, StatementForm, Tree,
};
use std::alloc::Global;

// A key of a match.
#[derive(Drop)]
struct KeyItem;

impl Item for KeyItem {
    ghost use Rattle.std.specs.Prelude.{ℤ};
    ghost use Rattle.std.specs.Int.{w32};
    ghost use Rattle.sj_read_spec.specs.Types.{signed_at};

    type Value = i32;

    ghost Seen = { ℤ };

    ghost seen = { λ k. k };

    ghost reading = { λ _. signed_at w32 4 };

    fn read<'a>(&self, _alloc: Global, bytes: &'a [u8]) -> Result<(i32, &'a [u8]), Stop> {
        signed_number_of(bytes)
    }
}

// The keys of a case.
fn keys_of(alloc: Global, bytes: &[u8]) -> Result<(Items<i32>, &[u8]), Stop>
    ensures { Gives (λ x. (x.0, x.1.now)) result (list_at (signed_at w32 4) bytes.now) }
{
    let (keys, rest) = list_of(alloc, &KeyItem, bytes)?;
    Ok((Items::from_vec(keys), rest))
}

/// A tree in which trees stand one in another `depth` times at most, itself counted.
#[tactic(auto, unfolding(sj_read_spec::specs::Trees::tree_at))]
#[cycle(trees)]
pub fn tree_of<'a>(
    alloc: Global,
    tables: &FileTables,
    depth: u32,
    bytes: &'a [u8],
) -> Result<(Tree, &'a [u8]), Stop>
    ensures { Gives (λ x. (view x.0, x.1.now)) result (tree_at depth tables.now bytes.now) }
{
    if depth == 0 {
        byte_of(bytes)?;
        return Err(bad(Code::TooDeep, bytes));
    }
    let (tag, rest) = tag_of(bytes)?;
    let (position, rest) = position_of(tables.file_count(), rest)?;
    match tag {
        Form::Leaf(tag) => leaf_of(tables, tag, position, rest),
        Form::Statement(tag) => statement_of(alloc, tables, depth - 1, tag, position, rest),
        Form::Branch(tag) => branch_of(alloc, tables, depth - 1, tag, position, rest),
        Form::Call(tag) => call_of(alloc, tables, depth - 1, tag, position, rest),
        Form::Operation(tag) => operation_of(alloc, tables, depth - 1, tag, position, rest),
    }
}

// A tree in a box.
#[cycle(trees)]
fn boxed_of<'a>(
    alloc: Global,
    tables: &FileTables,
    depth: u32,
    bytes: &'a [u8],
) -> Result<(Box<Tree>, &'a [u8]), Stop>
    ensures { Gives (λ x. (view x.0.value, x.1.now)) result (tree_at depth tables.now bytes.now) }
{
    let (tree, rest) = tree_of(alloc, tables, depth, bytes)?;
    Ok((Box::new(alloc, tree)?, rest))
}

// This many trees.
#[cycle(trees)]
fn trees_of<'a>(
    alloc: Global,
    tables: &FileTables,
    depth: u32,
    count: u32,
    bytes: &'a [u8],
) -> Result<(Vec<Tree>, &'a [u8]), Stop>
    ensures { Gives (λ x. (map view x.0.items, x.1.now)) result (many_at (tree_at depth tables.now) count bytes.now) }
{
    let mut trees = Vec::new(alloc);
    let mut rest = bytes;
    for _ in 0..count {
        let (tree, after) = tree_of(alloc, tables, depth, rest)?;
        trees.push(tree)?;
        rest = after;
    }
    Ok((trees, rest))
}

// A case of a match.
#[tactic(auto, unfolding(sj_read_spec::specs::Trees::case_at))]
#[cycle(trees)]
fn case_of<'a>(
    alloc: Global,
    tables: &FileTables,
    depth: u32,
    bytes: &'a [u8],
) -> Result<(MatchCase, &'a [u8]), Stop>
    ensures { Gives (λ x. (view_case x.0, x.1.now)) result (case_at (tree_at depth tables.now) bytes.now) }
{
    let (keys, rest) = keys_of(alloc, bytes)?;
    let (body, rest) = tree_of(alloc, tables, depth, rest)?;
    Ok((MatchCase { keys, body }, rest))
}

// This many cases of a match.
#[cycle(trees)]
fn cases_of<'a>(
    alloc: Global,
    tables: &FileTables,
    depth: u32,
    count: u32,
    bytes: &'a [u8],
) -> Result<(Vec<MatchCase>, &'a [u8]), Stop>
    ensures { Gives (λ x. (map view_case x.0.items, x.1.now)) result (many_at (case_at (tree_at depth tables.now)) count bytes.now) }
{
    let mut cases = Vec::new(alloc);
    let mut rest = bytes;
    for _ in 0..count {
        let (case, after) = case_of(alloc, tables, depth, rest)?;
        cases.push(case)?;
        rest = after;
    }
    Ok((cases, rest))
}

// A form that sets, leaves, throws or writes, or holds statements in a row.
#[cycle(trees)]
fn statement_of<'a>(
    alloc: Global,
    tables: &FileTables,
    depth: u32,
    tag: StatementForm,
    position: Position,
    bytes: &'a [u8],
) -> Result<(Tree, &'a [u8]), Stop>
    ensures { Gives (λ x. (view x.0, x.1.now)) result (statement_at (tree_at depth tables.now) tables.now tag position bytes.now) }
{
    match tag {
        StatementForm::VarDef => var_def_of(alloc, tables, depth, position, bytes),
        StatementForm::Block => block_of(alloc, tables, depth, position, bytes),
        StatementForm::Labeled => labeled_of(alloc, tables, depth, position, bytes),
        StatementForm::Assign => assign_of(alloc, tables, depth, position, bytes),
        StatementForm::Return => return_of(alloc, tables, depth, position, bytes),
        StatementForm::Throw => throw_of(alloc, tables, depth, position, bytes),
        StatementForm::StoreModule => store_module_of(alloc, tables, depth, position, bytes),
        StatementForm::Log => log_of(alloc, tables, depth, position, bytes),
    }
}

// A definition of a local variable.
#[tactic(auto, unfolding(sj_read_spec::specs::Trees::statement_at))]
#[cycle(trees)]
fn var_def_of<'a>(
    alloc: Global,
    tables: &FileTables,
    depth: u32,
    position: Position,
    bytes: &'a [u8],
) -> Result<(Tree, &'a [u8]), Stop>
    ensures { Gives (λ x. (view x.0, x.1.now)) result (statement_at (tree_at depth tables.now) tables.now StatementForm.VarDef position bytes.now) }
{
    let (name, rest) = local_name_of(tables.names(), bytes)?;
    let (tpe, rest) = type_of(tables.names(), rest)?;
    let (mutable, rest) = mark_of(rest)?;
    let (value, rest) = boxed_of(alloc, tables, depth, rest)?;
    Ok((
        Tree::VarDef {
            position,
            name,
            tpe,
            mutable,
            value,
        },
        rest,
    ))
}

// Statements in a row.
#[tactic(auto, unfolding(sj_read_spec::specs::Trees::statement_at))]
#[cycle(trees)]
fn block_of<'a>(
    alloc: Global,
    tables: &FileTables,
    depth: u32,
    position: Position,
    bytes: &'a [u8],
) -> Result<(Tree, &'a [u8]), Stop>
    ensures { Gives (λ x. (view x.0, x.1.now)) result (statement_at (tree_at depth tables.now) tables.now StatementForm.Block position bytes.now) }
{
    let (count, rest) = number_of(bytes)?;
    let (trees, rest) = trees_of(alloc, tables, depth, count, rest)?;
    Ok((Tree::Block { position, trees }, rest))
}

// A labeled block.
#[tactic(auto, unfolding(sj_read_spec::specs::Trees::statement_at))]
#[cycle(trees)]
fn labeled_of<'a>(
    alloc: Global,
    tables: &FileTables,
    depth: u32,
    position: Position,
    bytes: &'a [u8],
) -> Result<(Tree, &'a [u8]), Stop>
    ensures { Gives (λ x. (view x.0, x.1.now)) result (statement_at (tree_at depth tables.now) tables.now StatementForm.Labeled position bytes.now) }
{
    let (label, rest) = label_name_of(tables.names(), bytes)?;
    let (tpe, rest) = type_of(tables.names(), rest)?;
    let (body, rest) = boxed_of(alloc, tables, depth, rest)?;
    Ok((
        Tree::Labeled {
            position,
            label,
            tpe,
            body,
        },
        rest,
    ))
}

// An assignment.
#[tactic(auto, unfolding(sj_read_spec::specs::Trees::statement_at))]
#[cycle(trees)]
fn assign_of<'a>(
    alloc: Global,
    tables: &FileTables,
    depth: u32,
    position: Position,
    bytes: &'a [u8],
) -> Result<(Tree, &'a [u8]), Stop>
    ensures { Gives (λ x. (view x.0, x.1.now)) result (statement_at (tree_at depth tables.now) tables.now StatementForm.Assign position bytes.now) }
{
    let (target, rest) = boxed_of(alloc, tables, depth, bytes)?;
    let (value, rest) = boxed_of(alloc, tables, depth, rest)?;
    Ok((
        Tree::Assign {
            position,
            target,
            value,
        },
        rest,
    ))
}

// A jump to the end of a labeled block.
#[tactic(auto, unfolding(sj_read_spec::specs::Trees::statement_at))]
#[cycle(trees)]
fn return_of<'a>(
    alloc: Global,
    tables: &FileTables,
    depth: u32,
    position: Position,
    bytes: &'a [u8],
) -> Result<(Tree, &'a [u8]), Stop>
    ensures { Gives (λ x. (view x.0, x.1.now)) result (statement_at (tree_at depth tables.now) tables.now StatementForm.Return position bytes.now) }
{
    let (value, rest) = boxed_of(alloc, tables, depth, bytes)?;
    let (label, rest) = label_name_of(tables.names(), rest)?;
    Ok((
        Tree::Return {
            position,
            value,
            label,
        },
        rest,
    ))
}

// A throw.
#[tactic(auto, unfolding(sj_read_spec::specs::Trees::statement_at))]
#[cycle(trees)]
fn throw_of<'a>(
    alloc: Global,
    tables: &FileTables,
    depth: u32,
    position: Position,
    bytes: &'a [u8],
) -> Result<(Tree, &'a [u8]), Stop>
    ensures { Gives (λ x. (view x.0, x.1.now)) result (statement_at (tree_at depth tables.now) tables.now StatementForm.Throw position bytes.now) }
{
    let (value, rest) = boxed_of(alloc, tables, depth, bytes)?;
    Ok((Tree::Throw { position, value }, rest))
}

// A module's instance set.
#[tactic(auto, unfolding(sj_read_spec::specs::Trees::statement_at))]
#[cycle(trees)]
fn store_module_of<'a>(
    alloc: Global,
    tables: &FileTables,
    depth: u32,
    position: Position,
    bytes: &'a [u8],
) -> Result<(Tree, &'a [u8]), Stop>
    ensures { Gives (λ x. (view x.0, x.1.now)) result (statement_at (tree_at depth tables.now) tables.now StatementForm.StoreModule position bytes.now) }
{
    let (class, rest) = class_name_of(tables.names(), bytes)?;
    let (value, rest) = boxed_of(alloc, tables, depth, rest)?;
    Ok((
        Tree::StoreModule {
            position,
            class,
            value,
        },
        rest,
    ))
}

// A line of output.
#[tactic(auto, unfolding(sj_read_spec::specs::Trees::statement_at))]
#[cycle(trees)]
fn log_of<'a>(
    alloc: Global,
    tables: &FileTables,
    depth: u32,
    position: Position,
    bytes: &'a [u8],
) -> Result<(Tree, &'a [u8]), Stop>
    ensures { Gives (λ x. (view x.0, x.1.now)) result (statement_at (tree_at depth tables.now) tables.now StatementForm.Log position bytes.now) }
{
    let (value, rest) = boxed_of(alloc, tables, depth, bytes)?;
    Ok((Tree::Log { position, value }, rest))
}

// A form that chooses, repeats or catches.
#[cycle(trees)]
fn branch_of<'a>(
    alloc: Global,
    tables: &FileTables,
    depth: u32,
    tag: BranchForm,
    position: Position,
    bytes: &'a [u8],
) -> Result<(Tree, &'a [u8]), Stop>
    ensures { Gives (λ x. (view x.0, x.1.now)) result (branch_at (tree_at depth tables.now) tables.now tag position bytes.now) }
{
    match tag {
        BranchForm::If => if_of(alloc, tables, depth, position, bytes),
        BranchForm::While => while_of(alloc, tables, depth, position, bytes),
        BranchForm::DoWhile => do_while_of(alloc, tables, depth, position, bytes),
        BranchForm::TryCatch => try_catch_of(alloc, tables, depth, position, bytes),
        BranchForm::TryFinally => try_finally_of(alloc, tables, depth, position, bytes),
        BranchForm::Match => match_of(alloc, tables, depth, position, bytes),
    }
}

// A choice.
#[tactic(auto, unfolding(sj_read_spec::specs::Trees::branch_at))]
#[cycle(trees)]
fn if_of<'a>(
    alloc: Global,
    tables: &FileTables,
    depth: u32,
    position: Position,
    bytes: &'a [u8],
) -> Result<(Tree, &'a [u8]), Stop>
    ensures { Gives (λ x. (view x.0, x.1.now)) result (branch_at (tree_at depth tables.now) tables.now BranchForm.If position bytes.now) }
{
    let (condition, rest) = boxed_of(alloc, tables, depth, bytes)?;
    let (consequent, rest) = boxed_of(alloc, tables, depth, rest)?;
    let (alternative, rest) = boxed_of(alloc, tables, depth, rest)?;
    let (tpe, rest) = type_of(tables.names(), rest)?;
    Ok((
        Tree::If {
            position,
            condition,
            yes: consequent,
            no: alternative,
            tpe,
        },
        rest,
    ))
}

// A loop that tests in front.
#[tactic(auto, unfolding(sj_read_spec::specs::Trees::branch_at))]
#[cycle(trees)]
fn while_of<'a>(
    alloc: Global,
    tables: &FileTables,
    depth: u32,
    position: Position,
    bytes: &'a [u8],
) -> Result<(Tree, &'a [u8]), Stop>
    ensures { Gives (λ x. (view x.0, x.1.now)) result (branch_at (tree_at depth tables.now) tables.now BranchForm.While position bytes.now) }
{
    let (condition, rest) = boxed_of(alloc, tables, depth, bytes)?;
    let (body, rest) = boxed_of(alloc, tables, depth, rest)?;
    Ok((
        Tree::While {
            position,
            condition,
            body,
        },
        rest,
    ))
}

// A loop that tests behind.
#[tactic(auto, unfolding(sj_read_spec::specs::Trees::branch_at))]
#[cycle(trees)]
fn do_while_of<'a>(
    alloc: Global,
    tables: &FileTables,
    depth: u32,
    position: Position,
    bytes: &'a [u8],
) -> Result<(Tree, &'a [u8]), Stop>
    ensures { Gives (λ x. (view x.0, x.1.now)) result (branch_at (tree_at depth tables.now) tables.now BranchForm.DoWhile position bytes.now) }
{
    let (body, rest) = boxed_of(alloc, tables, depth, bytes)?;
    let (condition, rest) = boxed_of(alloc, tables, depth, rest)?;
    Ok((
        Tree::DoWhile {
            position,
            body,
            condition,
        },
        rest,
    ))
}

// A block with a handler.
#[tactic(auto, unfolding(sj_read_spec::specs::Trees::branch_at))]
#[cycle(trees)]
fn try_catch_of<'a>(
    alloc: Global,
    tables: &FileTables,
    depth: u32,
    position: Position,
    bytes: &'a [u8],
) -> Result<(Tree, &'a [u8]), Stop>
    ensures { Gives (λ x. (view x.0, x.1.now)) result (branch_at (tree_at depth tables.now) tables.now BranchForm.TryCatch position bytes.now) }
{
    let (block, rest) = boxed_of(alloc, tables, depth, bytes)?;
    let (name, rest) = local_name_of(tables.names(), rest)?;
    let (handler, rest) = boxed_of(alloc, tables, depth, rest)?;
    let (tpe, rest) = type_of(tables.names(), rest)?;
    Ok((
        Tree::TryCatch {
            position,
            block,
            name,
            handler,
            tpe,
        },
        rest,
    ))
}

// A block with a finalizer.
#[tactic(auto, unfolding(sj_read_spec::specs::Trees::branch_at))]
#[cycle(trees)]
fn try_finally_of<'a>(
    alloc: Global,
    tables: &FileTables,
    depth: u32,
    position: Position,
    bytes: &'a [u8],
) -> Result<(Tree, &'a [u8]), Stop>
    ensures { Gives (λ x. (view x.0, x.1.now)) result (branch_at (tree_at depth tables.now) tables.now BranchForm.TryFinally position bytes.now) }
{
    let (block, rest) = boxed_of(alloc, tables, depth, bytes)?;
    let (finalizer, rest) = boxed_of(alloc, tables, depth, rest)?;
    Ok((
        Tree::TryFinally {
            position,
            block,
            finalizer,
        },
        rest,
    ))
}

// A choice by a number.
#[tactic(auto, unfolding(sj_read_spec::specs::Trees::branch_at))]
#[cycle(trees)]
fn match_of<'a>(
    alloc: Global,
    tables: &FileTables,
    depth: u32,
    position: Position,
    bytes: &'a [u8],
) -> Result<(Tree, &'a [u8]), Stop>
    ensures { Gives (λ x. (view x.0, x.1.now)) result (branch_at (tree_at depth tables.now) tables.now BranchForm.Match position bytes.now) }
{
    let (selector, rest) = boxed_of(alloc, tables, depth, bytes)?;
    let (count, rest) = number_of(rest)?;
    let (cases, rest) = cases_of(alloc, tables, depth, count, rest)?;
    let (default, rest) = boxed_of(alloc, tables, depth, rest)?;
    let (tpe, rest) = type_of(tables.names(), rest)?;
    Ok((
        Tree::Match {
            position,
            selector,
            cases,
            default,
            tpe,
        },
        rest,
    ))
}

// A form that calls a method or reads a field of an object.
#[cycle(trees)]
fn call_of<'a>(
    alloc: Global,
    tables: &FileTables,
    depth: u32,
    tag: CallForm,
    position: Position,
    bytes: &'a [u8],
) -> Result<(Tree, &'a [u8]), Stop>
    ensures { Gives (λ x. (view x.0, x.1.now)) result (call_at (tree_at depth tables.now) tables.now tag position bytes.now) }
{
    match tag {
        CallForm::New => new_of(alloc, tables, depth, position, bytes),
        CallForm::Select => select_of(alloc, tables, depth, position, bytes),
        CallForm::Apply => apply_of(alloc, tables, depth, position, bytes),
        CallForm::ApplyStatically => apply_statically_of(alloc, tables, depth, position, bytes),
        CallForm::ApplyStatic => apply_static_of(alloc, tables, depth, position, bytes),
    }
}

// A new object.
#[tactic(auto, unfolding(sj_read_spec::specs::Trees::call_at))]
#[cycle(trees)]
fn new_of<'a>(
    alloc: Global,
    tables: &FileTables,
    depth: u32,
    position: Position,
    bytes: &'a [u8],
) -> Result<(Tree, &'a [u8]), Stop>
    ensures { Gives (λ x. (view x.0, x.1.now)) result (call_at (tree_at depth tables.now) tables.now CallForm.New position bytes.now) }
{
    let (class, rest) = class_name_of(tables.names(), bytes)?;
    let (method, rest) = method_name_of(tables.methods(), rest)?;
    let (count, rest) = number_of(rest)?;
    let (arguments, rest) = trees_of(alloc, tables, depth, count, rest)?;
    Ok((
        Tree::New {
            position,
            class,
            constructor: method,
            arguments,
        },
        rest,
    ))
}

// A field of an object.
#[tactic(auto, unfolding(sj_read_spec::specs::Trees::call_at))]
#[cycle(trees)]
fn select_of<'a>(
    alloc: Global,
    tables: &FileTables,
    depth: u32,
    position: Position,
    bytes: &'a [u8],
) -> Result<(Tree, &'a [u8]), Stop>
    ensures { Gives (λ x. (view x.0, x.1.now)) result (call_at (tree_at depth tables.now) tables.now CallForm.Select position bytes.now) }
{
    let (qualifier, rest) = boxed_of(alloc, tables, depth, bytes)?;
    let (class, rest) = class_name_of(tables.names(), rest)?;
    let (field, rest) = field_name_of(tables.names(), rest)?;
    let (tpe, rest) = type_of(tables.names(), rest)?;
    Ok((
        Tree::Select {
            position,
            object: qualifier,
            class,
            field,
            tpe,
        },
        rest,
    ))
}

// A call that the receiver's class decides.
#[tactic(auto, unfolding(sj_read_spec::specs::Trees::call_at))]
#[cycle(trees)]
fn apply_of<'a>(
    alloc: Global,
    tables: &FileTables,
    depth: u32,
    position: Position,
    bytes: &'a [u8],
) -> Result<(Tree, &'a [u8]), Stop>
    ensures { Gives (λ x. (view x.0, x.1.now)) result (call_at (tree_at depth tables.now) tables.now CallForm.Apply position bytes.now) }
{
    let (receiver, rest) = boxed_of(alloc, tables, depth, bytes)?;
    let (method, rest) = method_name_of(tables.methods(), rest)?;
    let (count, rest) = number_of(rest)?;
    let (arguments, rest) = trees_of(alloc, tables, depth, count, rest)?;
    let (tpe, rest) = type_of(tables.names(), rest)?;
    Ok((
        Tree::Apply {
            position,
            receiver,
            method,
            arguments,
            tpe,
        },
        rest,
    ))
}

// A call on a receiver.
#[tactic(auto, unfolding(sj_read_spec::specs::Trees::call_at))]
#[cycle(trees)]
fn apply_statically_of<'a>(
    alloc: Global,
    tables: &FileTables,
    depth: u32,
    position: Position,
    bytes: &'a [u8],
) -> Result<(Tree, &'a [u8]), Stop>
    ensures { Gives (λ x. (view x.0, x.1.now)) result (call_at (tree_at depth tables.now) tables.now CallForm.ApplyStatically position bytes.now) }
{
    let (receiver, rest) = boxed_of(alloc, tables, depth, bytes)?;
    let (class, rest) = class_name_of(tables.names(), rest)?;
    let (namespace, rest) = namespace_of(rest)?;
    let (method, rest) = method_name_of(tables.methods(), rest)?;
    let (count, rest) = number_of(rest)?;
    let (arguments, rest) = trees_of(alloc, tables, depth, count, rest)?;
    let (tpe, rest) = type_of(tables.names(), rest)?;
    Ok((
        Tree::ApplyStatically {
            position,
            receiver,
            class,
            namespace,
            method,
            arguments,
            tpe,
        },
        rest,
    ))
}

// A call of a static method.
#[tactic(auto, unfolding(sj_read_spec::specs::Trees::call_at))]
#[cycle(trees)]
fn apply_static_of<'a>(
    alloc: Global,
    tables: &FileTables,
    depth: u32,
    position: Position,
    bytes: &'a [u8],
) -> Result<(Tree, &'a [u8]), Stop>
    ensures { Gives (λ x. (view x.0, x.1.now)) result (call_at (tree_at depth tables.now) tables.now CallForm.ApplyStatic position bytes.now) }
{
    let (class, rest) = class_name_of(tables.names(), bytes)?;
    let (namespace, rest) = namespace_of(rest)?;
    let (method, rest) = method_name_of(tables.methods(), rest)?;
    let (count, rest) = number_of(rest)?;
    let (arguments, rest) = trees_of(alloc, tables, depth, count, rest)?;
    let (tpe, rest) = type_of(tables.names(), rest)?;
    Ok((
        Tree::ApplyStatic {
            position,
            class,
            namespace,
            method,
            arguments,
            tpe,
        },
        rest,
    ))
}

// A form of an operator, an array or a type test.
#[cycle(trees)]
fn operation_of<'a>(
    alloc: Global,
    tables: &FileTables,
    depth: u32,
    tag: OperationForm,
    position: Position,
    bytes: &'a [u8],
) -> Result<(Tree, &'a [u8]), Stop>
    ensures { Gives (λ x. (view x.0, x.1.now)) result (operation_at (tree_at depth tables.now) tables.now tag position bytes.now) }
{
    match tag {
        OperationForm::UnaryOp => unary_op_of(alloc, tables, depth, position, bytes),
        OperationForm::BinaryOp => binary_op_of(alloc, tables, depth, position, bytes),
        OperationForm::NewArray => new_array_of(alloc, tables, depth, position, bytes),
        OperationForm::ArrayValue => array_value_of(alloc, tables, depth, position, bytes),
        OperationForm::ArrayLength => array_length_of(alloc, tables, depth, position, bytes),
        OperationForm::ArraySelect => array_select_of(alloc, tables, depth, position, bytes),
        OperationForm::IsInstanceOf => is_instance_of_of(alloc, tables, depth, position, bytes),
        OperationForm::AsInstanceOf => as_instance_of_of(alloc, tables, depth, position, bytes),
    }
}

// An operator with one operand.
#[tactic(auto, unfolding(sj_read_spec::specs::Trees::operation_at))]
#[cycle(trees)]
fn unary_op_of<'a>(
    alloc: Global,
    tables: &FileTables,
    depth: u32,
    position: Position,
    bytes: &'a [u8],
) -> Result<(Tree, &'a [u8]), Stop>
    ensures { Gives (λ x. (view x.0, x.1.now)) result (operation_at (tree_at depth tables.now) tables.now OperationForm.UnaryOp position bytes.now) }
{
    let (operator, rest) = unary_of(bytes)?;
    let (operand, rest) = boxed_of(alloc, tables, depth, rest)?;
    Ok((
        Tree::UnaryOp {
            position,
            operator,
            operand,
        },
        rest,
    ))
}

// An operator with two operands.
#[tactic(auto, unfolding(sj_read_spec::specs::Trees::operation_at))]
#[cycle(trees)]
fn binary_op_of<'a>(
    alloc: Global,
    tables: &FileTables,
    depth: u32,
    position: Position,
    bytes: &'a [u8],
) -> Result<(Tree, &'a [u8]), Stop>
    ensures { Gives (λ x. (view x.0, x.1.now)) result (operation_at (tree_at depth tables.now) tables.now OperationForm.BinaryOp position bytes.now) }
{
    let (operator, rest) = binary_of(bytes)?;
    let (left, rest) = boxed_of(alloc, tables, depth, rest)?;
    let (right, rest) = boxed_of(alloc, tables, depth, rest)?;
    Ok((
        Tree::BinaryOp {
            position,
            operator,
            left,
            right,
        },
        rest,
    ))
}

// A new array.
#[tactic(auto, unfolding(sj_read_spec::specs::Trees::operation_at))]
#[cycle(trees)]
fn new_array_of<'a>(
    alloc: Global,
    tables: &FileTables,
    depth: u32,
    position: Position,
    bytes: &'a [u8],
) -> Result<(Tree, &'a [u8]), Stop>
    ensures { Gives (λ x. (view x.0, x.1.now)) result (operation_at (tree_at depth tables.now) tables.now OperationForm.NewArray position bytes.now) }
{
    let (array, rest) = array_reference_of(tables.names(), bytes)?;
    let (length, rest) = boxed_of(alloc, tables, depth, rest)?;
    Ok((
        Tree::NewArray {
            position,
            array,
            length,
        },
        rest,
    ))
}

// An array of items.
#[tactic(auto, unfolding(sj_read_spec::specs::Trees::operation_at))]
#[cycle(trees)]
fn array_value_of<'a>(
    alloc: Global,
    tables: &FileTables,
    depth: u32,
    position: Position,
    bytes: &'a [u8],
) -> Result<(Tree, &'a [u8]), Stop>
    ensures { Gives (λ x. (view x.0, x.1.now)) result (operation_at (tree_at depth tables.now) tables.now OperationForm.ArrayValue position bytes.now) }
{
    let (array, rest) = array_reference_of(tables.names(), bytes)?;
    let (count, rest) = number_of(rest)?;
    let (items, rest) = trees_of(alloc, tables, depth, count, rest)?;
    Ok((
        Tree::ArrayValue {
            position,
            array,
            items,
        },
        rest,
    ))
}

// The length of an array.
#[tactic(auto, unfolding(sj_read_spec::specs::Trees::operation_at))]
#[cycle(trees)]
fn array_length_of<'a>(
    alloc: Global,
    tables: &FileTables,
    depth: u32,
    position: Position,
    bytes: &'a [u8],
) -> Result<(Tree, &'a [u8]), Stop>
    ensures { Gives (λ x. (view x.0, x.1.now)) result (operation_at (tree_at depth tables.now) tables.now OperationForm.ArrayLength position bytes.now) }
{
    let (array, rest) = boxed_of(alloc, tables, depth, bytes)?;
    Ok((Tree::ArrayLength { position, array }, rest))
}

// An item of an array.
#[tactic(auto, unfolding(sj_read_spec::specs::Trees::operation_at))]
#[cycle(trees)]
fn array_select_of<'a>(
    alloc: Global,
    tables: &FileTables,
    depth: u32,
    position: Position,
    bytes: &'a [u8],
) -> Result<(Tree, &'a [u8]), Stop>
    ensures { Gives (λ x. (view x.0, x.1.now)) result (operation_at (tree_at depth tables.now) tables.now OperationForm.ArraySelect position bytes.now) }
{
    let (array, rest) = boxed_of(alloc, tables, depth, bytes)?;
    let (index, rest) = boxed_of(alloc, tables, depth, rest)?;
    let (tpe, rest) = type_of(tables.names(), rest)?;
    Ok((
        Tree::ArraySelect {
            position,
            array,
            index,
            tpe,
        },
        rest,
    ))
}

// A test of a type.
#[tactic(auto, unfolding(sj_read_spec::specs::Trees::operation_at))]
#[cycle(trees)]
fn is_instance_of_of<'a>(
    alloc: Global,
    tables: &FileTables,
    depth: u32,
    position: Position,
    bytes: &'a [u8],
) -> Result<(Tree, &'a [u8]), Stop>
    ensures { Gives (λ x. (view x.0, x.1.now)) result (operation_at (tree_at depth tables.now) tables.now OperationForm.IsInstanceOf position bytes.now) }
{
    let (value, rest) = boxed_of(alloc, tables, depth, bytes)?;
    let (tpe, rest) = type_of(tables.names(), rest)?;
    Ok((
        Tree::IsInstanceOf {
            position,
            value,
            tpe,
        },
        rest,
    ))
}

// A cast.
#[tactic(auto, unfolding(sj_read_spec::specs::Trees::operation_at))]
#[cycle(trees)]
fn as_instance_of_of<'a>(
    alloc: Global,
    tables: &FileTables,
    depth: u32,
    position: Position,
    bytes: &'a [u8],
) -> Result<(Tree, &'a [u8]), Stop>
    ensures { Gives (λ x. (view x.0, x.1.now)) result (operation_at (tree_at depth tables.now) tables.now OperationForm.AsInstanceOf position bytes.now) }
{
    let (value, rest) = boxed_of(alloc, tables, depth, bytes)?;
    let (tpe, rest) = type_of(tables.names(), rest)?;
    Ok((
        Tree::AsInstanceOf {
            position,
            value,
            tpe,
        },
        rest,
    ))
}
