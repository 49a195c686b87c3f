// Trees as statements.
ghost use Rattle.std.specs.Prelude.{◌≡◌, ◌&&◌, false, IfOk, map};
ghost use Rattle.sj_desugar_spec.specs.Desugar as desugar;
ghost use Rattle.sj_desugar_spec.specs.Plain.{is_among};
ghost use Rattle.sj_desugar_spec.specs.Spill.{spill};
ghost use Rattle.sj_desugar_forms.specs.Arguments.{with_arguments, with_items};
ghost use Rattle.sj_desugar_forms.specs.Forms as forms;
ghost use Rattle.sj_desugar.specs.Operands.{comes_to, comes_received, owner_place, index_place, assigned_code};
ghost use Rattle.sj_desugar_forms.specs.Placing.{placed};
ghost use Rattle.sj_desugar_forms.specs.Views.{destination_view, target_view, code_view, placed_view, all_view, branches_view};
ghost use Rattle.sj_trees.specs.View.{view, terms_view, cases_view};

use sj_core::CoreExpression;
use sj_desugar_finalizers::{given_back, keep_all, kept_in};
use sj_desugar_forms::{
    CalledMember, Destination, FieldPlace, Operation, Placed, PlacedAll, SwitchCases, Target,
    Written, are_plain, array_value, assigned, binary_value, branched, brought, call_value,
    case_of, cast_value, checked, checked_operand, coerced_argument, coerced_value, declared,
    defined, element_set, element_value, expression_of, field_set, field_value, finished, in_place,
    is_fixed, is_plain, is_sure, joined, kept, labeled, leaving, length_value, local_destination,
    logged, looked_up_value, looped, looped_behind, made_value, member_value, module_stored,
    new_array_value, nothing, number_behind, operand_destination, position_of, static_set,
    switched, target_of, tested_loop, tested_value, thrown, tried, unary_value, value_of,
    with_label, without_first,
};
use sj_names::{LocalName, NoMemory, TypeRef};
use sj_trees::{IrType, MatchCase, Position, Tree, type_of};
use std::alloc::Global;

/// The locals of a body that are mutable, and those that are never null.
#[derive(Clone, Copy)]
pub struct Locals<'l> {
    pub mutable: &'l [LocalName],
    pub sure: &'l [LocalName],
}

/// A tree as statements that bring its value to a destination, in a method with these locals, inside of these labels, with variables
/// for operands from the number `next` on. An assignment to what can't be assigned to writes nothing. Want of memory is the only error.
#[cycle(trees)]
pub fn statements_of(
    alloc: Global,
    locals: &Locals<'_>,
    targets: &[Target],
    destination: &Destination,
    next: u64,
    tree: &Tree,
) -> Result<Written, NoMemory>
    ensures { IfOk result (λ w. code_view w ≡ desugar.into (is_among locals.now.mutable.now) (is_among locals.now.sure.now) (map target_view targets.now) (destination_view destination.now) next (view tree.now)) }
{
    match tree {
        Tree::VarDef {
            position,
            name,
            tpe,
            value,
            ..
        } => {
            let simple = is_plain(value);
            if simple {
                defined(alloc, locals.sure, *position, name, tpe, value, next)
            } else {
                let local = local_destination(name, tpe)?;
                let value_code = statements_of(alloc, locals, targets, &local, next, value)?;
                declared(alloc, *position, name, value_code)
            }
        }
        Tree::Block { trees, .. } => block_of(alloc, locals, targets, destination, next, trees),
        Tree::Labeled {
            position,
            label,
            body,
            ..
        } => {
            let inner = with_label(alloc, label, destination, targets)?;
            let body_code = statements_of(alloc, locals, &inner, destination, next, body)?;
            labeled(alloc, destination, *position, label, body_code)
        }
        Tree::Assign {
            position,
            target,
            value,
        } => {
            let value_plain = is_plain(value);
            let owner = owner_of(alloc, locals, targets, value_plain, next, target)?;
            let index = index_of(alloc, locals, targets, value_plain, owner.next, target)?;
            assignment_of(
                alloc, locals, targets, next, *position, value, target, owner, index,
            )
        }
        Tree::Return {
            position,
            value,
            label,
        } => {
            let goes_to = target_of(targets, label)?;
            let left = statements_of(alloc, locals, targets, &goes_to, next, value)?;
            leaving(alloc, &goes_to, *position, label, left)
        }
        Tree::If {
            position,
            condition,
            yes,
            no,
            ..
        } => {
            let test = operand_of(alloc, locals, targets, true, next, condition)?;
            let first = statements_of(alloc, locals, targets, destination, test.next, yes)?;
            let second = statements_of(alloc, locals, targets, destination, first.next, no)?;
            branched(alloc, *position, test, first, second)
        }
        Tree::While {
            position,
            condition,
            body,
        } => {
            let nowhere = Destination::Discard;
            let repeated = is_plain(condition);
            if repeated {
                let turn = statements_of(alloc, locals, targets, &nowhere, next, body)?;
                looped(alloc, locals.sure, *position, condition, turn)
            } else {
                let front = operand_of(alloc, locals, targets, true, next, condition)?;
                let rest = statements_of(alloc, locals, targets, &nowhere, front.next, body)?;
                tested_loop(alloc, *position, front, rest)
            }
        }
        Tree::DoWhile {
            position,
            body,
            condition,
        } => {
            let nowhere = Destination::Discard;
            let whole = statements_of(alloc, locals, targets, &nowhere, next, body)?;
            let back = operand_of(alloc, locals, targets, true, whole.next, condition)?;
            looped_behind(alloc, *position, whole, back)
        }
        Tree::TryCatch {
            position,
            block,
            name,
            handler,
            ..
        } => {
            let first = statements_of(alloc, locals, targets, destination, next, block)?;
            let second = statements_of(alloc, locals, targets, destination, first.next, handler)?;
            tried(alloc, *position, first, name, second)
        }
        Tree::TryFinally {
            position,
            block,
            finalizer,
        } => {
            let nowhere = Destination::Discard;
            let first = statements_of(alloc, locals, targets, destination, next, block)?;
            let number = first.next;
            let kept_variables = kept_in(alloc, targets, finalizer)?;
            let front = keep_all(alloc, &kept_variables, number)?;
            let code = statements_of(alloc, locals, targets, &nowhere, front.next, finalizer)?;
            let second = given_back(alloc, &kept_variables, number, front, code)?;
            finished(alloc, *position, first, second)
        }
        Tree::Match {
            position,
            selector,
            cases,
            default,
            ..
        } => {
            let selected = operand_of(alloc, locals, targets, true, next, selector)?;
            let branches = cases_of(alloc, locals, targets, destination, selected.next, cases)?;
            let last = statements_of(alloc, locals, targets, destination, branches.next, default)?;
            switched(alloc, *position, selected, branches, last)
        }
        Tree::ApplyStatic {
            position,
            class,
            namespace,
            method,
            arguments: trees,
            tpe,
        } => {
            let member = CalledMember {
                class,
                namespace: *namespace,
                method,
            };
            let params = method.params.as_slice();
            let arguments = arguments_of(alloc, locals, targets, params, next, trees)?;
            call_value(alloc, destination, *position, &member, tpe, arguments)
        }
        Tree::Apply {
            position,
            receiver: object,
            method,
            arguments: trees,
            tpe,
        } => {
            let trees_plain = are_plain(trees);
            let owner = receiver_of(alloc, locals, targets, trees_plain, next, object)?;
            let params = method.params.as_slice();
            let arguments = arguments_of(alloc, locals, targets, params, owner.next, trees)?;
            looked_up_value(
                alloc,
                destination,
                *position,
                method,
                tpe,
                object,
                owner,
                arguments,
            )
        }
        Tree::ApplyStatically {
            position,
            receiver: object,
            class,
            namespace,
            method,
            arguments: trees,
            tpe,
        } => {
            let member = CalledMember {
                class,
                namespace: *namespace,
                method,
            };
            let all_plain = are_plain(trees);
            let owner = receiver_of(alloc, locals, targets, all_plain, next, object)?;
            let params = method.params.as_slice();
            let arguments = arguments_of(alloc, locals, targets, params, owner.next, trees)?;
            member_value(
                alloc,
                destination,
                *position,
                &member,
                tpe,
                object,
                owner,
                arguments,
            )
        }
        Tree::New {
            position,
            class,
            constructor: method,
            arguments: trees,
        } => {
            let params = method.params.as_slice();
            let arguments = arguments_of(alloc, locals, targets, params, next, trees)?;
            made_value(alloc, destination, *position, class, method, arguments)
        }
        Tree::Select {
            position,
            object,
            class,
            field: name,
            tpe,
        } => {
            let owner = receiver_of(alloc, locals, targets, true, next, object)?;
            let place = FieldPlace { class, name, tpe };
            field_value(alloc, destination, *position, &place, owner)
        }
        Tree::NewArray {
            position,
            array,
            length,
        } => {
            let size = operand_of(alloc, locals, targets, true, next, length)?;
            new_array_value(alloc, destination, *position, array, size)
        }
        Tree::ArrayValue {
            position,
            array,
            items: trees,
        } => {
            let expected = IrType::of_items(array)?;
            let items = items_of(alloc, locals, targets, &expected, next, trees)?;
            array_value(alloc, destination, *position, array, items)
        }
        Tree::ArrayLength { position, array } => {
            let owner = receiver_of(alloc, locals, targets, true, next, array)?;
            length_value(alloc, destination, *position, owner)
        }
        Tree::ArraySelect {
            position,
            array,
            index,
            tpe,
        } => {
            let index_plain = is_plain(index);
            let owner = receiver_of(alloc, locals, targets, index_plain, next, array)?;
            let place = operand_of(alloc, locals, targets, true, owner.next, index)?;
            element_value(alloc, destination, *position, tpe, owner, place)
        }
        Tree::Throw { position, value } => {
            let object = operand_of(alloc, locals, targets, true, next, value)?;
            thrown(alloc, *position, value, object)
        }
        Tree::StoreModule {
            position,
            class,
            value,
        } => {
            let object = operand_of(alloc, locals, targets, true, next, value)?;
            module_stored(alloc, *position, class, value, object)
        }
        Tree::UnaryOp {
            position,
            operator: op,
            operand: value,
        } => {
            let operand = operand_of(alloc, locals, targets, true, next, value)?;
            unary_value(alloc, destination, *position, *op, operand)
        }
        Tree::IsInstanceOf {
            position,
            value,
            tpe,
        } => {
            let operand = operand_of(alloc, locals, targets, true, next, value)?;
            tested_value(alloc, destination, *position, tpe, value, operand)
        }
        Tree::AsInstanceOf {
            position,
            value,
            tpe,
        } => {
            let operand = operand_of(alloc, locals, targets, true, next, value)?;
            cast_value(alloc, destination, *position, tpe, value, operand)
        }
        Tree::BinaryOp {
            position,
            operator: op,
            left,
            right,
        } => {
            let second_plain = is_plain(right);
            let one = operand_of(alloc, locals, targets, second_plain, next, left)?;
            let other = operand_of(alloc, locals, targets, true, one.next, right)?;
            let operation = Operation {
                op: *op,
                left,
                right,
            };
            binary_value(alloc, destination, *position, &operation, one, other)
        }
        Tree::Log {
            position,
            value: text,
        } => {
            let line = operand_of(alloc, locals, targets, true, next, text)?;
            logged(alloc, *position, line)
        }
        Tree::Undefined { .. }
        | Tree::Null { .. }
        | Tree::BooleanLiteral { .. }
        | Tree::CharLiteral { .. }
        | Tree::ByteLiteral { .. }
        | Tree::ShortLiteral { .. }
        | Tree::IntLiteral { .. }
        | Tree::LongLiteral { .. }
        | Tree::StringLiteral { .. }
        | Tree::VarRef { .. }
        | Tree::This { .. }
        | Tree::SelectStatic { .. }
        | Tree::LoadModule { .. } => value_of(alloc, destination, next, tree),
        Tree::Skip { .. } => Ok(nothing(alloc, next)),
    }
}

// The object of the field that a tree names, or the array of the element, as an operand. A tree that names neither writes nothing.
#[cycle(trees)]
fn owner_of(
    alloc: Global,
    locals: &Locals<'_>,
    targets: &[Target],
    rest_is_plain: bool,
    next: u64,
    target: &Tree,
) -> Result<Placed, NoMemory>
    ensures { IfOk result (λ p. placed_view p ≡ owner_place (is_among locals.now.mutable.now) (is_among locals.now.sure.now) (map target_view targets.now) rest_is_plain next (view target.now)) }
{
    match target {
        Tree::Select { object, .. } => {
            receiver_of(alloc, locals, targets, rest_is_plain, next, object)
        }
        Tree::ArraySelect { array, index, .. } => {
            let index_plain = is_plain(index);
            let rest = are_both(index_plain, rest_is_plain);
            receiver_of(alloc, locals, targets, rest, next, array)
        }
        Tree::VarDef { .. }
        | Tree::Skip { .. }
        | Tree::Block { .. }
        | Tree::Labeled { .. }
        | Tree::Assign { .. }
        | Tree::Return { .. }
        | Tree::If { .. }
        | Tree::While { .. }
        | Tree::DoWhile { .. }
        | Tree::TryCatch { .. }
        | Tree::TryFinally { .. }
        | Tree::Throw { .. }
        | Tree::Match { .. }
        | Tree::New { .. }
        | Tree::LoadModule { .. }
        | Tree::StoreModule { .. }
        | Tree::Apply { .. }
        | Tree::ApplyStatically { .. }
        | Tree::ApplyStatic { .. }
        | Tree::UnaryOp { .. }
        | Tree::BinaryOp { .. }
        | Tree::NewArray { .. }
        | Tree::ArrayValue { .. }
        | Tree::ArrayLength { .. }
        | Tree::IsInstanceOf { .. }
        | Tree::AsInstanceOf { .. }
        | Tree::Undefined { .. }
        | Tree::Null { .. }
        | Tree::BooleanLiteral { .. }
        | Tree::CharLiteral { .. }
        | Tree::ByteLiteral { .. }
        | Tree::ShortLiteral { .. }
        | Tree::IntLiteral { .. }
        | Tree::LongLiteral { .. }
        | Tree::StringLiteral { .. }
        | Tree::This { .. }
        | Tree::Log { .. }
        | Tree::VarRef { .. }
        | Tree::SelectStatic { .. } => Ok(in_place(alloc, CoreExpression::Undefined, next)),
    }
}

// The index of the element that a tree names as an operand. A tree that names no element writes nothing.
#[cycle(trees)]
fn index_of(
    alloc: Global,
    locals: &Locals<'_>,
    targets: &[Target],
    rest_is_plain: bool,
    next: u64,
    target: &Tree,
) -> Result<Placed, NoMemory>
    ensures { IfOk result (λ p. placed_view p ≡ index_place (is_among locals.now.mutable.now) (is_among locals.now.sure.now) (map target_view targets.now) rest_is_plain next (view target.now)) }
{
    match target {
        Tree::ArraySelect { index, .. } => {
            operand_of(alloc, locals, targets, rest_is_plain, next, index)
        }
        Tree::VarDef { .. }
        | Tree::Skip { .. }
        | Tree::Block { .. }
        | Tree::Labeled { .. }
        | Tree::Assign { .. }
        | Tree::Return { .. }
        | Tree::If { .. }
        | Tree::While { .. }
        | Tree::DoWhile { .. }
        | Tree::TryCatch { .. }
        | Tree::TryFinally { .. }
        | Tree::Throw { .. }
        | Tree::Match { .. }
        | Tree::New { .. }
        | Tree::LoadModule { .. }
        | Tree::StoreModule { .. }
        | Tree::Select { .. }
        | Tree::Apply { .. }
        | Tree::ApplyStatically { .. }
        | Tree::ApplyStatic { .. }
        | Tree::UnaryOp { .. }
        | Tree::BinaryOp { .. }
        | Tree::NewArray { .. }
        | Tree::ArrayValue { .. }
        | Tree::ArrayLength { .. }
        | Tree::IsInstanceOf { .. }
        | Tree::AsInstanceOf { .. }
        | Tree::Undefined { .. }
        | Tree::Null { .. }
        | Tree::BooleanLiteral { .. }
        | Tree::CharLiteral { .. }
        | Tree::ByteLiteral { .. }
        | Tree::ShortLiteral { .. }
        | Tree::IntLiteral { .. }
        | Tree::LongLiteral { .. }
        | Tree::StringLiteral { .. }
        | Tree::This { .. }
        | Tree::Log { .. }
        | Tree::VarRef { .. }
        | Tree::SelectStatic { .. } => Ok(in_place(alloc, CoreExpression::Undefined, next)),
    }
}

// An assignment of what the one tree comes to, to what the other names, behind the object of a field, or the array and the index of an element.
// A tree that names nothing writes nothing.
#[cycle(trees)]
fn assignment_of(
    alloc: Global,
    locals: &Locals<'_>,
    targets: &[Target],
    next: u64,
    position: Position,
    value: &Tree,
    target: &Tree,
    owner: Placed,
    index: Placed,
) -> Result<Written, NoMemory>
    ensures { IfOk result (λ w. code_view w ≡ assigned_code (is_among locals.now.mutable.now) (is_among locals.now.sure.now) (map target_view targets.now) next position (view target.now) (view value.now) (placed_view owner) (placed_view index)) }
{
    match target {
        Tree::VarRef { name, tpe, .. } => {
            let new_value = operand_of(alloc, locals, targets, true, next, value)?;
            assigned(alloc, position, name, tpe, value, new_value)
        }
        Tree::Select {
            class,
            field: name,
            tpe,
            ..
        } => {
            let new_value = operand_of(alloc, locals, targets, true, owner.next, value)?;
            let place = FieldPlace { class, name, tpe };
            field_set(alloc, position, &place, value, owner, new_value)
        }
        Tree::SelectStatic {
            class,
            field: name,
            tpe,
            ..
        } => {
            let new_value = operand_of(alloc, locals, targets, true, next, value)?;
            let place = FieldPlace { class, name, tpe };
            static_set(alloc, position, &place, value, new_value)
        }
        Tree::ArraySelect { tpe, .. } => {
            let new_value = operand_of(alloc, locals, targets, true, index.next, value)?;
            element_set(alloc, position, tpe, value, owner, index, new_value)
        }
        Tree::VarDef { .. }
        | Tree::Skip { .. }
        | Tree::Block { .. }
        | Tree::Labeled { .. }
        | Tree::Assign { .. }
        | Tree::Return { .. }
        | Tree::If { .. }
        | Tree::While { .. }
        | Tree::DoWhile { .. }
        | Tree::TryCatch { .. }
        | Tree::TryFinally { .. }
        | Tree::Throw { .. }
        | Tree::Match { .. }
        | Tree::New { .. }
        | Tree::LoadModule { .. }
        | Tree::StoreModule { .. }
        | Tree::Apply { .. }
        | Tree::ApplyStatically { .. }
        | Tree::ApplyStatic { .. }
        | Tree::UnaryOp { .. }
        | Tree::BinaryOp { .. }
        | Tree::NewArray { .. }
        | Tree::ArrayValue { .. }
        | Tree::ArrayLength { .. }
        | Tree::IsInstanceOf { .. }
        | Tree::AsInstanceOf { .. }
        | Tree::Undefined { .. }
        | Tree::Null { .. }
        | Tree::BooleanLiteral { .. }
        | Tree::CharLiteral { .. }
        | Tree::ByteLiteral { .. }
        | Tree::ShortLiteral { .. }
        | Tree::IntLiteral { .. }
        | Tree::LongLiteral { .. }
        | Tree::StringLiteral { .. }
        | Tree::This { .. }
        | Tree::Log { .. } => Ok(nothing(alloc, next)),
    }
}

// An operand in its place or in a variable of its own, by whether all operands behind it are plain.
#[cycle(trees)]
#[tactic(auto, unfolding(crate::specs::Operands::comes_to))]
fn operand_of(
    alloc: Global,
    locals: &Locals<'_>,
    targets: &[Target],
    rest_is_plain: bool,
    next: u64,
    tree: &Tree,
) -> Result<Placed, NoMemory>
    ensures { IfOk result (λ p. placed_view p ≡ comes_to (is_among locals.now.mutable.now) (is_among locals.now.sure.now) (map target_view targets.now) rest_is_plain next (view tree.now)) }
{
    let plain = is_plain(tree);
    if are_both(plain, rest_is_plain) {
        Ok(in_place(alloc, expression_of(alloc, locals.sure, tree)?, next))
    } else if is_fixed(locals.mutable, tree) {
        Ok(in_place(alloc, expression_of(alloc, locals.sure, tree)?, next))
    } else if plain {
        let value = expression_of(alloc, locals.sure, tree)?;
        kept(alloc, position_of(tree), value, next)
    } else {
        let variable = operand_destination(alloc, next, tree)?;
        let behind = number_behind(next)?;
        let code = statements_of(alloc, locals, targets, &variable, behind, tree)?;
        brought(alloc, position_of(tree), next, code)
    }
}

// A receiver as an operand, with its null check unless it is sure.
#[cycle(trees)]
#[tactic(auto, unfolding(crate::specs::Operands::comes_received))]
fn receiver_of(
    alloc: Global,
    locals: &Locals<'_>,
    targets: &[Target],
    rest_is_plain: bool,
    next: u64,
    tree: &Tree,
) -> Result<Placed, NoMemory>
    ensures { IfOk result (λ p. placed_view p ≡ comes_received (is_among locals.now.mutable.now) (is_among locals.now.sure.now) (map target_view targets.now) rest_is_plain next (view tree.now)) }
{
    let never_null = is_sure(alloc, locals.sure, tree)?;
    if never_null {
        operand_of(alloc, locals, targets, rest_is_plain, next, tree)
    } else {
        checked_receiver(alloc, locals, targets, rest_is_plain, next, tree)
    }
}

// A receiver with its null check as an operand.
#[cycle(trees)]
fn checked_receiver(
    alloc: Global,
    locals: &Locals<'_>,
    targets: &[Target],
    rest_is_plain: bool,
    next: u64,
    tree: &Tree,
) -> Result<Placed, NoMemory>
    ensures { IfOk result (λ p. placed_view p ≡ placed rest_is_plain (desugar.received false (desugar.operand (is_among locals.now.mutable.now) (is_among locals.now.sure.now) (view tree.now) (λ k j. desugar.into (is_among locals.now.mutable.now) (is_among locals.now.sure.now) (map target_view targets.now) k j (view tree.now)))) next) }
{
    let plain = is_plain(tree);
    if are_both(plain, rest_is_plain) {
        let value = expression_of(alloc, locals.sure, tree)?;
        Ok(in_place(alloc, checked(alloc, value)?, next))
    } else if plain {
        let value = expression_of(alloc, locals.sure, tree)?;
        kept(alloc, position_of(tree), checked(alloc, value)?, next)
    } else {
        let variable = operand_destination(alloc, next, tree)?;
        let behind = number_behind(next)?;
        let inner = operand_of(alloc, locals, targets, true, behind, tree)?;
        let code = checked_operand(alloc, &variable, tree, inner)?;
        brought(alloc, position_of(tree), next, code)
    }
}

fn are_both(one: bool, other: bool) -> bool
    ensures { result ≡ (one && other) }
{
    one && other
}

// Trees in a row: each but the last gives its value up.
#[cycle(trees)]
#[tactic(auto, using(std::proofs::lemmas::Grind::common_steps, crate::proofs::Runs::ends))]
fn block_of(
    alloc: Global,
    locals: &Locals<'_>,
    targets: &[Target],
    destination: &Destination,
    next: u64,
    trees: &[Tree],
) -> Result<Written, NoMemory>
    ensures { IfOk result (λ w. code_view w ≡ desugar.block (is_among locals.now.mutable.now) (is_among locals.now.sure.now) (map target_view targets.now) (destination_view destination.now) next (terms_view trees.now)) }
{
    let mut written = nothing(alloc, next);
    for (index, each) in trees.iter().enumerate() {
        let nowhere = Destination::Discard;
        let goes_to = for_last(&trees[index + 1..], destination, &nowhere);
        let code = statements_of(alloc, locals, targets, goes_to, written.next, each)?;
        written = joined(written, code)?;
    }
    Ok(written)
}

// The one destination where no tree is left, else the other.
fn for_last<'d>(others: &[Tree], last: &'d Destination, other: &'d Destination) -> &'d Destination
    ensures { destination_view result.now ≡ forms.for_last others.now (destination_view last.now) (destination_view other.now) }
{
    match others {
        [] => last,
        [_, ..] => other,
    }
}

// The arguments of a call whose parameters have these references.
#[cycle(trees)]
#[tactic(auto, using(std::proofs::lemmas::Grind::common_steps, crate::proofs::Runs::ends))]
fn arguments_of(
    alloc: Global,
    locals: &Locals<'_>,
    targets: &[Target],
    params: &[TypeRef],
    next: u64,
    trees: &[Tree],
) -> Result<PlacedAll, NoMemory>
    ensures { IfOk result (λ r. all_view r ≡ with_arguments params.now (desugar.types_of (terms_view trees.now)) (spill (desugar.operands (is_among locals.now.mutable.now) (is_among locals.now.sure.now) (map target_view targets.now) (terms_view trees.now)) next)) }
{
    let mut written = nothing(alloc, next);
    let mut expressions = Vec::new(alloc);
    let mut left = params;
    for (index, each) in trees.iter().enumerate() {
        let rest_is_plain = are_plain(&trees[index + 1..]);
        let operand = operand_of(alloc, locals, targets, rest_is_plain, written.next, each)?;
        let front = Written {
            statements: operand.statements,
            next: operand.next,
        };
        written = joined(written, front)?;
        let own = type_of(alloc, each)?;
        expressions.push(coerced_argument(alloc, left, &own, operand.expression)?)?;
        left = without_first(left);
    }
    Ok(PlacedAll {
        statements: written.statements,
        expressions,
        next: written.next,
    })
}

// The items of an array whose elements have this type.
#[cycle(trees)]
#[tactic(auto, using(std::proofs::lemmas::Grind::common_steps, crate::proofs::Runs::ends))]
fn items_of(
    alloc: Global,
    locals: &Locals<'_>,
    targets: &[Target],
    expected: &IrType,
    next: u64,
    trees: &[Tree],
) -> Result<PlacedAll, NoMemory>
    ensures { IfOk result (λ r. all_view r ≡ with_items expected.now (desugar.types_of (terms_view trees.now)) (spill (desugar.operands (is_among locals.now.mutable.now) (is_among locals.now.sure.now) (map target_view targets.now) (terms_view trees.now)) next)) }
{
    let mut written = nothing(alloc, next);
    let mut expressions = Vec::new(alloc);
    for (index, each) in trees.iter().enumerate() {
        let rest_is_plain = are_plain(&trees[index + 1..]);
        let operand = operand_of(alloc, locals, targets, rest_is_plain, written.next, each)?;
        let front = Written {
            statements: operand.statements,
            next: operand.next,
        };
        written = joined(written, front)?;
        expressions.push(coerced_value(alloc, expected, each, operand.expression)?)?;
    }
    Ok(PlacedAll {
        statements: written.statements,
        expressions,
        next: written.next,
    })
}

// The cases of a switch: one without keys is left out.
#[cycle(trees)]
fn cases_of(
    alloc: Global,
    locals: &Locals<'_>,
    targets: &[Target],
    destination: &Destination,
    next: u64,
    cases: &[MatchCase],
) -> Result<SwitchCases, NoMemory>
    ensures { IfOk result (λ b. branches_view b ≡ desugar.cases (is_among locals.now.mutable.now) (is_among locals.now.sure.now) (map target_view targets.now) (destination_view destination.now) next (cases_view cases.now)) }
{
    let mut number = next;
    let mut switched = Vec::new(alloc);
    for each in cases {
        let keys = each.keys.as_slice();
        if keys.is_empty() {
            continue;
        }
        let code = statements_of(alloc, locals, targets, destination, number, &each.body)?;
        number = code.next;
        switched.push(case_of(alloc, keys, code)?)?;
    }
    Ok(SwitchCases {
        cases: switched,
        next: number,
    })
}
