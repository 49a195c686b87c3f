// The conditions of each form of tree.
ghost use Rattle.std.specs.Prelude.{◌≡◌, ◌∷◌, ◌++◌, ◌&&◌, [], true, false, Some, None, IfOk, codes};
ghost use Rattle.sj_world.specs.Known.{is_same};
ghost use Rattle.sj_trees.specs.View.{view, terms_view, cases_view};
ghost use Rattle.sj_trees.specs.TypeOf.{type_of_term};
ghost use Rattle.sj_trees.specs.Types.{class_type, element_type};
ghost use Rattle.sj_trees.specs.declared.types.IrType.TheVariants as types;
ghost use Rattle.sj_typing_spec.specs.Labels as around;
ghost use Rattle.sj_trees.specs.SameTypes.{is_same_type};
ghost use Rattle.sj_typing_spec.specs.Rows as rows;
ghost use Rattle.sj_typing_spec.specs.Rules as rules;

use crate::fits::{add_all, add_arguments, add_cases, add_fit, add_yield, are_as_many};
use crate::labels::type_of_label;
use crate::types::{
    call_type, has_items, has_receiver, is_array, is_cast_type, is_init, is_own, is_receiver,
    is_static, is_test_type, is_text, is_type, left_operand, right_operand, unary_operand,
};
use sj_names::{ArrayRef, ClassName, FieldName, Items, LabelName, MethodName, Namespace, NoMemory};
use sj_trees::{BinaryOp, IrType, MatchCase, Tree, type_of};
use sj_typing_spec::{FieldUse, Fit, Label, Row};
use std::alloc::Global;

fn no_row(alloc: Global) -> Row
    ensures { result ≡ rows.no_row }
{
    fitting(Vec::new(alloc))
}

fn fitting(fits: Vec<Fit>) -> Row
    ensures { result ≡ rows.fitting fits.items }
{
    demanding(true, fits)
}

fn demanding(holds: bool, fits: Vec<Fit>) -> Row
    ensures { result ≡ rows.demanding holds fits.items }
{
    Row {
        holds,
        fits: Items::from_vec(fits),
        field: None,
    }
}

/// The conditions of a tree in a method of this namespace, with these labels around it; of an assignment whether its left side may be set.
pub fn row_of(
    alloc: Global,
    namespace: Namespace,
    labels: &[Label],
    settable: bool,
    tree: &Tree,
) -> Result<Row, NoMemory>
    ensures { IfOk result (λ r. r ≡ rows.row_of namespace labels.now settable (view tree.now)) }
{
    match tree {
        Tree::VarDef { tpe, value, .. } => fits_one(alloc, value, tpe.copied()?),
        Tree::Labeled { tpe, body, .. } => yields_one(alloc, body, tpe),
        Tree::Assign { target, value, .. } => assign_row(alloc, settable, target, value),
        Tree::Return { value, label, .. } => return_row(alloc, labels, value, label),
        Tree::If {
            condition,
            yes,
            no,
            tpe,
            ..
        } => if_row(alloc, condition, yes, no, tpe),
        Tree::While { condition, .. } | Tree::DoWhile { condition, .. } => {
            fits_one(alloc, condition, IrType::Boolean)
        }
        Tree::TryCatch {
            block,
            handler,
            tpe,
            ..
        } => yields_two(alloc, block, handler, tpe),
        Tree::Throw { value, .. } => fits_one(alloc, value, IrType::Any),
        Tree::Match {
            selector,
            cases,
            default,
            tpe,
            ..
        } => { match_row(alloc, selector, cases, default, tpe) }
        Tree::New {
            constructor: method,
            arguments: trees,
            ..
        } => new_row(alloc, method, trees),
        Tree::StoreModule { class, value, .. } => {
            fits_one(alloc, value, IrType::of_class(class.copied()?))
        }
        Tree::Select {
            object,
            class,
            field,
            tpe,
            ..
        } => { select_row(alloc, namespace, object, class, field, tpe) }
        Tree::SelectStatic {
            class,
            field,
            tpe,
            ..
        } => static_row(alloc, class, field, tpe),
        Tree::Apply {
            receiver,
            method,
            arguments: trees,
            tpe,
            ..
        } => { apply_row(alloc, receiver, method, trees, tpe) }
        Tree::ApplyStatically {
            receiver,
            class,
            namespace: space,
            method,
            arguments: trees,
            tpe,
            ..
        } => { statically_row(alloc, receiver, class, *space, method, trees, tpe) }
        Tree::ApplyStatic {
            namespace: space,
            method,
            arguments: trees,
            tpe,
            ..
        } => { call_row(alloc, is_static(*space), method, trees, tpe) }
        Tree::UnaryOp {
            operator: op,
            operand,
            ..
        } => fits_one(alloc, operand, unary_operand(*op)),
        Tree::BinaryOp {
            operator: op,
            left,
            right,
            ..
        } => operands_row(alloc, *op, left, right),
        Tree::NewArray { length, .. } => fits_one(alloc, length, IrType::Int),
        Tree::ArrayValue {
            array,
            items: trees,
            ..
        } => items_row(alloc, array, trees),
        Tree::ArrayLength { array, .. } => length_row(alloc, array),
        Tree::ArraySelect {
            array,
            index,
            tpe,
            ..
        } => item_row(alloc, array, index, tpe),
        Tree::IsInstanceOf { value, tpe, .. } => any_row(alloc, is_test_type(tpe), value),
        Tree::AsInstanceOf { value, tpe, .. } => any_row(alloc, is_cast_type(tpe), value),
        Tree::Log { value, .. } => fits_one(alloc, value, IrType::String),
        Tree::Skip { .. }
        | Tree::Block { .. }
        | Tree::TryFinally { .. }
        | Tree::LoadModule { .. }
        | Tree::Undefined { .. }
        | Tree::Null { .. }
        | Tree::BooleanLiteral { .. }
        | Tree::CharLiteral { .. }
        | Tree::ByteLiteral { .. }
        | Tree::ShortLiteral { .. }
        | Tree::IntLiteral { .. }
        | Tree::LongLiteral { .. }
        | Tree::StringLiteral { .. }
        | Tree::VarRef { .. }
        | Tree::This { .. } => Ok(no_row(alloc)),
    }
}

fn fits_one(alloc: Global, tree: &Tree, above: IrType) -> Result<Row, NoMemory>
    ensures { IfOk result (λ r. r ≡ rows.fitting (rows.fit (view tree.now) above ∷ [])) }
{
    let mut fits = Vec::new(alloc);
    add_fit(alloc, &mut fits, tree, above)?;
    Ok(fitting(fits))
}

fn yields_one(alloc: Global, tree: &Tree, tpe: &IrType) -> Result<Row, NoMemory>
    ensures { IfOk result (λ r. r ≡ rows.fitting (rows.yield (view tree.now) tpe.now)) }
{
    let mut fits = Vec::new(alloc);
    add_yield(alloc, &mut fits, tree, tpe)?;
    Ok(fitting(fits))
}

fn yields_two(alloc: Global, one: &Tree, two: &Tree, tpe: &IrType) -> Result<Row, NoMemory>
    ensures { IfOk result (λ r. r ≡ rows.fitting (rows.yield (view one.now) tpe.now ++ rows.yield (view two.now) tpe.now)) }
{
    let mut fits = Vec::new(alloc);
    add_yield(alloc, &mut fits, one, tpe)?;
    add_yield(alloc, &mut fits, two, tpe)?;
    Ok(fitting(fits))
}

fn assign_row(alloc: Global, settable: bool, target: &Tree, value: &Tree) -> Result<Row, NoMemory>
    ensures { IfOk result (λ r. r ≡ rows.demanding settable (rows.fit (view value.now) (type_of_term (view target.now)) ∷ [])) }
{
    let tpe = type_of(alloc, target)?;
    let mut fits = Vec::new(alloc);
    add_fit(alloc, &mut fits, value, tpe)?;
    Ok(demanding(settable, fits))
}

fn return_row(
    alloc: Global,
    labels: &[Label],
    value: &Tree,
    label: &LabelName,
) -> Result<Row, NoMemory>
    ensures { IfOk result (λ r. r ≡ rows.return_row (view value.now) (around.type_of_label labels.now label.now)) }
{
    match type_of_label(labels, label) {
        Some(tpe) => yields_one(alloc, value, tpe),
        None => Ok(demanding(false, Vec::new(alloc))),
    }
}

fn if_row(
    alloc: Global,
    condition: &Tree,
    yes: &Tree,
    no: &Tree,
    tpe: &IrType,
) -> Result<Row, NoMemory>
    ensures { IfOk result (λ r. r ≡ rows.fitting (rows.fit (view condition.now) types.Boolean ∷ (rows.yield (view yes.now) tpe.now ++ rows.yield (view no.now) tpe.now))) }
{
    let mut fits = Vec::new(alloc);
    add_fit(alloc, &mut fits, condition, IrType::Boolean)?;
    add_yield(alloc, &mut fits, yes, tpe)?;
    add_yield(alloc, &mut fits, no, tpe)?;
    Ok(fitting(fits))
}

fn match_row(
    alloc: Global,
    selector: &Tree,
    cases: &[MatchCase],
    default: &Tree,
    tpe: &IrType,
) -> Result<Row, NoMemory>
    ensures { IfOk result (λ r. r ≡ rows.fitting (rows.fit (view selector.now) types.Int ∷ (rows.cases_yield (cases_view cases.now) tpe.now ++ rows.yield (view default.now) tpe.now))) }
{
    let mut fits = Vec::new(alloc);
    add_fit(alloc, &mut fits, selector, IrType::Int)?;
    add_cases(alloc, &mut fits, cases, tpe)?;
    add_yield(alloc, &mut fits, default, tpe)?;
    Ok(fitting(fits))
}

fn new_row(alloc: Global, method: &MethodName, trees: &[Tree]) -> Result<Row, NoMemory>
    ensures { IfOk result (λ r. r ≡ rows.demanding (is_same method.now.simple (codes "<init>") && rows.are_as_many (terms_view trees.now) method.now.params) (rows.arguments_fit (terms_view trees.now) method.now.params)) }
{
    let params = method.params.as_slice();
    let holds = is_init(&method.simple) && are_as_many(trees, params);
    let mut fits = Vec::new(alloc);
    add_arguments(alloc, &mut fits, trees, params)?;
    Ok(demanding(holds, fits))
}

fn select_row(
    alloc: Global,
    namespace: Namespace,
    object: &Tree,
    class: &ClassName,
    field: &FieldName,
    tpe: &IrType,
) -> Result<Row, NoMemory>
    ensures { IfOk result (λ r. r ≡ record { holds = true; fits = rows.fit (view object.now) (class_type class.now) ∷ []; field = Some (record { class = class.now; name = field.now; is_static = false; tpe = tpe.now; is_own = rows.is_own namespace (view object.now) class.now }) }) }
{
    let is_own = is_own(namespace, object, class)?;
    let mut fits = Vec::new(alloc);
    add_fit(alloc, &mut fits, object, IrType::of_class(class.copied()?))?;
    let field = field_use(class, field, false, tpe, is_own)?;
    Ok(using(fits, field))
}

fn static_row(
    alloc: Global,
    class: &ClassName,
    field: &FieldName,
    tpe: &IrType,
) -> Result<Row, NoMemory>
    ensures { IfOk result (λ r. r ≡ record { holds = true; fits = []; field = Some (record { class = class.now; name = field.now; is_static = true; tpe = tpe.now; is_own = false }) }) }
{
    let field = field_use(class, field, true, tpe, false)?;
    Ok(using(Vec::new(alloc), field))
}

fn using(fits: Vec<Fit>, field: FieldUse) -> Row
    ensures { result ≡ record { holds = true; fits = fits.items; field = Some field } }
{
    Row {
        holds: true,
        fits: Items::from_vec(fits),
        field: Some(field),
    }
}

fn field_use(
    class: &ClassName,
    name: &FieldName,
    is_static: bool,
    tpe: &IrType,
    is_own: bool,
) -> Result<FieldUse, NoMemory>
    ensures { IfOk result (λ u. u ≡ record { class = class.now; name = name.now; is_static = is_static; tpe = tpe.now; is_own = is_own }) }
{
    let class = class.copied()?;
    let name = name.copied()?;
    let tpe = tpe.copied()?;
    Ok(FieldUse {
        class,
        name,
        is_static,
        tpe,
        is_own,
    })
}

fn apply_row(
    alloc: Global,
    receiver: &Tree,
    method: &MethodName,
    trees: &[Tree],
    tpe: &IrType,
) -> Result<Row, NoMemory>
    ensures { IfOk result (λ r. r ≡ rows.demanding (rows.has_receiver (type_of_term (view receiver.now)) && (is_same_type tpe.now (rules.call_type method.now.result) && rows.are_as_many (terms_view trees.now) method.now.params)) (rows.arguments_fit (terms_view trees.now) method.now.params)) }
{
    let receiver = type_of(alloc, receiver)?;
    call_row(alloc, has_receiver(&receiver), method, trees, tpe)
}

fn call_row(
    alloc: Global,
    holds: bool,
    method: &MethodName,
    trees: &[Tree],
    tpe: &IrType,
) -> Result<Row, NoMemory>
    ensures { IfOk result (λ r. r ≡ rows.demanding (holds && (is_same_type tpe.now (rules.call_type method.now.result) && rows.are_as_many (terms_view trees.now) method.now.params)) (rows.arguments_fit (terms_view trees.now) method.now.params)) }
{
    let holds = holds && is_call(method, trees, tpe)?;
    let mut fits = Vec::new(alloc);
    add_arguments(alloc, &mut fits, trees, method.params.as_slice())?;
    Ok(demanding(holds, fits))
}

// Whether the type is that of the call, and there are as many arguments as parameters.
fn is_call(method: &MethodName, trees: &[Tree], tpe: &IrType) -> Result<bool, NoMemory>
    ensures { IfOk result (λ is. is ≡ (is_same_type tpe.now (rules.call_type method.now.result) && rows.are_as_many (terms_view trees.now) method.now.params)) }
{
    let wanted = call_type(method)?;
    Ok(is_type(tpe, &wanted) && are_as_many(trees, method.params.as_slice()))
}

fn statically_row(
    alloc: Global,
    receiver: &Tree,
    class: &ClassName,
    namespace: Namespace,
    method: &MethodName,
    trees: &[Tree],
    tpe: &IrType,
) -> Result<Row, NoMemory>
    ensures { IfOk result (λ r. r ≡ rows.demanding (rows.is_receiver namespace (view receiver.now) && (is_same_type tpe.now (rules.call_type method.now.result) && rows.are_as_many (terms_view trees.now) method.now.params)) (rows.fit (view receiver.now) (class_type class.now) ∷ rows.arguments_fit (terms_view trees.now) method.now.params)) }
{
    let holds = is_receiver(namespace, receiver) && is_call(method, trees, tpe)?;
    let mut fits = Vec::new(alloc);
    add_fit(
        alloc,
        &mut fits,
        receiver,
        IrType::of_class(class.copied()?),
    )?;
    add_arguments(alloc, &mut fits, trees, method.params.as_slice())?;
    Ok(demanding(holds, fits))
}

fn operands_row(alloc: Global, op: BinaryOp, left: &Tree, right: &Tree) -> Result<Row, NoMemory>
    ensures { IfOk result (λ r. r ≡ rows.operands_row op (view left.now) (view right.now)) }
{
    match op {
        BinaryOp::StringConcatenate => texts_row(alloc, left, right),
        _ => fits_two(alloc, op, left, right),
    }
}

fn texts_row(alloc: Global, left: &Tree, right: &Tree) -> Result<Row, NoMemory>
    ensures { IfOk result (λ r. r ≡ rows.demanding (rows.is_text (type_of_term (view left.now)) && rows.is_text (type_of_term (view right.now))) []) }
{
    let left = type_of(alloc, left)?;
    let right = type_of(alloc, right)?;
    Ok(demanding(is_text(&left) && is_text(&right), Vec::new(alloc)))
}

fn fits_two(alloc: Global, op: BinaryOp, left: &Tree, right: &Tree) -> Result<Row, NoMemory>
    ensures { IfOk result (λ r. r ≡ rows.fitting (rows.fit (view left.now) (rules.left_operand op) ∷ rows.fit (view right.now) (rules.right_operand op) ∷ [])) }
{
    let mut fits = Vec::new(alloc);
    add_fit(alloc, &mut fits, left, left_operand(op))?;
    add_fit(alloc, &mut fits, right, right_operand(op))?;
    Ok(fitting(fits))
}

fn items_row(alloc: Global, array: &ArrayRef, trees: &[Tree]) -> Result<Row, NoMemory>
    ensures { IfOk result (λ r. r ≡ rows.fitting (rows.all_fit (terms_view trees.now) (element_type array.now))) }
{
    let item = IrType::of_items(array)?;
    let mut fits = Vec::new(alloc);
    add_all(alloc, &mut fits, trees, &item)?;
    Ok(fitting(fits))
}

fn length_row(alloc: Global, array: &Tree) -> Result<Row, NoMemory>
    ensures { IfOk result (λ r. r ≡ rows.demanding (rows.is_array (type_of_term (view array.now))) []) }
{
    let tpe = type_of(alloc, array)?;
    Ok(demanding(is_array(&tpe), Vec::new(alloc)))
}

fn item_row(alloc: Global, array: &Tree, index: &Tree, tpe: &IrType) -> Result<Row, NoMemory>
    ensures { IfOk result (λ r. r ≡ rows.demanding (rows.has_items (type_of_term (view array.now)) tpe.now) (rows.fit (view index.now) types.Int ∷ [])) }
{
    let array = type_of(alloc, array)?;
    let holds = has_items(&array, tpe)?;
    let mut fits = Vec::new(alloc);
    add_fit(alloc, &mut fits, index, IrType::Int)?;
    Ok(demanding(holds, fits))
}

fn any_row(alloc: Global, holds: bool, value: &Tree) -> Result<Row, NoMemory>
    ensures { IfOk result (λ r. r ≡ rows.demanding holds (rows.fit (view value.now) types.Any ∷ [])) }
{
    let mut fits = Vec::new(alloc);
    add_fit(alloc, &mut fits, value, IrType::Any)?;
    Ok(demanding(holds, fits))
}
