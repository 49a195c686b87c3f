// The check of trees.
ghost use Rattle.std.specs.Prelude.{◌≡◌, Some, Ok, IfOk, OnOk};
ghost use Rattle.sj_trees.specs.View.{view, terms_view, cases_view};
ghost use Rattle.sj_ask.specs.Answers.{IsAnswer};
ghost use Rattle.sj_ask.specs.Sizes.{next, counted, counted_all, counted_cases};
ghost use Rattle.sj_typing_spec.specs.Numbers.{counted_parts};
ghost use Rattle.sj_ask.specs.Tasks as tasks;
ghost use Rattle.sj_ask.specs.Tasks.{asks_sub, asks_field};
ghost use Rattle.sj_ask.specs.Runs.{Ran};
ghost use Rattle.sj_typing_spec.specs.Nodes.{inside};
ghost use Rattle.sj_typing_spec.specs.Checks as checks;
ghost use Rattle.sj_typing_spec.specs.Answered as answered;
ghost use Rattle.sj_typing_spec.specs.Answered.{AsRun, seen, agreed, ended};
ghost use Rattle.sj_typing_spec.specs.Rows as rows;
ghost use Rattle.sj_ask.specs.declared.errors.TypeError.{TypeError};

use crate::rows::row_of;
use crate::types::is_type;
use sj_ask::{Answer, Oracle, Question, TypeError};
use sj_names::{LabelName, Namespace, NoMemory};
use sj_trees::{FieldDef, IrType, MatchCase, Tree};
use sj_typing_spec::{Checked, FieldUse, Fit, Label, Row};
use std::alloc::Global;

#[tactic(auto, unfolding(sj_ask::specs::Sizes::next))]
fn next(place: u32) -> u32
    ensures { result ≡ next place }
{
    place.saturating_add(1)
}

fn says_yes(answer: Answer) -> bool
    ensures { result ≡ tasks.says_yes answer }
{
    is_yes(&answer)
}

fn is_yes(answer: &Answer) -> bool
    ensures { result ≡ tasks.says_yes answer.now }
{
    match answer {
        Answer::Yes(yes) => *yes,
        Answer::Field(_) | Answer::Member(_) | Answer::Body(_) => false,
    }
}

fn sub_question(sub: &IrType, above: &IrType) -> Result<Question, NoMemory>
    ensures { IfOk result (λ q. q ≡ Question.IsSub sub.now above.now) }
{
    Ok(Question::IsSub(sub.copied()?, above.copied()?))
}

fn field_question(used: &FieldUse) -> Result<Question, NoMemory>
    ensures { IfOk result (λ q. q ≡ Question.Field used.now.class used.now.name used.now.is_static) }
{
    let class = used.class.copied()?;
    let name = used.name.copied()?;
    Ok(Question::Field(class, name, used.is_static))
}

/// Whether the first type is a subtype of the second.
pub fn ask_sub<O: Oracle>(
    alloc: Global,
    sub: &IrType,
    above: &IrType,
    oracle: &mut O,
) -> Result<bool, NoMemory>
    ensures stand { O.stand oracle.new ≡ O.stand oracle.old }
    ensures ran { IfOk result (λ yes. Ran (IsAnswer (O.stand oracle.old)) (asks_sub {E = TypeError} sub.now above.now) (Ok yes) (O.told oracle.old) (O.told oracle.new)) }
{
    let question = sub_question(sub, above)?;
    let answer = oracle.answer(alloc, &question)?;
    Ok(says_yes(answer))
}

// The answer with the field of the class with this name and static mark.
fn ask_for_field<O: Oracle>(
    alloc: Global,
    used: &FieldUse,
    oracle: &mut O,
) -> Result<Answer, NoMemory>
    ensures stand { O.stand oracle.new ≡ O.stand oracle.old }
    ensures ran { IfOk result (λ found. Ran (IsAnswer (O.stand oracle.old)) (asks_field {E = TypeError} used.now.class used.now.name used.now.is_static) (Ok (tasks.found_field found)) (O.told oracle.old) (O.told oracle.new)) }
{
    let question = field_question(used)?;
    let answer = oracle.answer(alloc, &question)?;
    Ok(answer)
}

// Asks for a field, if there is one to ask for, and gives whether it may be assigned to.
fn ask_field<O: Oracle>(
    alloc: Global,
    fault: TypeError,
    used: &Option<FieldUse>,
    oracle: &mut O,
) -> Result<bool, TypeError>
    ensures stand { O.stand oracle.new ≡ O.stand oracle.old }
    ensures ran { AsRun (IsAnswer (O.stand oracle.old)) (checks.ask_field fault used.now) result (O.told oracle.old) (O.told oracle.new) }
{
    match used {
        Some(used) => {
            let found = ask_for_field(alloc, used, oracle)?;
            judge_field(fault, used, found)
        }
        None => Ok(true),
    }
}

fn judge_field(fault: TypeError, used: &FieldUse, found: Answer) -> Result<bool, TypeError>
    ensures { checks.judge_field fault used.now (tasks.found_field found) ≡ ended result }
{
    judge_answer(fault, used, &found)
}

fn judge_answer(fault: TypeError, used: &FieldUse, found: &Answer) -> Result<bool, TypeError>
    ensures { checks.judge_field fault used.now (tasks.found_field found.now) ≡ ended result }
{
    match found {
        Answer::Field(found) => judge_named(fault, used, found),
        Answer::Yes(_) | Answer::Member(_) | Answer::Body(_) => Err(fault),
    }
}

fn judge_named(
    fault: TypeError,
    used: &FieldUse,
    found: &Option<FieldDef>,
) -> Result<bool, TypeError>
    ensures { checks.judge_field fault used.now found.now ≡ ended result }
{
    match found {
        Some(field) => judge_found(fault, used, field),
        None => Err(fault),
    }
}

fn judge_found(fault: TypeError, used: &FieldUse, field: &FieldDef) -> Result<bool, TypeError>
    ensures { checks.judge_field fault used.now (Some field.now) ≡ ended result }
{
    if is_type(&field.tpe, &used.tpe) {
        Ok(field.mutable || used.is_own)
    } else {
        Err(fault)
    }
}

// Asks for subtypes, up to the first no.
fn ask_fits<O: Oracle>(
    alloc: Global,
    fault: TypeError,
    fits: &[Fit],
    oracle: &mut O,
) -> Result<(), TypeError>
    ensures stand { O.stand oracle.new ≡ O.stand oracle.old }
    ensures ran { AsRun (IsAnswer (O.stand oracle.old)) (checks.ask_fits fault fits.now) (agreed result) (O.told oracle.old) (O.told oracle.new) }
{
    for fit in fits {
        if !ask_sub(alloc, &fit.sub, &fit.above, oracle)? {
            return Err(fault);
        }
    }
    Ok(())
}

// Judges the conditions of one tree, and gives whether what it names may be assigned to.
fn ask_row<O: Oracle>(
    alloc: Global,
    fault: TypeError,
    row: &Row,
    oracle: &mut O,
) -> Result<bool, TypeError>
    ensures stand { O.stand oracle.new ≡ O.stand oracle.old }
    ensures ran { AsRun (IsAnswer (O.stand oracle.old)) (checks.ask_row fault row.now) result (O.told oracle.old) (O.told oracle.new) }
{
    if !row.holds {
        return Err(fault);
    }
    ask_fits(alloc, fault, row.fits.as_slice(), oracle)?;
    ask_field(alloc, fault, &row.field, oracle)
}

// Judges one tree, the trees in which were checked.
fn check_row<O: Oracle>(
    alloc: Global,
    namespace: Namespace,
    labels: &[Label],
    tree: &Tree,
    place: u32,
    settable: bool,
    oracle: &mut O,
) -> Result<bool, TypeError>
    ensures stand { O.stand oracle.new ≡ O.stand oracle.old }
    ensures ran { AsRun (IsAnswer (O.stand oracle.old)) (checks.ask_row (checks.fault_at (view tree.now) place) (rows.row_of namespace labels.now settable (view tree.now))) result (O.told oracle.old) (O.told oracle.new) }
{
    let row = row_of(alloc, namespace, labels, settable, tree)?;
    let fault = TypeError::Refused {
        rule: tree.form().code(),
        place,
    };
    ask_row(alloc, fault, &row, oracle)
}

/// Checks a tree and those in it, children before parents and left to right. Trees are numbered from `place`, parents first.
#[cycle(check)]
pub fn check<O: Oracle>(
    alloc: Global,
    namespace: Namespace,
    labels: &mut Vec<Label>,
    tree: &Tree,
    place: u32,
    oracle: &mut O,
) -> Result<Checked, TypeError>
    ensures stand { O.stand oracle.new ≡ O.stand oracle.old }
    ensures labels { OnOk result (labels.new.items ≡ labels.old.items) }
    ensures next { IfOk result (λ x. x.next ≡ counted (view tree.now) place) }
    ensures ran { AsRun (IsAnswer (O.stand oracle.old)) (checks.check_of namespace labels.old.items place (view tree.now)) (seen result) (O.told oracle.old) (O.told oracle.new) }
{
    let parts = check_parts(alloc, namespace, labels, tree, next(place), oracle)?;
    let settable = check_row(
        alloc,
        namespace,
        labels.as_slice(),
        tree,
        place,
        parts.settable,
        oracle,
    );
    numbered(settable, parts.next)
}

fn numbered(settable: Result<bool, TypeError>, next: u32) -> Result<Checked, TypeError>
    ensures { result ≡ answered.numbered settable next }
{
    match settable {
        Ok(settable) => Ok(Checked { next, settable }),
        Err(error) => Err(error),
    }
}

// Checks the trees in a tree, which are numbered from `place`.
#[cycle(check)]
fn check_parts<O: Oracle>(
    alloc: Global,
    namespace: Namespace,
    labels: &mut Vec<Label>,
    tree: &Tree,
    place: u32,
    oracle: &mut O,
) -> Result<Checked, TypeError>
    ensures stand { O.stand oracle.new ≡ O.stand oracle.old }
    ensures labels { OnOk result (labels.new.items ≡ labels.old.items) }
    ensures next { IfOk result (λ x. x.next ≡ counted_parts (view tree.now) place) }
    ensures ran { AsRun (IsAnswer (O.stand oracle.old)) (checks.parts_of namespace labels.old.items place (view tree.now)) (seen result) (O.told oracle.old) (O.told oracle.new) }
{
    match tree {
        Tree::VarDef { value: one, .. } => check(alloc, namespace, labels, one, place, oracle),
        Tree::Block { trees, .. } => check_all(alloc, namespace, labels, trees, place, oracle),
        Tree::Labeled {
            label,
            tpe,
            body,
            ..
        } => { check_labeled(alloc, namespace, labels, label, tpe, body, place, oracle) }
        Tree::Assign {
            target: one,
            value: two,
            ..
        } => {
            let first = check(alloc, namespace, labels, one, place, oracle)?;
            let second = check(alloc, namespace, labels, two, first.next, oracle);
            behind(first, second)
        }
        Tree::Return { value: one, .. } => check(alloc, namespace, labels, one, place, oracle),
        Tree::If {
            condition,
            yes,
            no,
            ..
        } => {
            let first = check(alloc, namespace, labels, condition, place, oracle)?;
            let second = check(alloc, namespace, labels, yes, first.next, oracle)?;
            let third = check(alloc, namespace, labels, no, second.next, oracle);
            behind(first, behind(second, third))
        }
        Tree::While {
            condition: one,
            body: two,
            ..
        } => {
            let first = check(alloc, namespace, labels, one, place, oracle)?;
            let second = check(alloc, namespace, labels, two, first.next, oracle);
            behind(first, second)
        }
        Tree::DoWhile {
            body: one,
            condition: two,
            ..
        } => {
            let first = check(alloc, namespace, labels, one, place, oracle)?;
            let second = check(alloc, namespace, labels, two, first.next, oracle);
            behind(first, second)
        }
        Tree::TryCatch {
            block: one,
            handler: two,
            ..
        } => {
            let first = check(alloc, namespace, labels, one, place, oracle)?;
            let second = check(alloc, namespace, labels, two, first.next, oracle);
            behind(first, second)
        }
        Tree::TryFinally {
            block: one,
            finalizer: two,
            ..
        } => {
            let first = check(alloc, namespace, labels, one, place, oracle)?;
            let second = check(alloc, namespace, labels, two, first.next, oracle);
            behind(first, second)
        }
        Tree::Throw { value: one, .. } => check(alloc, namespace, labels, one, place, oracle),
        Tree::Match {
            selector,
            cases,
            default,
            ..
        } => {
            let first = check(alloc, namespace, labels, selector, place, oracle)?;
            let second = check_cases(alloc, namespace, labels, cases, first.next, oracle)?;
            let third = check(alloc, namespace, labels, default, second.next, oracle);
            behind(first, behind(second, third))
        }
        Tree::New {
            arguments: trees,
            ..
        } => check_all(alloc, namespace, labels, trees, place, oracle),
        Tree::StoreModule { value: one, .. } => check(alloc, namespace, labels, one, place, oracle),
        Tree::Select { object: one, .. } => check(alloc, namespace, labels, one, place, oracle),
        Tree::Apply {
            receiver,
            arguments: trees,
            ..
        } => {
            let first = check(alloc, namespace, labels, receiver, place, oracle)?;
            let second = check_all(alloc, namespace, labels, trees, first.next, oracle);
            behind(first, second)
        }
        Tree::ApplyStatically {
            receiver,
            arguments: trees,
            ..
        } => {
            let first = check(alloc, namespace, labels, receiver, place, oracle)?;
            let second = check_all(alloc, namespace, labels, trees, first.next, oracle);
            behind(first, second)
        }
        Tree::ApplyStatic {
            arguments: trees,
            ..
        } => { check_all(alloc, namespace, labels, trees, place, oracle) }
        Tree::UnaryOp { operand: one, .. } => check(alloc, namespace, labels, one, place, oracle),
        Tree::BinaryOp {
            left: one,
            right: two,
            ..
        } => {
            let first = check(alloc, namespace, labels, one, place, oracle)?;
            let second = check(alloc, namespace, labels, two, first.next, oracle);
            behind(first, second)
        }
        Tree::NewArray { length: one, .. } => check(alloc, namespace, labels, one, place, oracle),
        Tree::ArrayValue { items: trees, .. } => check_all(
            alloc, namespace, labels, trees, place, oracle,
        ),
        Tree::ArrayLength { array: one, .. } => check(alloc, namespace, labels, one, place, oracle),
        Tree::ArraySelect {
            array: one,
            index: two,
            ..
        } => {
            let first = check(alloc, namespace, labels, one, place, oracle)?;
            let second = check(alloc, namespace, labels, two, first.next, oracle);
            behind(first, second)
        }
        Tree::IsInstanceOf { value: one, .. } => check(
            alloc, namespace, labels, one, place, oracle,
        ),
        Tree::AsInstanceOf { value: one, .. } => check(
            alloc, namespace, labels, one, place, oracle,
        ),
        Tree::Log { value: one, .. } => check(alloc, namespace, labels, one, place, oracle),
        Tree::Skip { .. }
        | Tree::LoadModule { .. }
        | Tree::SelectStatic { .. }
        | Tree::Undefined { .. }
        | Tree::Null { .. }
        | Tree::BooleanLiteral { .. }
        | Tree::CharLiteral { .. }
        | Tree::ByteLiteral { .. }
        | Tree::ShortLiteral { .. }
        | Tree::IntLiteral { .. }
        | Tree::LongLiteral { .. }
        | Tree::StringLiteral { .. }
        | Tree::VarRef { .. }
        | Tree::This { .. } => Ok(Checked {
            next: place,
            settable: true,
        }),
    }
}

// The number behind the second part, and what may be assigned to by the first.
fn behind(first: Checked, second: Result<Checked, TypeError>) -> Result<Checked, TypeError>
    ensures { result ≡ answered.behind first second }
{
    match second {
        Ok(second) => Ok(Checked {
            next: second.next,
            settable: first.settable,
        }),
        Err(error) => Err(error),
    }
}

#[cycle(check)]
fn check_labeled<O: Oracle>(
    alloc: Global,
    namespace: Namespace,
    labels: &mut Vec<Label>,
    label: &LabelName,
    tpe: &IrType,
    body: &Tree,
    place: u32,
    oracle: &mut O,
) -> Result<Checked, TypeError>
    ensures stand { O.stand oracle.new ≡ O.stand oracle.old }
    ensures labels { OnOk result (labels.new.items ≡ labels.old.items) }
    ensures next { IfOk result (λ x. x.next ≡ counted (view body.now) place) }
    ensures ran { AsRun (IsAnswer (O.stand oracle.old)) (checks.check_of namespace (inside label.now tpe.now labels.old.items) place (view body.now)) (seen result) (O.told oracle.old) (O.told oracle.new) }
{
    labels.push(Label {
        name: label.copied()?,
        tpe: tpe.copied()?,
    })?;
    let checked = check(alloc, namespace, labels, body, place, oracle)?;
    labels.pop();
    Ok(checked)
}

#[cycle(check)]
fn check_all<O: Oracle>(
    alloc: Global,
    namespace: Namespace,
    labels: &mut Vec<Label>,
    trees: &[Tree],
    place: u32,
    oracle: &mut O,
) -> Result<Checked, TypeError>
    ensures stand { O.stand oracle.new ≡ O.stand oracle.old }
    ensures labels { OnOk result (labels.new.items ≡ labels.old.items) }
    ensures next { IfOk result (λ x. x.next ≡ counted_all (terms_view trees.now) place) }
    ensures ran { AsRun (IsAnswer (O.stand oracle.old)) (checks.all_of namespace labels.old.items place (terms_view trees.now)) (seen result) (O.told oracle.old) (O.told oracle.new) }
{
    let mut next = place;
    for each in trees {
        next = check(alloc, namespace, labels, each, next, oracle)?.next;
    }
    Ok(Checked {
        next,
        settable: true,
    })
}

#[cycle(check)]
fn check_cases<O: Oracle>(
    alloc: Global,
    namespace: Namespace,
    labels: &mut Vec<Label>,
    cases: &[MatchCase],
    place: u32,
    oracle: &mut O,
) -> Result<Checked, TypeError>
    ensures stand { O.stand oracle.new ≡ O.stand oracle.old }
    ensures labels { OnOk result (labels.new.items ≡ labels.old.items) }
    ensures next { IfOk result (λ x. x.next ≡ counted_cases (cases_view cases.now) place) }
    ensures ran { AsRun (IsAnswer (O.stand oracle.old)) (checks.cases_of namespace labels.old.items place (cases_view cases.now)) (seen result) (O.told oracle.old) (O.told oracle.new) }
{
    let mut next = place;
    for each in cases {
        next = check(alloc, namespace, labels, &each.body, next, oracle)?.next;
    }
    Ok(Checked {
        next,
        settable: true,
    })
}
