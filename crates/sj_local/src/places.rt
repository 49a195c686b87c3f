// The check of a class.
ghost use Rattle.std.specs.Prelude.{◌≡◌, map, IfOk, Option, Some, None, option_map, option_and_then, slice_get};
ghost use Rattle.std.specs.List.{AllZip};
ghost use Rattle.sj_local.specs.Firsts as firsts;
ghost use Rattle.sj_local.specs.MethodParts.{HasFindings};
ghost use Rattle.sj_local.specs.TreeRules as rules;
ghost use Rattle.sj_local.specs.Broken as broken;
ghost use Rattle.sj_local.specs.declared.walks.Declared.{Declared};

use crate::classes::{keeps_hijacked, keeps_superclass};
use crate::findings::MethodFindings;
use crate::members::{first_field, first_method, has_one_constructor};
use crate::repeats::first_repeat;
use crate::walks::{Declared, walked};
use crate::{LocalError, Rule, Where};
use sj_names::NoMemory;
use sj_trees::{ClassDef, ClassKind, MethodDef};
use std::alloc::Global;

const RULES: [Rule; 17] = [
    Rule::Superclass,
    Rule::Hijacked,
    Rule::InterfaceTwice,
    Rule::MemberTwice,
    Rule::Field,
    Rule::MethodName,
    Rule::Signature,
    Rule::MissingBody,
    Rule::Constructors,
    Rule::DeclaredTwice,
    Rule::Definition,
    Rule::Variable,
    Rule::ReturnLabel,
    Rule::This,
    Rule::StoreModule,
    Rule::Target,
    Rule::Keys,
];

const NO_MEMBER: Where = Where { member: 0, tree: 0 };

/// Checks the rules that a class keeps by itself. `Broken` exactly where it breaks one, with the least such rule, by its number, and
/// the first place where it does.
///
/// The work is linear in the class, but for a look-up of a variable, which passes the locals in scope, and for that of a label, which
/// passes the labels around it.
pub fn check_class(alloc: Global, class: &ClassDef) -> Result<(), LocalError>
    ensures { broken.IsCheck class.now result }
{
    let findings = all_findings(alloc, class)?;
    for rule in RULES {
        if let Some(place) = place_of(alloc, class, findings.as_slice(), rule)? {
            return Err(LocalError::Broken { rule, place });
        }
    }
    Ok(())
}

fn all_findings(alloc: Global, class: &ClassDef) -> Result<Vec<MethodFindings>, NoMemory>
    ensures { IfOk result (λ all. AllZip (HasFindings class.now) class.now.methods all.items) }
{
    let mut all = Vec::new(alloc);
    for method in class.methods.as_slice() {
        all.push(findings_in(alloc, class, method)?)?;
    }
    Ok(all)
}

fn findings_in(
    alloc: Global,
    class: &ClassDef,
    method: &MethodDef,
) -> Result<MethodFindings, NoMemory>
    ensures { IfOk result (λ f. HasFindings class.now method.now f) }
{
    let walk = walked(alloc, class, method)?;
    let repeat = first_repeat(alloc, walk.declared.as_slice())?;
    Ok(MethodFindings {
        declared_twice: tree_at(walk.declared.as_slice(), repeat),
        findings: walk.findings,
    })
}

// The tree of the declaration at an index.
fn tree_at(declared: &[Declared], index: Option<usize>) -> Option<u32>
    ensures { result ≡ option_and_then (λ n. option_map (λ (d : Declared). d.tree) (slice_get declared.now n)) index }
{
    let found = declared.get(index?)?;
    Some(found.tree)
}

// The first place where the class breaks a rule.
fn place_of(
    alloc: Global,
    class: &ClassDef,
    findings: &[MethodFindings],
    rule: Rule,
) -> Result<Option<Where>, NoMemory>
    requires { AllZip (HasFindings class.now) class.now.methods findings.now }
    ensures { IfOk result (λ place. broken.Breaks class.now rule place) }
{
    match rule {
        Rule::Superclass => Ok(unless(keeps_superclass(class))),
        Rule::Hijacked => Ok(unless(keeps_hijacked(class))),
        Rule::InterfaceTwice => interface_place(alloc, class),
        Rule::MemberTwice => repeat_place(alloc, class),
        Rule::Field => Ok(field_place(class)),
        Rule::MethodName | Rule::Signature | Rule::MissingBody => method_place(class, rule),
        Rule::Constructors => constructors_place(class),
        _ => Ok(tree_place(class, findings, rule)),
    }
}

fn unless(kept: bool) -> Option<Where>
    ensures { result ≡ broken.unless kept }
{
    if kept { None } else { Some(NO_MEMBER) }
}

fn interface_place(alloc: Global, class: &ClassDef) -> Result<Option<Where>, NoMemory>
    ensures { IfOk result (λ place. broken.InterfaceRepeats class.now place) }
{
    match first_repeat(alloc, class.interfaces.as_slice())? {
        Some(_) => Ok(Some(NO_MEMBER)),
        None => Ok(None),
    }
}

fn repeat_place(alloc: Global, class: &ClassDef) -> Result<Option<Where>, NoMemory>
    ensures { IfOk result (λ place. broken.MemberRepeats class.now place) }
{
    let field = first_repeat(alloc, class.fields.as_slice())?;
    let method = first_repeat(alloc, class.methods.as_slice())?;
    match (field, method) {
        (Some(index), _) => Ok(Some(at_member(index))),
        (None, Some(index)) => Ok(Some(at_method(class, index))),
        (None, None) => Ok(None),
    }
}

fn field_place(class: &ClassDef) -> Option<Where>
    ensures { broken.Breaks class.now Rule.Field result }
{
    match first_field(class) {
        Some(index) => Some(at_member(index)),
        None => None,
    }
}

fn method_place(class: &ClassDef, rule: Rule) -> Result<Option<Where>, NoMemory>
    ensures { IfOk result (λ place. place ≡ broken.method_place class.now rule) }
{
    match first_method(class, rule)? {
        Some(index) => Ok(Some(at_method(class, index))),
        None => Ok(None),
    }
}

fn constructors_place(class: &ClassDef) -> Result<Option<Where>, NoMemory>
    ensures { IfOk result (λ place. place ≡ broken.constructors_place class.now) }
{
    if class.kind == ClassKind::Class {
        return Ok(None);
    }
    if class.kind == ClassKind::ModuleClass && !has_one_constructor(class.methods.as_slice()) {
        return Ok(Some(NO_MEMBER));
    }
    method_place(class, Rule::Constructors)
}

// The first tree that breaks a rule on trees.
fn tree_place(class: &ClassDef, findings: &[MethodFindings], rule: Rule) -> Option<Where>
    requires { AllZip (HasFindings class.now) class.now.methods findings.now }
    ensures { broken.FirstTree rule class.now result }
{
    for (index, method) in findings.iter().enumerate() {
        if let Some(tree) = method.of_rule(rule) {
            let member = at_method(class, index).member;
            return Some(Where { member, tree });
        }
    }
    None
}

// A number past 32 bits is the last of them.
fn in_32_bits(number: usize) -> u32
    ensures { result ≡ firsts.in_32_bits number }
{
    if number > u32::MAX as usize {
        u32::MAX
    } else {
        number as u32
    }
}

fn at_member(index: usize) -> Where
    ensures { result ≡ broken.at_member index }
{
    Where {
        member: in_32_bits(index),
        tree: 0,
    }
}

fn at_method(class: &ClassDef, index: usize) -> Where
    ensures { result ≡ broken.at_method class.now index }
{
    at_member(class.fields.as_slice().len().saturating_add(index))
}
