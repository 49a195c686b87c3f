// The rules on fields and methods.
ghost use Rattle.std.specs.Prelude.{◌≡◌, map, IfOk};
ghost use Rattle.std.specs.Cmp.Lexicographic.{pointwise};
ghost use Rattle.sj_trees.specs.Types.{reference_type};
ghost use Rattle.sj_trees.specs.declared.classes.ParamDef.{ParamDef};
ghost use Rattle.sj_local.specs.Firsts.{first_where};
ghost use Rattle.sj_local.specs.Names.{is_same_type};
ghost use Rattle.sj_local.specs.MemberRules as rules;

use crate::Rule;
use crate::names::{is_empty_type, is_init, is_number, is_object, is_type};
use crate::repeats::{Key, Keyed};
use sj_names::{FieldName, MethodName, Namespace, NoMemory, TypeRef};
use sj_trees::{ClassDef, ClassKind, FieldDef, IrType, MethodDef, ParamDef};

/// What no two fields share.
#[derive(Drop, PartialEq, Eq, Hash)]
pub struct FieldKey {
    pub is_static: bool,
    pub name: FieldName,
}

/// What no two methods share.
#[derive(Drop, PartialEq, Eq, Hash)]
pub struct MethodKey {
    pub namespace: Namespace,
    pub name: MethodName,
}

impl Key for FieldKey {
    fn exact() {}
}

impl Key for MethodKey {
    fn exact() {}
}

impl Keyed for FieldDef {
    type Key = FieldKey;

    ghost use Rattle.sj_local.specs.MemberRules.{field_key};

    ghost key = { field_key };

    fn key(&self) -> Result<FieldKey, NoMemory> {
        Ok(FieldKey {
            is_static: self.is_static,
            name: self.name.copied()?,
        })
    }
}

impl Keyed for MethodDef {
    type Key = MethodKey;

    ghost use Rattle.sj_local.specs.MemberRules.{method_key};

    ghost key = { method_key };

    fn key(&self) -> Result<MethodKey, NoMemory> {
        Ok(MethodKey {
            namespace: self.namespace,
            name: self.name.copied()?,
        })
    }
}

fn has_no_fields(class: &ClassDef) -> bool
    ensures { result ≡ rules.has_no_fields class.now }
{
    class.kind == ClassKind::Interface
        || class.kind == ClassKind::HijackedClass
        || is_object(&class.name)
        || is_number(&class.name)
}

fn breaks_field(class: &ClassDef, field: &FieldDef) -> bool
    ensures { result ≡ rules.breaks_field class.now field.now }
{
    is_empty_type(&field.tpe) || !field.is_static && has_no_fields(class)
}

fn is_void(reference: &Option<TypeRef>) -> bool
    ensures { result ≡ rules.is_void reference.now }
{
    matches!(reference, Some(TypeRef::Void))
}

fn breaks_name(method: &MethodDef) -> bool
    ensures { result ≡ rules.breaks_name method.now }
{
    let name = &method.name;
    let is_right = method.namespace == Namespace::Constructor && is_void(&name.result);
    is_init(&name.simple) && !is_right || name.result.is_none()
}

fn breaks_signature(method: &MethodDef) -> Result<bool, NoMemory>
    ensures { IfOk result (λ broken. broken ≡ rules.breaks_signature method.now) }
{
    let have = have_types(method.params.as_slice(), method.name.params.as_slice())?;
    Ok(!(have && has_result(&method.result, &method.name.result)?))
}

// Whether the parameters have the types of the references.
fn have_types(params: &[ParamDef], references: &[TypeRef]) -> Result<bool, NoMemory>
    ensures { IfOk result (λ have. have ≡ pointwise is_same_type (map (λ (p : ParamDef). p.tpe) params.now) (map reference_type references.now)) }
{
    let mut rest = references;
    for param in params {
        let Some((reference, others)) = rest.split_first() else {
            return Ok(false);
        };
        if !is_type(&param.tpe, &IrType::of_reference(reference)?) {
            return Ok(false);
        }
        rest = others;
    }
    Ok(rest.is_empty())
}

fn has_result(tpe: &IrType, reference: &Option<TypeRef>) -> Result<bool, NoMemory>
    ensures { IfOk result (λ has. has ≡ rules.has_result tpe.now reference.now) }
{
    match reference {
        Some(reference) => Ok(is_type(tpe, &IrType::of_reference(reference)?)),
        None => Ok(true),
    }
}

fn breaks_body(class: &ClassDef, method: &MethodDef) -> bool
    ensures { result ≡ rules.breaks_body class.now method.now }
{
    method.body.is_none() && !may_be_abstract(class.kind, method.namespace)
}

fn may_be_abstract(kind: ClassKind, namespace: Namespace) -> bool
    ensures { result ≡ rules.may_be_abstract kind namespace }
{
    match (kind, namespace) {
        (ClassKind::Class | ClassKind::Interface, Namespace::Public) => true,
        _ => false,
    }
}

fn is_a_constructor(method: &MethodDef) -> bool
    ensures { result ≡ rules.is_a_constructor method.now }
{
    method.namespace == Namespace::Constructor
}

// Whether the method is a constructor where there may be none, or one of a module class that isn't `<init>` without parameters.
fn is_wrong_constructor(class: &ClassDef, method: &MethodDef) -> bool
    ensures { result ≡ rules.is_wrong_constructor class.now method.now }
{
    is_a_constructor(method)
        && (class.kind != ClassKind::ModuleClass || !is_plain_init(&method.name))
}

fn is_plain_init(name: &MethodName) -> bool
    ensures { result ≡ rules.is_plain_init name.now }
{
    is_init(&name.simple) && name.params.as_slice().is_empty() && is_void(&name.result)
}

// Whether exactly one of the methods is a constructor.
pub fn has_one_constructor(methods: &[MethodDef]) -> bool
    ensures { result ≡ rules.exactly_one rules.is_a_constructor methods.now }
{
    let mut found = false;
    for method in methods {
        if is_a_constructor(method) {
            if found {
                return false;
            }
            found = true;
        }
    }
    found
}

fn breaks_method(class: &ClassDef, rule: Rule, method: &MethodDef) -> Result<bool, NoMemory>
    ensures { IfOk result (λ broken. broken ≡ rules.breaks_method class.now rule method.now) }
{
    match rule {
        Rule::MethodName => Ok(breaks_name(method)),
        Rule::Signature => Ok(breaks_signature(method)?),
        Rule::MissingBody => Ok(breaks_body(class, method)),
        Rule::Constructors => Ok(is_wrong_constructor(class, method)),
        _ => Ok(false),
    }
}

// The first method that breaks a rule on methods.
pub fn first_method(class: &ClassDef, rule: Rule) -> Result<Option<usize>, NoMemory>
    ensures { IfOk result (λ found. found ≡ first_where (rules.breaks_method class.now rule) class.now.methods) }
{
    let methods = class.methods.as_slice();
    for (index, method) in methods.iter().enumerate() {
        if breaks_method(class, rule, method)? {
            return Ok(Some(index));
        }
    }
    Ok(None)
}

// The first field that breaks the rule on fields.
pub fn first_field(class: &ClassDef) -> Option<usize>
    ensures { result ≡ first_where (rules.breaks_field class.now) class.now.fields }
{
    let fields = class.fields.as_slice();
    for (index, field) in fields.iter().enumerate() {
        if breaks_field(class, field) {
            return Some(index);
        }
    }
    None
}
