// Classes and their members.
ghost use Rattle.std.specs.Prelude.{◌≡◌, ◌∷◌, [], None, Some, IfOk, IfErr, codes};
ghost use Rattle.exact_place.specs.Reading.{lead_at, map_at, value_at};
ghost use Rattle.text_scan.specs.Gives.{Gives};
ghost use Rattle.sj_text_spec.specs.Names as names;
ghost use Rattle.sj_text_spec.specs.Reading as reading;

use crate::forms::NOWHERE;
use crate::trees::{ended, tree_of};
use sj_names::{ClassName, Shared, Text};
use sj_text_parts::{
    Part, bracketed_of, class_field, field_field, kind_field, mark_field, method_field, name_field,
    namespace_field, type_field,
};
use sj_text_scan::class_name_of;
use sj_trees::{Body, ClassDef, FieldDef, MethodDef, ParamDef};
use std::alloc::Global;
use text_scan::{Stop, literal, next_is};

// The name of an interface.
#[derive(Drop)]
struct InterfacePart(usize);

impl Part for InterfacePart {
    ghost use Rattle.std.specs.Prelude.{List, ℕ};
    ghost use Rattle.sj_text_spec.specs.Names.{class_name_at};

    type Value = ClassName;

    ghost Seen = { List ℕ };

    ghost seen = { λ c. c };

    ghost reading = { λ s. class_name_at s.0 };

    fn read<'a>(&self, alloc: Global, bytes: &'a [u8]) -> Result<(ClassName, &'a [u8]), Stop> {
        class_name_of(alloc, self.0, bytes)
    }
}

#[tactic(auto, unfolding(sj_text_spec::specs::Reading::param_at))]
fn param_of<'a>(alloc: Global, fuel: usize, bytes: &'a [u8]) -> Result<(ParamDef, &'a [u8]), Stop>
    ensures { Gives (λ x. (x.0, x.1.now)) result (reading.param_at fuel bytes.now) }
{
    let rest = literal(b"(param", bytes)?;
    let (name, rest) = name_field(alloc, fuel, rest)?;
    let (mutable, rest) = mark_field(rest)?;
    let (tpe, rest) = type_field(alloc, fuel, rest)?;
    ended(ParamDef { name, mutable, tpe }, rest)
}

// A parameter.
#[derive(Drop)]
struct ParamPart(usize);

impl Part for ParamPart {
    ghost use Rattle.sj_trees.specs.declared.classes.ParamDef.{ParamDef as Listed};
    ghost use Rattle.sj_text_spec.specs.Reading.{param_at};

    type Value = ParamDef;

    ghost Seen = { Listed };

    ghost seen = { λ p. p };

    ghost reading = { λ s. param_at s.0 };

    fn read<'a>(&self, alloc: Global, bytes: &'a [u8]) -> Result<(ParamDef, &'a [u8]), Stop> {
        param_of(alloc, self.0, bytes)
    }
}

#[tactic(auto, unfolding(sj_text_spec::specs::Reading::member_field_at))]
fn field_of<'a>(alloc: Global, fuel: usize, bytes: &'a [u8]) -> Result<(FieldDef, &'a [u8]), Stop>
    ensures { Gives (λ x. (x.0, x.1.now)) result (reading.member_field_at fuel bytes.now) }
{
    let rest = literal(b"(field", bytes)?;
    let (is_static, rest) = mark_field(rest)?;
    let (mutable, rest) = mark_field(rest)?;
    let (name, rest) = field_field(alloc, fuel, rest)?;
    let (tpe, rest) = type_field(alloc, fuel, rest)?;
    ended(
        FieldDef {
            pos: NOWHERE,
            is_static,
            mutable,
            name,
            tpe,
        },
        rest,
    )
}

// A field.
#[derive(Drop)]
struct FieldPart(usize);

impl Part for FieldPart {
    ghost use Rattle.sj_trees.specs.declared.classes.FieldDef.{FieldDef as Listed};
    ghost use Rattle.sj_text_spec.specs.Reading.{member_field_at};

    type Value = FieldDef;

    ghost Seen = { Listed };

    ghost seen = { λ f. f };

    ghost reading = { λ s. member_field_at s.0 };

    fn read<'a>(&self, alloc: Global, bytes: &'a [u8]) -> Result<(FieldDef, &'a [u8]), Stop> {
        field_of(alloc, self.0, bytes)
    }
}

/// `-`, where there is no body.
fn no_body(bytes: &[u8]) -> Result<(Option<Body>, &[u8]), Stop>
    ensures { Gives (λ x. (x.0, x.1.now)) result (lead_at (codes "-") (value_at None) bytes.now) }
{
    let behind = literal(b"-", bytes)?;
    Ok((None, behind))
}

/// A body that is there.
fn some_body<'a>(
    alloc: Global,
    fuel: usize,
    bytes: &'a [u8],
) -> Result<(Option<Body>, &'a [u8]), Stop>
    ensures { Gives (λ x. (x.0, x.1.now)) result (map_at (λ t. Some t) (reading.tree_at fuel) bytes.now) }
{
    let (tree, rest) = tree_of(alloc, fuel, bytes)?;
    Ok((Some(Body::new(alloc, tree)?), rest))
}

/// A body, or `-` where there is none.
#[tactic(auto, unfolding(sj_text_spec::specs::Reading::body_at))]
fn body_of<'a>(
    alloc: Global,
    fuel: usize,
    bytes: &'a [u8],
) -> Result<(Option<Body>, &'a [u8]), Stop>
    ensures { Gives (λ x. (x.0, x.1.now)) result (reading.body_at fuel bytes.now) }
{
    if next_is(b'-', bytes) {
        no_body(bytes)
    } else {
        some_body(alloc, fuel, bytes)
    }
}

fn body_field<'a>(
    alloc: Global,
    fuel: usize,
    bytes: &'a [u8],
) -> Result<(Option<Body>, &'a [u8]), Stop>
    ensures { Gives (λ x. (x.0, x.1.now)) result (lead_at (codes " ") (reading.body_at fuel) bytes.now) }
{
    body_of(alloc, fuel, literal(b" ", bytes)?)
}

fn params_field<'a>(
    alloc: Global,
    fuel: usize,
    bytes: &'a [u8],
) -> Result<(Shared<ParamDef>, &'a [u8]), Stop>
    ensures { Gives (λ x. (x.0, x.1.now)) result (lead_at (codes " ") (reading.bracketed_at fuel (reading.param_at fuel)) bytes.now) }
{
    let (params, rest) = bracketed_of(alloc, fuel, &ParamPart(fuel), literal(b" ", bytes)?)?;
    Ok((Shared::from_vec(params)?, rest))
}

#[tactic(auto, unfolding(sj_text_spec::specs::Reading::method_at))]
fn method_of<'a>(alloc: Global, fuel: usize, bytes: &'a [u8]) -> Result<(MethodDef, &'a [u8]), Stop>
    ensures { Gives (λ x. (x.0, x.1.now)) result (reading.method_at fuel bytes.now) }
{
    let rest = literal(b"(method", bytes)?;
    let (namespace, rest) = namespace_field(rest)?;
    let (name, rest) = method_field(alloc, fuel, rest)?;
    let (params, rest) = params_field(alloc, fuel, rest)?;
    let (return_type, rest) = type_field(alloc, fuel, rest)?;
    let (body, rest) = body_field(alloc, fuel, rest)?;
    ended(
        MethodDef {
            pos: NOWHERE,
            namespace,
            name,
            params,
            result: return_type,
            body,
            hash: None,
        },
        rest,
    )
}

// A method.
#[derive(Drop)]
struct MethodPart(usize);

impl Part for MethodPart {
    ghost use Rattle.sj_trees.specs.declared.classes.MethodDef.{MethodDef as Listed};
    ghost use Rattle.sj_text_spec.specs.Reading.{method_at};

    type Value = MethodDef;

    ghost Seen = { Listed };

    ghost seen = { λ m. m };

    ghost reading = { λ s. method_at s.0 };

    fn read<'a>(&self, alloc: Global, bytes: &'a [u8]) -> Result<(MethodDef, &'a [u8]), Stop> {
        method_of(alloc, self.0, bytes)
    }
}

/// A superclass, or `-` where there is none.
#[tactic(auto, unfolding(sj_text_spec::specs::Reading::superclass_at))]
fn superclass_of<'a>(
    alloc: Global,
    fuel: usize,
    bytes: &'a [u8],
) -> Result<(Option<ClassName>, &'a [u8]), Stop>
    ensures { Gives (λ x. (x.0, x.1.now)) result (reading.superclass_at fuel bytes.now) }
{
    if next_is(b'-', bytes) {
        let rest = literal(b"-", bytes)?;
        return Ok((None, rest));
    }
    let (name, rest) = class_name_of(alloc, fuel, bytes)?;
    Ok((Some(name), rest))
}

fn superclass_field<'a>(
    alloc: Global,
    fuel: usize,
    bytes: &'a [u8],
) -> Result<(Option<ClassName>, &'a [u8]), Stop>
    ensures { Gives (λ x. (x.0, x.1.now)) result (lead_at (codes " ") (reading.superclass_at fuel) bytes.now) }
{
    superclass_of(alloc, fuel, literal(b" ", bytes)?)
}

fn interfaces_field<'a>(
    alloc: Global,
    fuel: usize,
    bytes: &'a [u8],
) -> Result<(Shared<ClassName>, &'a [u8]), Stop>
    ensures { Gives (λ x. (x.0, x.1.now)) result (lead_at (codes " ") (reading.bracketed_at fuel (names.class_name_at fuel)) bytes.now) }
{
    let (names, rest) = bracketed_of(alloc, fuel, &InterfacePart(fuel), literal(b" ", bytes)?)?;
    Ok((Shared::from_vec(names)?, rest))
}

fn fields_field<'a>(
    alloc: Global,
    fuel: usize,
    bytes: &'a [u8],
) -> Result<(Shared<FieldDef>, &'a [u8]), Stop>
    ensures { Gives (λ x. (x.0, x.1.now)) result (lead_at (codes " ") (reading.bracketed_at fuel (reading.member_field_at fuel)) bytes.now) }
{
    let (fields, rest) = bracketed_of(alloc, fuel, &FieldPart(fuel), literal(b" ", bytes)?)?;
    Ok((Shared::from_vec(fields)?, rest))
}

fn methods_field<'a>(
    alloc: Global,
    fuel: usize,
    bytes: &'a [u8],
) -> Result<(Shared<MethodDef>, &'a [u8]), Stop>
    ensures { Gives (λ x. (x.0, x.1.now)) result (lead_at (codes " ") (reading.bracketed_at fuel (reading.method_at fuel)) bytes.now) }
{
    let (methods, rest) = bracketed_of(alloc, fuel, &MethodPart(fuel), literal(b" ", bytes)?)?;
    Ok((Shared::from_vec(methods)?, rest))
}

/// One source file with the empty name.
fn no_file(alloc: Global) -> Result<Shared<Text>, Stop>
    ensures files { IfOk result (λ files. files ≡ [] ∷ []) }
    ensures memory { IfErr result (λ e. e ≡ Stop.NoMemory) }
{
    let mut files = Vec::new(alloc);
    files.push(Text::from_str(alloc, "")?)?;
    Ok(Shared::from_vec(files)?)
}

/// A class.
#[tactic(auto, unfolding(sj_text_spec::specs::Reading::class_at))]
pub fn class_of<'a>(
    alloc: Global,
    fuel: usize,
    bytes: &'a [u8],
) -> Result<(ClassDef, &'a [u8]), Stop>
    ensures { Gives (λ x. (x.0, x.1.now)) result (reading.class_at fuel bytes.now) }
{
    let rest = literal(b"(class", bytes)?;
    let (name, rest) = class_field(alloc, fuel, rest)?;
    let (kind, rest) = kind_field(rest)?;
    let (superclass, rest) = superclass_field(alloc, fuel, rest)?;
    let (interfaces, rest) = interfaces_field(alloc, fuel, rest)?;
    let (fields, rest) = fields_field(alloc, fuel, rest)?;
    let (methods, rest) = methods_field(alloc, fuel, rest)?;
    let files = no_file(alloc)?;
    ended(
        ClassDef {
            pos: NOWHERE,
            files,
            name,
            kind,
            superclass,
            interfaces,
            fields,
            methods,
        },
        rest,
    )
}
