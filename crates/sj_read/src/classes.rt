// Classes and their members.
ghost use Rattle.std.specs.Prelude.{◌≡◌, ◌++◌, ◌∷◌, [], IfOk, IfErr, Some, Ok, Err};
ghost use Rattle.std.specs.Option.{option_copied};
ghost use Rattle.sj_names.specs.Grammar.{is_class_name};
ghost use Rattle.sj_read_spec.specs.Reading.{bytes_at, list_at};
ghost use Rattle.sj_read_spec.specs.Tables.{name_at};
ghost use Rattle.sj_read_spec.specs.Types.{option_at};
ghost use Rattle.sj_read_spec.specs.Classes.{param_at, field_at, method_at, member_at, fields_in, methods_in};
ghost use Rattle.sj_read.specs.Parts.{method_head_at, seen_implementation, seen_tail, body_and_hash_at, implementation_at, method_tail_at, method_of_parts, members_in, members_at, class_head_at, class_tail_at, class_parts_at, class_of_parts};
ghost use Rattle.sj_read_trees.specs.Stops.{Gives};

use sj_names::{ClassName, MethodName, Namespace, NoMemory, Shared};
use sj_read_spec::{MemberDef, MemberTag};
use sj_read_trees::{
    FileTables, Item, NameEntry, Stop, bad, class_name_of, field_name_of, kind_of, list_of,
    local_name_of, mark_of, member_tag_of, method_name_of, namespace_of, position_of, tree_of,
    type_of,
};
use sj_trees::{Body, ClassDef, ClassKind, Code, FieldDef, IrType, MethodDef, ParamDef, Position};
use std::alloc::Global;

// How deep the trees of a body may stand one in another.
const DEPTH: u32 = 200;

// A parameter of a method.
#[derive(Drop)]
struct ParamItem<'t>(&'t FileTables);

impl Item for ParamItem<'_> {
    ghost use Rattle.sj_trees.specs.declared.classes.ParamDef.{ParamDef};
    ghost use Rattle.sj_read_spec.specs.Classes.{param_at};

    type Value = ParamDef;

    ghost Seen = { ParamDef };

    ghost seen = { λ p. p };

    ghost reading = { λ s. param_at s.0.now };

    #[tactic(auto, unfolding(sj_read_spec::specs::Classes::param_at))]
    fn read<'a>(&self, _alloc: Global, bytes: &'a [u8]) -> Result<(ParamDef, &'a [u8]), Stop> {
        let (name, rest) = local_name_of(self.0.names(), bytes)?;
        let (mutable, rest) = mark_of(rest)?;
        let (tpe, rest) = type_of(self.0.names(), rest)?;
        Ok((ParamDef { name, mutable, tpe }, rest))
    }
}

// The parameters of a method.
fn params_of<'a>(
    alloc: Global,
    tables: &FileTables,
    bytes: &'a [u8],
) -> Result<(Shared<ParamDef>, &'a [u8]), Stop>
    ensures { Gives (λ x. (x.0, x.1.now)) result (list_at (param_at tables.now) bytes.now) }
{
    let (params, rest) = list_of(alloc, &ParamItem(tables), bytes)?;
    Ok((Shared::from_vec(params)?, rest))
}

// The hash of a method, where it has one.
fn hash_of(bytes: &[u8]) -> Result<(Option<&[u8; 20]>, &[u8]), Stop>
    ensures { Gives (λ x. (option_copied x.0, x.1.now)) result (option_at (bytes_at 20) bytes.now) }
{
    let (there, rest) = mark_of(bytes)?;
    if !there {
        return Ok((None, rest));
    }
    let (hash, rest) = array_of(rest)?;
    Ok((Some(hash), rest))
}

// The twenty bytes of a hash.
fn array_of(bytes: &[u8]) -> Result<(&[u8; 20], &[u8]), Stop>
    ensures { Gives (λ x. (x.0.now, x.1.now)) result (bytes_at 20 bytes.now) }
{
    match bytes.first_chunk::<20>() {
        Some(hash) => Ok((hash, &bytes[20..])),
        None => Err(bad(Code::Truncated, bytes)),
    }
}

// A field behind its tag.
#[tactic(auto, unfolding(sj_read_spec::specs::Classes::field_at))]
fn field_of<'a>(tables: &FileTables, bytes: &'a [u8]) -> Result<(FieldDef, &'a [u8]), Stop>
    ensures { Gives (λ x. (x.0, x.1.now)) result (field_at tables.now bytes.now) }
{
    let (pos, rest) = position_of(tables.file_count(), bytes)?;
    let (is_static, rest) = mark_of(rest)?;
    let (mutable, rest) = mark_of(rest)?;
    let (name, rest) = field_name_of(tables.names(), rest)?;
    let (tpe, rest) = type_of(tables.names(), rest)?;
    Ok((
        FieldDef {
            pos,
            is_static,
            mutable,
            name,
            tpe,
        },
        rest,
    ))
}

/// A method up to its parameters.
#[derive(Drop)]
struct MethodHead {
    pos: Position,
    namespace: Namespace,
    name: MethodName,
    params: Shared<ParamDef>,
}

/// What a method does.
#[derive(Drop)]
struct Implementation<'a> {
    body: Option<Body>,
    hash: Option<&'a [u8; 20]>,
}

/// A method behind its parameters.
#[derive(Drop)]
struct MethodTail<'a> {
    result: IrType,
    implementation: Implementation<'a>,
}

// A method up to its parameters, behind its tag.
#[tactic(auto, unfolding(crate::specs::Parts::method_head_at))]
fn method_head_of<'a>(
    alloc: Global,
    tables: &FileTables,
    bytes: &'a [u8],
) -> Result<(MethodHead, &'a [u8]), Stop>
    ensures { Gives (λ x. (x.0, x.1.now)) result (method_head_at tables.now bytes.now) }
{
    let (pos, rest) = position_of(tables.file_count(), bytes)?;
    let (namespace, rest) = namespace_of(rest)?;
    let (name, rest) = method_name_of(tables.methods(), rest)?;
    let (params, rest) = params_of(alloc, tables, rest)?;
    Ok((
        MethodHead {
            pos,
            namespace,
            name,
            params,
        },
        rest,
    ))
}

// A value with what was read behind it.
fn joined<'a, A: Drop, B: Drop>(
    first: A,
    read: Result<(B, &'a [u8]), Stop>,
) -> Result<((A, B), &'a [u8]), Stop>
    ensures found { IfOk read.entry (λ x. result ≡ Ok ((first, x.0), x.1)) }
    ensures stopped { IfErr read.entry (λ stop. result ≡ Err stop) }
{
    match read {
        Ok((second, rest)) => Ok(((first, second), rest)),
        Err(stop) => Err(stop),
    }
}

// The body and the hash of a method that has a body.
#[tactic(auto, unfolding(sj_read_spec::specs::Classes::body_at))]
fn body_and_hash_of<'a>(
    alloc: Global,
    tables: &FileTables,
    bytes: &'a [u8],
) -> Result<(Implementation<'a>, &'a [u8]), Stop>
    ensures { Gives (λ x. (seen_implementation x.0, x.1.now)) result (body_and_hash_at tables.now bytes.now) }
{
    let (tree, rest) = tree_of(alloc, tables, DEPTH, bytes)?;
    let body = Body::new(alloc, tree)?;
    let ((body, hash), rest) = joined(body, hash_of(rest))?;
    Ok((
        Implementation {
            body: Some(body),
            hash,
        },
        rest,
    ))
}

// The body of a method, where it has one, and its hash.
#[tactic(auto, unfolding(crate::specs::Parts::implementation_at))]
fn implementation_of<'a>(
    alloc: Global,
    tables: &FileTables,
    bytes: &'a [u8],
) -> Result<(Implementation<'a>, &'a [u8]), Stop>
    ensures { Gives (λ x. (seen_implementation x.0, x.1.now)) result (implementation_at tables.now bytes.now) }
{
    let (there, rest) = mark_of(bytes)?;
    if there {
        return body_and_hash_of(alloc, tables, rest);
    }
    let (hash, rest) = hash_of(rest)?;
    Ok((Implementation { body: None, hash }, rest))
}

// A method behind its parameters.
#[tactic(auto, unfolding(crate::specs::Parts::method_tail_at))]
fn method_tail_of<'a>(
    alloc: Global,
    tables: &FileTables,
    bytes: &'a [u8],
) -> Result<(MethodTail<'a>, &'a [u8]), Stop>
    ensures { Gives (λ x. (seen_tail x.0, x.1.now)) result (method_tail_at tables.now bytes.now) }
{
    let (result_type, rest) = type_of(tables.names(), bytes)?;
    let (implementation, rest) = implementation_of(alloc, tables, rest)?;
    Ok((
        MethodTail {
            result: result_type,
            implementation,
        },
        rest,
    ))
}

// The method of its two parts.
fn method_of_parts(head: MethodHead, tail: MethodTail<'_>) -> MethodDef
    ensures { result ≡ method_of_parts head (seen_tail tail.entry) }
{
    MethodDef {
        pos: head.pos,
        namespace: head.namespace,
        name: head.name,
        params: head.params,
        result: tail.result,
        body: tail.implementation.body,
        hash: tail.implementation.hash.copied(),
    }
}

// A method behind its tag.
#[tactic(auto, using(crate::proofs::PartsLemmas::method_in_parts))]
fn method_of<'a>(
    alloc: Global,
    tables: &FileTables,
    bytes: &'a [u8],
) -> Result<(MethodDef, &'a [u8]), Stop>
    ensures { Gives (λ x. (x.0, x.1.now)) result (method_at tables.now bytes.now) }
{
    let (head, rest) = method_head_of(alloc, tables, bytes)?;
    let (tail, rest) = method_tail_of(alloc, tables, rest)?;
    Ok((method_of_parts(head, tail), rest))
}

// A member of a class.
#[derive(Drop)]
struct MemberItem<'t>(&'t FileTables);

impl Item for MemberItem<'_> {
    ghost use Rattle.sj_read_spec.specs.declared.members.MemberDef.{MemberDef};
    ghost use Rattle.sj_read_spec.specs.Classes.{member_at};

    type Value = MemberDef;

    ghost Seen = { MemberDef };

    ghost seen = { λ m. m };

    ghost reading = { λ s. member_at s.0.now };

    #[tactic(auto, unfolding(sj_read_spec::specs::Classes::member_at))]
    fn read<'a>(&self, alloc: Global, bytes: &'a [u8]) -> Result<(MemberDef, &'a [u8]), Stop> {
        let (tag, rest) = member_tag_of(bytes)?;
        match tag {
            MemberTag::Field => {
                let (field, rest) = field_of(self.0, rest)?;
                Ok((MemberDef::Field(field), rest))
            }
            MemberTag::Method => {
                let (method, rest) = method_of(alloc, self.0, rest)?;
                Ok((MemberDef::Method(method), rest))
            }
        }
    }
}

// Puts a member behind the fields or behind the methods.
fn put(
    fields: &mut Vec<FieldDef>,
    methods: &mut Vec<MethodDef>,
    member: MemberDef,
) -> Result<(), NoMemory>
    ensures { IfOk result (λ _. (fields.new.items ≡ fields.old.items ++ fields_in (member ∷ [])) × (methods.new.items ≡ methods.old.items ++ methods_in (member ∷ []))) }
{
    match member {
        MemberDef::Field(field) => Ok(fields.push(field)?),
        MemberDef::Method(method) => Ok(methods.push(method)?),
    }
}

/// The fields and the methods of a class.
#[derive(Drop)]
struct Members {
    fields: Shared<FieldDef>,
    methods: Shared<MethodDef>,
}

// The fields and the methods among members.
fn sorted(alloc: Global, members: Vec<MemberDef>) -> Result<Members, NoMemory>
    ensures { IfOk result (λ ms. ms ≡ members_in members.items) }
{
    let mut fields = Vec::new(alloc);
    let mut methods = Vec::new(alloc);
    for member in members {
        put(&mut fields, &mut methods, member)?;
    }
    Ok(Members {
        fields: Shared::from_vec(fields)?,
        methods: Shared::from_vec(methods)?,
    })
}

// The members of a class.
#[tactic(auto, unfolding(crate::specs::Parts::members_at))]
fn members_of<'a>(
    alloc: Global,
    tables: &FileTables,
    bytes: &'a [u8],
) -> Result<(Members, &'a [u8]), Stop>
    ensures { Gives (λ x. (x.0, x.1.now)) result (members_at tables.now bytes.now) }
{
    let (members, rest) = list_of(alloc, &MemberItem(tables), bytes)?;
    Ok((sorted(alloc, members)?, rest))
}

// The name of an interface.
#[derive(Drop)]
struct InterfaceItem<'t>(&'t [NameEntry]);

impl Item for InterfaceItem<'_> {
    ghost use Rattle.std.specs.Prelude.{List, ℕ};
    ghost use Rattle.sj_names.specs.Grammar.{is_class_name};
    ghost use Rattle.sj_read_spec.specs.Tables.{name_at};

    type Value = ClassName;

    ghost Seen = { List ℕ };

    ghost seen = { λ n. n };

    ghost reading = { λ s. name_at is_class_name s.0.now };

    fn read<'a>(&self, _alloc: Global, bytes: &'a [u8]) -> Result<(ClassName, &'a [u8]), Stop> {
        class_name_of(self.0, bytes)
    }
}

// The names of interfaces.
fn interfaces_of<'a>(
    alloc: Global,
    names: &[NameEntry],
    bytes: &'a [u8],
) -> Result<(Shared<ClassName>, &'a [u8]), Stop>
    ensures { Gives (λ x. (x.0, x.1.now)) result (list_at (name_at is_class_name names.now) bytes.now) }
{
    let (interfaces, rest) = list_of(alloc, &InterfaceItem(names), bytes)?;
    Ok((Shared::from_vec(interfaces)?, rest))
}

// The name of a superclass, where there is one.
fn superclass_of<'a>(
    names: &[NameEntry],
    bytes: &'a [u8],
) -> Result<(Option<ClassName>, &'a [u8]), Stop>
    ensures { Gives (λ x. (x.0, x.1.now)) result (option_at (name_at is_class_name names.now) bytes.now) }
{
    let (there, rest) = mark_of(bytes)?;
    if !there {
        return Ok((None, rest));
    }
    let (superclass, rest) = class_name_of(names, rest)?;
    Ok((Some(superclass), rest))
}

/// A class up to its superclass.
#[derive(Drop)]
struct ClassHead {
    pos: Position,
    name: ClassName,
    kind: ClassKind,
    superclass: Option<ClassName>,
}

/// A class behind its superclass.
#[derive(Drop)]
struct ClassTail {
    interfaces: Shared<ClassName>,
    members: Members,
}

/// A class, but for the source files that its positions name.
#[derive(Drop)]
pub struct ClassParts {
    head: ClassHead,
    tail: ClassTail,
}

// A class up to its superclass.
#[tactic(auto, unfolding(crate::specs::Parts::class_head_at))]
fn class_head_of<'a>(tables: &FileTables, bytes: &'a [u8]) -> Result<(ClassHead, &'a [u8]), Stop>
    ensures { Gives (λ x. (x.0, x.1.now)) result (class_head_at tables.now bytes.now) }
{
    let (pos, rest) = position_of(tables.file_count(), bytes)?;
    let (name, rest) = class_name_of(tables.names(), rest)?;
    let (kind, rest) = kind_of(rest)?;
    let (superclass, rest) = superclass_of(tables.names(), rest)?;
    Ok((
        ClassHead {
            pos,
            name,
            kind,
            superclass,
        },
        rest,
    ))
}

// A class behind its superclass.
#[tactic(auto, unfolding(crate::specs::Parts::class_tail_at))]
fn class_tail_of<'a>(
    alloc: Global,
    tables: &FileTables,
    bytes: &'a [u8],
) -> Result<(ClassTail, &'a [u8]), Stop>
    ensures { Gives (λ x. (x.0, x.1.now)) result (class_tail_at tables.now bytes.now) }
{
    let (interfaces, rest) = interfaces_of(alloc, tables.names(), bytes)?;
    let (members, rest) = members_of(alloc, tables, rest)?;
    Ok((
        ClassTail {
            interfaces,
            members,
        },
        rest,
    ))
}

// A class, but for its source files.
#[tactic(auto, unfolding(crate::specs::Parts::class_parts_at))]
pub fn class_parts_of<'a>(
    alloc: Global,
    tables: &FileTables,
    bytes: &'a [u8],
) -> Result<(ClassParts, &'a [u8]), Stop>
    ensures { Gives (λ x. (x.0, x.1.now)) result (class_parts_at tables.now bytes.now) }
{
    let (head, rest) = class_head_of(tables, bytes)?;
    let (tail, rest) = class_tail_of(alloc, tables, rest)?;
    Ok((ClassParts { head, tail }, rest))
}

// The class of its parts, with the tables given up.
pub fn class_of_parts(tables: FileTables, parts: ClassParts) -> ClassDef
    ensures { result ≡ class_of_parts tables.files parts }
{
    ClassDef {
        pos: parts.head.pos,
        files: tables.into_files(),
        name: parts.head.name,
        kind: parts.head.kind,
        superclass: parts.head.superclass,
        interfaces: parts.tail.interfaces,
        fields: parts.tail.members.fields,
        methods: parts.tail.members.methods,
    }
}
