// Members of classes, and members by their names.
ghost use Rattle.std.specs.Prelude.{◌≡◌, IfOk, Some};
ghost use Rattle.sj_names.specs.WellKnown.{init};
ghost use Rattle.sj_names.specs.declared.references.TypeRef.TheVariants as reference;
ghost use Rattle.sj_reach_spec.specs.Rules as rules;

use sj_names::{
    ClassName, EntryPoint, FieldName, INIT, Member, MethodName, Namespace, NoMemory, Shared,
    SimpleName, Text, TypeRef,
};
use sj_trees::{FieldDef, MethodDef};
use std::alloc::Global;

/// The public method of the class with this name.
pub fn public_member(class: &ClassName, method: &MethodName) -> Result<Member, NoMemory>
    ensures { IfOk result (λ k. k ≡ rules.public_member class.now method.now) }
{
    member_of(class, Namespace::Public, method)
}

/// The constructor of the class with this name.
pub fn constructor_member(class: &ClassName, method: &MethodName) -> Result<Member, NoMemory>
    ensures { IfOk result (λ k. k ≡ rules.constructor_member class.now method.now) }
{
    member_of(class, Namespace::Constructor, method)
}

fn member_of(
    class: &ClassName,
    namespace: Namespace,
    method: &MethodName,
) -> Result<Member, NoMemory>
    ensures { IfOk result (λ k. k ≡ record { class = class.now; namespace = namespace; method = method.now }) }
{
    let class = class.copied()?;
    let method = method.copied()?;
    Ok(Member {
        class,
        namespace,
        method,
    })
}

/// The static method that an entry point names.
pub fn entry_member(alloc: Global, entry: &EntryPoint) -> Result<Member, NoMemory>
    ensures { IfOk result (λ k. k ≡ rules.entry_member entry.now) }
{
    let class = entry.class.copied()?;
    let method = procedure(entry.method.copied()?, Vec::new(alloc))?;
    Ok(Member {
        class,
        namespace: Namespace::PublicStatic,
        method,
    })
}

/// The constructor without parameters.
pub fn plain_constructor(alloc: Global, class: &ClassName) -> Result<Member, NoMemory>
    ensures { IfOk result (λ k. k ≡ rules.plain_constructor class.now) }
{
    constructor(alloc, class, Vec::new(alloc))
}

/// The constructor of an exception, which takes its message.
pub fn message_constructor(alloc: Global, class: &ClassName) -> Result<Member, NoMemory>
    ensures { IfOk result (λ k. k ≡ rules.message_constructor class.now) }
{
    let text = Text::from_str(alloc, "java.lang.String")?;
    let parameters = vec![in alloc; TypeRef::Class(ClassName::of_text(text))]?;
    constructor(alloc, class, parameters)
}

fn constructor(
    alloc: Global,
    class: &ClassName,
    parameters: Vec<TypeRef>,
) -> Result<Member, NoMemory>
    ensures { IfOk result (λ k. k ≡ rules.constructor_member class.now (record { simple = init; params = parameters.items; result = Some reference.Void })) }
{
    let method = procedure(init_name(alloc)?, parameters)?;
    Ok(Member {
        class: class.copied()?,
        namespace: Namespace::Constructor,
        method,
    })
}

// A method without a result.
fn procedure(simple: SimpleName, parameters: Vec<TypeRef>) -> Result<MethodName, NoMemory>
    ensures { IfOk result (λ m. m ≡ record { simple = simple; params = parameters.items; result = Some reference.Void }) }
{
    let params = Shared::from_vec(parameters)?;
    Ok(MethodName {
        simple,
        params,
        result: Some(TypeRef::Void),
    })
}

fn init_name(alloc: Global) -> Result<SimpleName, NoMemory>
    ensures { IfOk result (λ name. name ≡ init) }
{
    let text = Text::from_str(alloc, INIT)?;
    Ok(SimpleName::of_text(text))
}
