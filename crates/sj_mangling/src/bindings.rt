// The names of bindings in the emitted code.
ghost use Rattle.std.specs.Prelude.{◌≡◌, IfOk};
ghost use Rattle.sj_mangling.specs.Bindings as bindings;

use crate::mangling::{push, push_mangled};
use sj_names::{ClassName, FieldName, Member, MethodName, Namespace, NoMemory, Text};
use std::alloc::Global;

/// What a binding of a class is.
#[derive(Clone, Copy, Debug, PartialEq, Eq)]
pub enum ClassBinding {
    /// `k_`: what the running code knows of the class.
    Constants,
    /// `c_`: the class itself.
    Class,
    /// `n_`: the instance of a module class.
    Instance,
    /// `g_`: the function that loads it.
    LoadModule,
    /// `q_`: the function that stores it.
    StoreModule,
    /// `is_`: the test.
    IsInstance,
    /// `as_`: the cast.
    AsInstance,
    /// `i_`: the marker.
    Marker,
}

/// What a binding of a field is.
#[derive(Clone, Copy, Debug, PartialEq, Eq)]
pub enum FieldBinding {
    /// `f_`: the property of an instance.
    Property,
    /// `t_`: the variable of a static field.
    Variable,
    /// `u_`: the function that sets it.
    Setter,
}

/// What a binding of a method name is.
#[derive(Clone, Copy, Debug, PartialEq, Eq)]
pub enum MethodBinding {
    /// `m_`: the entry in a class.
    Entry,
    /// `d_`: the function that tells hijacked receivers apart.
    Dispatch,
    /// `r_`: the reflective call.
    Reflective,
}

/// What a binding in a function is.
#[derive(Clone, Copy, Debug, PartialEq, Eq)]
pub enum LocalBinding {
    /// `v_`: a local variable or a parameter.
    Local,
    /// `l_`: a label.
    Label,
}

/// The function of a member: `P_C__M`, in which P tells its namespace.
pub fn function_name(alloc: Global, member: &Member) -> Result<Text, NoMemory>
    ensures { IfOk result (λ name. name ≡ bindings.function_name member.now.namespace member.now.class member.now.method) }
{
    let mut name = String::new(alloc);
    push(&mut name, function_prefix(member.namespace))?;
    push(&mut name, "_")?;
    push_mangled(&mut name, member.class.text())?;
    push(&mut name, "__")?;
    let method = member.method.spelled(alloc)?;
    push_mangled(&mut name, method.as_str())?;
    Ok(Text::from_string(name)?)
}

fn function_prefix(namespace: Namespace) -> &'static str
    ensures { result.now ≡ bindings.function_prefix namespace }
{
    match namespace {
        Namespace::Public => "f",
        Namespace::PublicStatic => "s",
        Namespace::Private => "p",
        Namespace::PrivateStatic => "ps",
        Namespace::Constructor => "ct",
    }
}

/// A binding of a class, as `c_C`.
pub fn class_binding(
    alloc: Global,
    binding: ClassBinding,
    class: &ClassName,
) -> Result<Text, NoMemory>
    ensures { IfOk result (λ name. name ≡ bindings.class_binding binding class.now) }
{
    let mut name = String::new(alloc);
    push(&mut name, class_prefix(binding))?;
    push_mangled(&mut name, class.text())?;
    Ok(Text::from_string(name)?)
}

fn class_prefix(binding: ClassBinding) -> &'static str
    ensures { result.now ≡ bindings.class_prefix binding }
{
    match binding {
        ClassBinding::Constants => "k_",
        ClassBinding::Class => "c_",
        ClassBinding::Instance => "n_",
        ClassBinding::LoadModule => "g_",
        ClassBinding::StoreModule => "q_",
        ClassBinding::IsInstance => "is_",
        ClassBinding::AsInstance => "as_",
        ClassBinding::Marker => "i_",
    }
}

/// A binding of a field of a class, as `t_C__f`.
pub fn field_binding(
    alloc: Global,
    binding: FieldBinding,
    class: &ClassName,
    field: &FieldName,
) -> Result<Text, NoMemory>
    ensures { IfOk result (λ name. name ≡ bindings.field_binding binding class.now field.now) }
{
    let mut name = String::new(alloc);
    push(&mut name, field_prefix(binding))?;
    push_mangled(&mut name, class.text())?;
    push(&mut name, "__")?;
    push_mangled(&mut name, field.text())?;
    Ok(Text::from_string(name)?)
}

fn field_prefix(binding: FieldBinding) -> &'static str
    ensures { result.now ≡ bindings.field_prefix binding }
{
    match binding {
        FieldBinding::Property => "f_",
        FieldBinding::Variable => "t_",
        FieldBinding::Setter => "u_",
    }
}

/// A binding of a method name, as `m_M`.
pub fn method_binding(
    alloc: Global,
    binding: MethodBinding,
    method: &MethodName,
) -> Result<Text, NoMemory>
    ensures { IfOk result (λ name. name ≡ bindings.method_binding binding method.now) }
{
    let spelled = method.spelled(alloc)?;
    let mut name = String::new(alloc);
    push(&mut name, method_prefix(binding))?;
    push_mangled(&mut name, spelled.as_str())?;
    Ok(Text::from_string(name)?)
}

fn method_prefix(binding: MethodBinding) -> &'static str
    ensures { result.now ≡ bindings.method_prefix binding }
{
    match binding {
        MethodBinding::Entry => "m_",
        MethodBinding::Dispatch => "d_",
        MethodBinding::Reflective => "r_",
    }
}

/// A binding of the local variable or label whose name is `text`, as `v_x`.
pub fn local_binding(alloc: Global, binding: LocalBinding, text: &str) -> Result<Text, NoMemory>
    ensures { IfOk result (λ name. name ≡ bindings.local_binding binding text.now) }
{
    let mut name = String::new(alloc);
    push(&mut name, local_prefix(binding))?;
    push_mangled(&mut name, text)?;
    Ok(Text::from_string(name)?)
}

fn local_prefix(binding: LocalBinding) -> &'static str
    ensures { result.now ≡ bindings.local_prefix binding }
{
    match binding {
        LocalBinding::Local => "v_",
        LocalBinding::Label => "l_",
    }
}
