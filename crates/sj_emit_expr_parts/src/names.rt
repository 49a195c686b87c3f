// The names of variables and labels.
ghost use Rattle.std.specs.Prelude.{◌≡◌, ◌++◌, ◌∷◌, [], IfOk};
ghost use Rattle.sj_core.specs.Terms as core;
ghost use Rattle.sj_core.specs.Views.{method_view, variable_view};
ghost use Rattle.sj_emit_expr_spec.specs.Members as members;
ghost use Rattle.sj_emit_expr_spec.specs.Names as names;
ghost use Rattle.sj_emit_expr_spec.specs.Templates as templates;

use sj_core::{CoreMethod, CoreVariable};
use sj_mangling::{LocalBinding, local_binding};
use sj_names::{Items, LabelName, LocalName, Namespace, NoMemory, Text};
use std::alloc::Global;

/// The name of a variable: `v_x` for a local of the IR, `$k` for the k-th that holds an operand, `$this` for This.
pub fn variable_name(alloc: Global, variable: &CoreVariable) -> Result<Text, NoMemory>
    ensures { IfOk result (λ name. name ≡ names.variable_name (variable_view variable.now)) }
{
    match variable {
        CoreVariable::Local(name) => local_name(alloc, name),
        CoreVariable::Numbered(number) => numbered_name(alloc, *number),
        CoreVariable::Receiver => Ok(Text::from_str(alloc, "$this")?),
    }
}

fn local_name(alloc: Global, name: &LocalName) -> Result<Text, NoMemory>
    ensures { IfOk result (λ text. text ≡ names.variable_name (core.named name.now)) }
{
    local_binding(alloc, LocalBinding::Local, name.text())
}

fn numbered_name(alloc: Global, number: u64) -> Result<Text, NoMemory>
    ensures { IfOk result (λ name. name ≡ names.variable_name (core.numbered number)) }
{
    let text = format!(in alloc; "${number}")?;
    Ok(Text::from_string(text)?)
}

/// The name of a label, `l_x`.
pub fn label_name(alloc: Global, label: &LabelName) -> Result<Text, NoMemory>
    ensures { IfOk result (λ name. name ≡ names.label_name label.now) }
{
    local_binding(alloc, LocalBinding::Label, label.text())
}

/// The names of the parameters of a method's function, in order: `$this` in front, but in a static method.
pub fn function_parameters(alloc: Global, m: &CoreMethod) -> Result<Items<Text>, NoMemory>
    ensures { IfOk result (λ names. names ≡ members.function_parameters (method_view m.now)) }
{
    let params = m.params.as_slice();
    match m.namespace {
        Namespace::PublicStatic | Namespace::PrivateStatic => {
            with_parameters(alloc, Vec::new(alloc), params)
        }
        _ => with_parameters(alloc, receiver_name(alloc)?, params),
    }
}

fn receiver_name(alloc: Global) -> Result<Vec<Text>, NoMemory>
    ensures { IfOk result (λ texts. texts.items ≡ names.variable_name core.receiver ∷ []) }
{
    let mut texts = Vec::new(alloc);
    texts.push(variable_name(alloc, &CoreVariable::Receiver)?)?;
    Ok(texts)
}

// The names of parameters behind others.
fn with_parameters(
    alloc: Global,
    front: Vec<Text>,
    params: &[LocalName],
) -> Result<Items<Text>, NoMemory>
    ensures { IfOk result (λ names. names ≡ front.items ++ templates.parameter_names params.now) }
{
    let mut texts = front;
    for param in params {
        texts.push(local_name(alloc, param)?)?;
    }
    Ok(Items::from_vec(texts))
}
