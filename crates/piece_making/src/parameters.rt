// The parameters of entries and of functions that call them: `a0`, `a1`, and so on.
ghost use Rattle.std.specs.Prelude.{◌≡◌, [], ◌++◌, ◌∷◌, map, IfOk, OnOk};
ghost use Rattle.js_tree.specs.Terms as js;
ghost use Rattle.js_tree.specs.Views.{expression_view, expressions_view};
ghost use Rattle.sj_emit_help_spec.specs.Words as words;
ghost use Rattle.piece_making.specs.Made.{Makes};

use js_tree::JsExpr;
use sj_names::{Items, MethodName, NoMemory, Text};
use std::alloc::Global;

/// No parameters.
pub fn no_parameters(alloc: Global) -> Result<Items<Text>, NoMemory>
    ensures { IfOk result (λ xs. xs ≡ []) }
{
    Ok(Items::from_vec(Vec::new(alloc)))
}

/// One parameter.
pub fn one_parameter(alloc: Global, name: &str) -> Result<Items<Text>, NoMemory>
    ensures { IfOk result (λ xs. xs ≡ name.now ∷ []) }
{
    Ok(Items::from_vec(vec![in alloc; Text::from_str(alloc, name)?]?))
}

/// The names of the parameters of a method.
pub fn parameters_of(alloc: Global, method: &MethodName) -> Result<Items<Text>, NoMemory>
    ensures { IfOk result (λ names. names ≡ words.parameters_of method.now) }
{
    let mut names = Vec::new(alloc);
    put_parameters(alloc, method, &mut names)?;
    Ok(Items::from_vec(names))
}

/// The names of the parameters of a method, with another in front.
pub fn parameters_behind(
    alloc: Global,
    first: &str,
    method: &MethodName,
) -> Result<Items<Text>, NoMemory>
    ensures { IfOk result (λ names. names ≡ first.now ∷ words.parameters_of method.now) }
{
    let first = Text::from_str(alloc, first)?;
    let mut names = vec![in alloc; first]?;
    put_parameters(alloc, method, &mut names)?;
    Ok(Items::from_vec(names))
}

fn put_parameters(alloc: Global, method: &MethodName, names: &mut Vec<Text>) -> Result<(), NoMemory>
    ensures { OnOk result (names.new.items ≡ names.old.items ++ words.parameters_of method.now) }
{
    for number in 0..method.params.as_slice().len() {
        names.push(parameter(alloc, number)?)?;
    }
    Ok(())
}

fn parameter(alloc: Global, number: usize) -> Result<Text, NoMemory>
    ensures { IfOk result (λ name. name ≡ words.parameter number) }
{
    let name = format!(in alloc; "a{number}")?;
    Ok(Text::from_string(name)?)
}

/// The parameters of a method, handed on.
pub fn arguments_of(alloc: Global, method: &MethodName) -> Result<Vec<JsExpr>, NoMemory>
    ensures { Makes (λ es. expressions_view es.items) result (words.uses (words.parameters_of method.now)) }
{
    let names = parameters_of(alloc, method)?;
    let mut arguments = Vec::new(alloc);
    put_names(names.as_slice(), &mut arguments)?;
    Ok(arguments)
}

/// The parameters of a method, handed on behind a first argument.
pub fn arguments_behind(
    alloc: Global,
    first: Result<JsExpr, NoMemory>,
    method: &MethodName,
) -> Result<Vec<JsExpr>, NoMemory>
    ensures { (e : js.Expression) → Makes expression_view first e → Makes (λ es. expressions_view es.items) result (js.expression e (words.uses (words.parameters_of method.now))) }
{
    let mut arguments = vec![in alloc; first?]?;
    let names = parameters_of(alloc, method)?;
    put_names(names.as_slice(), &mut arguments)?;
    Ok(arguments)
}

fn put_names(names: &[Text], arguments: &mut Vec<JsExpr>) -> Result<(), NoMemory>
    ensures { OnOk result (map expression_view arguments.new.items ≡ map expression_view arguments.old.items ++ map js.name_use names.now) }
{
    for name in names {
        arguments.push(JsExpr::Name(name.copied()?))?;
    }
    Ok(())
}
