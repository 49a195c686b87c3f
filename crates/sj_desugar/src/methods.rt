// Methods.
ghost use Rattle.std.specs.Prelude.{◌≡◌, IfOk, None};
ghost use Rattle.sj_core.specs.Terms as terms;
ghost use Rattle.sj_core.specs.Views.{method_view, statements_view};
ghost use Rattle.sj_desugar_spec.specs.Desugar as desugar;
ghost use Rattle.sj_desugar_spec.specs.Desugar.{body_code, is_mutable_in, result_destination};
ghost use Rattle.sj_desugar_forms.specs.Views.{destination_view};
ghost use Rattle.sj_desugar.specs.Methods.{method_desugared};
ghost use Rattle.sj_trees.specs.View.{view};

use crate::trees::{Locals, statements_of};
use sj_core::{CoreExpression, CoreMethod, CoreStatement, CoreVariable};
use sj_desugar_forms::{Destination, is_no_type, mutable_locals, sure_locals};
use sj_names::{Items, LocalName, Namespace, NoMemory};
use sj_trees::{IrType, MethodDef, ParamDef, Tree};
use std::alloc::Global;

/// The method of the core for the method `m`: the statements of its body, behind which a constructor gives the object that it ran on, and no
/// statements where it has no body. Want of memory is the only error.
pub fn desugar(alloc: Global, m: &MethodDef) -> Result<CoreMethod, NoMemory>
    ensures { IfOk result (λ c. method_view c ≡ method_desugared m.now) }
{
    let params = names_of(alloc, m.params.as_slice())?;
    let body = body_of(alloc, m)?;
    Ok(CoreMethod {
        namespace: m.namespace,
        params,
        body,
    })
}

fn body_of(alloc: Global, m: &MethodDef) -> Result<Vec<CoreStatement>, NoMemory>
    ensures { IfOk result (λ ss. statements_view ss.items ≡ (method_desugared m.now).body) }
{
    match &m.body {
        Some(body) => {
            let statements = statements_of_body(alloc, m, body.tree())?;
            completed(alloc, m.namespace, statements)
        }
        None => Ok(Vec::new(alloc)),
    }
}

// A constructor gives the object that it ran on.
fn completed(
    alloc: Global,
    namespace: Namespace,
    statements: Vec<CoreStatement>,
) -> Result<Vec<CoreStatement>, NoMemory>
    ensures { IfOk result (λ ss. statements_view ss.items ≡ desugar.completed namespace (statements_view statements.items)) }
{
    match namespace {
        Namespace::Constructor => followed(statements, receiver_given(alloc)?),
        _ => Ok(statements),
    }
}

// `return $this;`
fn receiver_given(alloc: Global) -> Result<Vec<CoreStatement>, NoMemory>
    ensures { IfOk result (λ ss. statements_view ss.items ≡ terms.statement (terms.return_of None (terms.variable_use terms.receiver)) terms.no_statements) }
{
    let mut statements = Vec::new(alloc);
    let receiver = CoreExpression::Variable(CoreVariable::Receiver);
    statements.push(CoreStatement::Return {
        position: None,
        value: receiver,
    })?;
    Ok(statements)
}

#[tactic(auto, using(std::proofs::lemmas::Grind::common_steps, sj_desugar_forms::proofs::Lists::appending))]
fn followed(
    first: Vec<CoreStatement>,
    second: Vec<CoreStatement>,
) -> Result<Vec<CoreStatement>, NoMemory>
    ensures { IfOk result (λ ss. statements_view ss.items ≡ terms.followed (statements_view first.items) (statements_view second.items)) }
{
    let mut statements = first;
    let mut others = second;
    statements.append(&mut others)?;
    Ok(statements)
}

fn statements_of_body(
    alloc: Global,
    m: &MethodDef,
    tree: &Tree,
) -> Result<Vec<CoreStatement>, NoMemory>
    ensures { IfOk result (λ ss. statements_view ss.items ≡ body_code (is_mutable_in m.now (view tree.now)) m.now.result (view tree.now)) }
{
    let mutable = mutable_locals(alloc, m.params.as_slice(), tree)?;
    let sure = sure_locals(alloc, tree)?;
    let destination = destination_of(&m.result)?;
    let locals = Locals {
        mutable: &mutable,
        sure: &sure,
    };
    let written = statements_of(alloc, &locals, &[], &destination, 1, tree)?;
    Ok(written.statements)
}

// A method without result gives its body's value up.
fn destination_of(result_type: &IrType) -> Result<Destination, NoMemory>
    ensures { IfOk result (λ d. destination_view d ≡ result_destination result_type.now) }
{
    if is_no_type(result_type) {
        Ok(Destination::Discard)
    } else {
        Ok(Destination::Result(result_type.copied()?))
    }
}

fn names_of(alloc: Global, params: &[ParamDef]) -> Result<Items<LocalName>, NoMemory>
    ensures { IfOk result (λ names. names ≡ desugar.names_of params.now) }
{
    let mut names = Vec::new(alloc);
    for param in params {
        names.push(param.name.copied()?)?;
    }
    Ok(Items::from_vec(names))
}
