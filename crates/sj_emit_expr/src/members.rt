// Emitted functions of methods.
ghost use Rattle.std.specs.Prelude.{◌≡◌, IfOk};
ghost use Rattle.sj_emit_expr_questions.specs.Calls.{calls_of_all};
ghost use Rattle.sj_emit_expr_questions.specs.Laws.{AsEmitted};
ghost use Rattle.sj_emit_expr_questions.specs.Task.{emitted, emitted_view};
ghost use Rattle.js_tree.specs.Views.{body_view};
ghost use Rattle.sj_ask.specs.Answers.{IsAnswer};
ghost use Rattle.sj_core.specs.Views.{method_view, statements_view};
ghost use Rattle.sj_emit_expr_spec.specs.Names as names;
ghost use Rattle.sj_emit_expr_spec.specs.Templates as templates;
ghost use Rattle.sj_emit_expr_parts.specs.Known.{lookup_of, AreAsked};
ghost use Rattle.sj_names.specs.Counting.{raised};

use crate::statements::emit_statements;
use crate::uses::uses_of;
use js_tree::{JsBody, JsMember};
use sj_ask::Oracle;
use sj_core::{CoreMethod, CoreStatement};
use sj_emit_expr_parts::{CallLookup, ask_all, calls_of, function_parameters};
use sj_names::{Meter, NoMemory};
use std::alloc::Global;

/// The emitted function of the method `m`: the names of its parameters, the first `$this` where it has a receiver, its statements, and the
/// bindings that these use. Of the calls on receivers, in the order in which they are evaluated, it asks the oracle what each of a public member runs, and
/// for each method that is looked up whether a hijacked class stands below the class of the receiver.
/// It counts one method emitted, whatever comes of it. Want of memory is the only error.
pub fn emit_member<O: Oracle>(
    alloc: Global,
    m: &CoreMethod,
    oracle: &mut O,
    meter: &mut Meter,
) -> Result<JsMember, NoMemory>
    ensures stand { O.stand oracle.new ≡ O.stand oracle.old }
    ensures told { AsEmitted (IsAnswer (O.stand oracle.old)) (method_view m.now) result (O.told oracle.old) (O.told oracle.new) }
    ensures counted { meter.new ≡ record meter.old { emitted = raised meter.old.emitted } }
{
    meter.raise_emitted();
    let known = lookup_for(alloc, m, oracle)?;
    emit_function(alloc, m, &known)
}

// What is known of a method's calls.
fn lookup_for<O: Oracle>(
    alloc: Global,
    m: &CoreMethod,
    oracle: &mut O,
) -> Result<CallLookup, NoMemory>
    ensures stand { O.stand oracle.new ≡ O.stand oracle.old }
    ensures asked { IfOk result (λ known. AreAsked (IsAnswer (O.stand oracle.old)) (calls_of_all (method_view m.now).body) known (O.told oracle.old) (O.told oracle.new)) }
{
    let inquiries = calls_of(alloc, &m.body)?;
    ask_all(alloc, inquiries.as_slice(), oracle)
}

fn emit_function(alloc: Global, m: &CoreMethod, known: &CallLookup) -> Result<JsMember, NoMemory>
    ensures { IfOk result (λ e. emitted_view e ≡ emitted (lookup_of known.now) (method_view m.now)) }
{
    let params = function_parameters(alloc, m)?;
    let body = emit_body(alloc, known, &m.body)?;
    let uses = uses_of(alloc, known, &m.body)?;
    Ok(JsMember { params, body, uses })
}

fn emit_body(
    alloc: Global,
    known: &CallLookup,
    statements: &[CoreStatement],
) -> Result<JsBody, NoMemory>
    ensures { IfOk result (λ b. body_view b ≡ templates.statement_templates names.variable_name names.label_name (lookup_of known.now) (statements_view statements.now)) }
{
    let statements = emit_statements(alloc, known, statements)?;
    JsBody::new(alloc, statements)
}
