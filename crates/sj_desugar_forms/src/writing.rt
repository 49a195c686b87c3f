// Statements that were written.
ghost use Rattle.std.specs.Prelude.{◌≡◌, IfOk};
ghost use Rattle.sj_core.specs.Views.{statement_view};
ghost use Rattle.sj_desugar_spec.specs.Spill as spill;
ghost use Rattle.sj_desugar_forms.specs.Views.{code_view};

use sj_core::CoreStatement;
use sj_names::NoMemory;
use std::alloc::Global;

/// Statements, and the number of the next variable for an operand. A contract sees the code that they stand for, `code_view`.
#[derive(Drop)]
pub struct Written {
    pub statements: Vec<CoreStatement>,
    pub next: u64,
}

/// No statements.
pub fn nothing(alloc: Global, next: u64) -> Written
    ensures { code_view result ≡ spill.no_code next }
{
    Written {
        statements: Vec::new(alloc),
        next,
    }
}

/// One statement.
pub fn one(alloc: Global, statement: CoreStatement, next: u64) -> Result<Written, NoMemory>
    ensures { IfOk result (λ w. code_view w ≡ spill.one (statement_view statement) next) }
{
    let mut statements = Vec::new(alloc);
    statements.push(statement)?;
    Ok(Written { statements, next })
}

/// The one and behind it the other.
#[tactic(auto, using(std::proofs::lemmas::Grind::common_steps, crate::proofs::Lists::appending))]
pub fn joined(first: Written, second: Written) -> Result<Written, NoMemory>
    ensures { IfOk result (λ w. code_view w ≡ spill.joined (code_view first) (code_view second)) }
{
    let next = second.next;
    let mut statements = first.statements;
    let mut others = second.statements;
    statements.append(&mut others)?;
    Ok(Written { statements, next })
}

/// A statement in front of others.
pub fn put_first(
    alloc: Global,
    statement: CoreStatement,
    behind: Written,
) -> Result<Written, NoMemory>
    ensures { IfOk result (λ w. code_view w ≡ spill.put_first (statement_view statement) (code_view behind)) }
{
    let first = one(alloc, statement, behind.next)?;
    joined(first, behind)
}
