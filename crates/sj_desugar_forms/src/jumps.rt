// Labelled blocks, and jumps to them.
ghost use Rattle.std.specs.Prelude.{◌≡◌, Some, IfOk};
ghost use Rattle.sj_desugar_spec.specs.Desugar as desugar;
ghost use Rattle.sj_desugar_forms.specs.Views.{destination_view, code_view};

use crate::destinations::Destination;
use crate::writing::{Written, joined, one};
use sj_core::CoreStatement;
use sj_names::{LabelName, NoMemory};
use sj_trees::Position;
use std::alloc::Global;

/// A labelled block around code, which a return out of the method needs none of.
pub fn labeled(
    alloc: Global,
    destination: &Destination,
    position: Position,
    label: &LabelName,
    code: Written,
) -> Result<Written, NoMemory>
    ensures { IfOk result (λ w. code_view w ≡ desugar.labeled_code (destination_view destination.now) position label.now (code_view code)) }
{
    match destination {
        Destination::Result(_) => Ok(code),
        _ => {
            let label = label.copied()?;
            let statement = CoreStatement::Labeled {
                position: Some(position),
                label,
                body: code.statements,
            };
            one(alloc, statement, code.next)
        }
    }
}

/// Behind the code that brings a value to the destination of a label, the jump to it.
pub fn leaving(
    alloc: Global,
    destination: &Destination,
    position: Position,
    label: &LabelName,
    code: Written,
) -> Result<Written, NoMemory>
    ensures { IfOk result (λ w. code_view w ≡ desugar.leaving_code (destination_view destination.now) position label.now (code_view code)) }
{
    match destination {
        Destination::Result(_) => Ok(code),
        _ => {
            let next = code.next;
            let label = label.copied()?;
            joined(
                code,
                one(
                    alloc,
                    CoreStatement::Leave {
                        position: Some(position),
                        label,
                    },
                    next,
                )?,
            )
        }
    }
}
