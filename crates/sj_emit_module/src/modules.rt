// The module of a planned module.
ghost use Rattle.std.specs.Prelude.{◌<◌, IfOk, map, length};
ghost use Rattle.js_tree.specs.Views.{module_view, piece_view};
ghost use Rattle.sj_emit_module_spec.specs.Modules.{IsModuleOf};

use crate::shares::Shares;
use js_tree::{JsModule, JsPiece};
use sj_names::NoMemory;
use sj_split::Plan;
use std::alloc::Global;

/// The module of the planned module with this number, of these pieces: a line for each other file of which its pieces or its initializers use bindings,
/// the items of the pieces of its classes in the order in which they are given, the calls of its initializers, and a line of those of
/// its bindings that other files use. Files and names stand in byte order. It finds what the modules of the plan share, and takes one of them: `Shares` makes many.
pub fn module(
    alloc: Global,
    plan: &Plan,
    which: usize,
    pieces: &[JsPiece],
) -> Result<JsModule, NoMemory>
    requires { which < length plan.now }
    ensures { IfOk result (λ m. IsModuleOf plan.now which (map piece_view pieces.now) (module_view m)) }
{
    let shares = Shares::of(alloc, plan, pieces)?;
    let modules = plan.modules();
    shares.module(alloc, &modules[which])
}
