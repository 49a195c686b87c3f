// What the modules of a plan share.
ghost use Rattle.std.specs.Prelude.{◌≡◌, List, IfOk, map};
ghost use Rattle.js_tree.specs.Terms.{Piece};
ghost use Rattle.js_tree.specs.Views.{module_view, piece_view};
ghost use Rattle.sj_emit_module_spec.specs.Modules.{module_of};
ghost use Rattle.sj_emit_module.specs.Shares.{AreShares};
ghost use Rattle.sj_split.specs.declared.plans.PlannedModule.{PlannedModule as Planned};

use crate::calls::add_calls;
use crate::files::{ClassFiles, file_name};
use crate::groups::NameGroups;
use crate::imports::imports;
use crate::items::{items_by_file, shared};
use crate::lists::FileLists;
use crate::uses::{exports_by_file, put_calls, uses_by_file};
use js_tree::{Binding, JsItem, JsModule, JsPiece};
use sj_names::{Items, NoMemory};
use sj_split::{Plan, PlannedModule};
use std::alloc::Global;
use std::rc::Rc;

/// What the modules of a plan are made of: in which file each class stands, and under each file the items of its pieces, what is used there, and which of its names
/// other files use. It is found in one pass over the plan and three over the pieces, whatever the number of modules.
#[derive(Drop)]
pub struct Shares {
    files: ClassFiles,
    items: FileLists<Rc<JsItem>>,
    uses: FileLists<Binding>,
    exports: NameGroups,
}

impl Shares {
    /// What the modules of the plan share, of these pieces.
    pub fn of(alloc: Global, plan: &Plan, pieces: &[JsPiece]) -> Result<Shares, NoMemory>
        ensures { IfOk result (AreShares plan.now (map piece_view pieces.now)) }
    {
        let modules = plan.modules();
        let files = ClassFiles::of(alloc, modules)?;
        let items = items_by_file(alloc, &files, pieces)?;
        let mut uses = uses_by_file(alloc, &files, pieces)?;
        let mut exports = exports_by_file(alloc, &files, pieces)?;
        put_calls(alloc, &files, modules, &mut uses, &mut exports)?;
        Ok(Shares {
            files,
            items,
            uses,
            exports,
        })
    }

    /// The module of a planned module of the plan: a line for each other file of which its pieces or its initializers use bindings, the items of the pieces of
    /// its classes in the order in which they are given, the calls of its initializers, and a line of those of its bindings that other files use. Files and
    /// names stand in byte order. Its time is linear in these, but for the sort of names; items are shared.
    pub fn module(&self, alloc: Global, planned: &PlannedModule) -> Result<JsModule, NoMemory>
        ensures { (modules : List Planned) (ps : List Piece) → AreShares modules ps self.now → IfOk result (λ m. module_view m ≡ module_of modules planned.now ps) }
    {
        let file = file_name(alloc, planned.name.as_str())?;
        let imports = imports(alloc, &self.files, &file, self.uses.at(&file))?;
        let mut items = shared(alloc, self.items.at(&file))?;
        add_calls(alloc, planned.initializers.as_slice(), &mut items)?;
        let exports = self.exports.names(alloc, &file)?;
        Ok(JsModule {
            imports: Items::from_vec(imports),
            items,
            exports: Items::from_vec(exports),
        })
    }
}
