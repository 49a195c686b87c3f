// The import lines of a module.
ghost use Rattle.std.specs.Prelude.{◌≡◌, ◌∷◌, ◌++◌, [], List, Option, IfOk, OnOk, map, filter};
ghost use Rattle.js_tree.specs.Terms.{Name};
ghost use Rattle.js_tree.specs.declared.items.Binding.{Binding as Bound};
ghost use Rattle.sj_emit_module_spec.specs.Modules as rules;
ghost use Rattle.sj_emit_module_spec.specs.Modules.{is_bound_elsewhere, import_lines};
ghost use Rattle.sj_emit_module.specs.Files.{file_in};
ghost use Rattle.sj_emit_module.specs.Groups.{HoldNames};
ghost use Rattle.sj_split.specs.Orders.{Bytes};

use crate::files::ClassFiles;
use crate::groups::NameGroups;
use js_tree::{Binding, JsImport};
use sj_names::{Items, NoMemory, Text};
use std::alloc::Global;

/// A line for each other file of which these bindings are.
pub fn imports(
    alloc: Global,
    files: &ClassFiles,
    file: &Text,
    uses: &[Binding],
) -> Result<Vec<JsImport>, NoMemory>
    ensures { IfOk result (λ lines. lines.items ≡ import_lines (file_in files.now) (filter (is_bound_elsewhere (file_in files.now) file.now) uses.now)) }
{
    let mut groups = NameGroups::new(alloc);
    add_uses(alloc, files, file, uses, &mut groups)?;
    let sources = groups.files(alloc)?;
    lines(alloc, &groups, &sources)
}

fn lines(alloc: Global, groups: &NameGroups, sources: &[Text]) -> Result<Vec<JsImport>, NoMemory>
    ensures { IfOk result (λ lines. (file_of : Name → Option Bytes) (bs : List Bound) → HoldNames file_of bs groups.now → lines.items ≡ map (rules.import_line file_of bs) sources.now) }
{
    let mut lines = Vec::new(alloc);
    for source in sources {
        lines.push(import_line(alloc, groups, source)?)?;
    }
    Ok(lines)
}

fn import_line(alloc: Global, groups: &NameGroups, source: &Text) -> Result<JsImport, NoMemory>
    ensures { IfOk result (λ line. (file_of : Name → Option Bytes) (bs : List Bound) → HoldNames file_of bs groups.now → line ≡ rules.import_line file_of bs source.now) }
{
    let names = groups.names(alloc, source)?;
    Ok(JsImport {
        names: Items::from_vec(names),
        file: source.copied()?,
    })
}

/// Adds those of these bindings that are of other files.
pub fn add_uses(
    alloc: Global,
    files: &ClassFiles,
    file: &Text,
    bindings: &[Binding],
    groups: &mut NameGroups,
) -> Result<(), NoMemory>
    ensures { OnOk result ((bs : List Bound) → HoldNames (file_in files.now) bs groups.old → HoldNames (file_in files.now) (bs ++ filter (is_bound_elsewhere (file_in files.now) file.now) bindings.now) groups.new) }
{
    for binding in bindings {
        add_use(alloc, files, file, binding, groups)?;
    }
    Ok(())
}

fn add_use(
    alloc: Global,
    files: &ClassFiles,
    file: &Text,
    binding: &Binding,
    groups: &mut NameGroups,
) -> Result<(), NoMemory>
    ensures { OnOk result ((bs : List Bound) → HoldNames (file_in files.now) bs groups.old → HoldNames (file_in files.now) (bs ++ filter (is_bound_elsewhere (file_in files.now) file.now) (binding.now ∷ [])) groups.new) }
{
    match files.file(&binding.owner) {
        Some(other) => {
            if !file.is_same(other) {
                groups.put(alloc, other, &binding.name)?;
            }
            Ok(())
        }
        None => Ok(()),
    }
}
