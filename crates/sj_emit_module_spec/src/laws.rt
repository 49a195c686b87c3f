// Laws of the modules of a plan.
ghost use Rattle.sj_emit_module_spec.specs.Laws.{ExportsAreDeclared, FilesAreThoseOfPlans, ImportsFindExports, LoneModulesHaveNoLines, ModulesAreOne, ModulesHaveTheirLines, ModulesKeepRules, PlansNameFiles};

/// A planned module has one module.
pub fn modules_are_one()
    ensures { ModulesAreOne }
{}

/// In a plan a class stands in the file of the module that has it.
pub fn files_are_those_of_plans()
    ensures { FilesAreThoseOfPlans }
{}

/// The module of a plan that has no other has no lines.
pub fn lone_modules_have_no_lines()
    ensures { LoneModulesHaveNoLines }
{}

/// A module has an import line for each other file of which its pieces use bindings, with their names, and exports those of its
/// bindings that other files use. All stand in byte order, each once.
pub fn modules_have_their_lines()
    ensures { ModulesHaveTheirLines }
{}

/// What a module imports from a file the module with this file exports, and there is one.
pub fn imports_find_exports()
    ensures { ImportsFindExports }
{}

/// What a module of closed pieces exports is the name of a piece of it.
pub fn exports_are_declared()
    ensures { ExportsAreDeclared }
{}

/// A module keeps the rules of printing where its pieces, its calls and the names of the files do.
pub fn modules_keep_rules()
    ensures { ModulesKeepRules }
{}

/// In a plan of the entry points of a command each module has a file that import lines can name.
pub fn plans_name_files()
    ensures { PlansNameFiles }
{}
