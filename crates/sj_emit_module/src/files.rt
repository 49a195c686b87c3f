// The files in which classes stand.
ghost use Rattle.std.specs.Prelude.{◌≡◌, ◌++◌, Some, None, IfOk, OnOk, codes, option_copied, if◌then◌else◌};
ghost use Rattle.js_tree.specs.Terms.{Name};
ghost use Rattle.sj_emit_module_spec.specs.Modules.{file_with};
ghost use Rattle.sj_emit_module.specs.Files.{file_in, first_of};
ghost use Rattle.sj_split.specs.Modules.{is_among};
ghost use Rattle.sj_split.specs.Orders.{is_same};

use indexmap::IndexMap;
use sj_names::{ClassName, NoMemory, Text};
use sj_split::PlannedModule;
use std::alloc::Global;

/// For each class of some modules, the file in which it stands.
#[derive(Drop)]
pub struct ClassFiles {
    files: IndexMap<ClassName, Text>,
}

impl ClassFiles {
    /// The files of the classes of modules.
    pub fn of(alloc: Global, modules: &[PlannedModule]) -> Result<ClassFiles, NoMemory>
        ensures { IfOk result (λ files. (class : Name) → file_in files class ≡ file_with modules.now class) }
    {
        let mut files = ClassFiles {
            files: IndexMap::new(alloc),
        };
        for planned in modules {
            let file = file_name(alloc, planned.name.as_str())?;
            files.put_each(planned.classes.as_slice(), &file)?;
        }
        Ok(files)
    }

    // Puts a file at each of these classes that has none.
    fn put_each(&mut self, classes: &[ClassName], file: &Text) -> Result<(), NoMemory>
        ensures { OnOk result ((class : Name) → file_in self.new class ≡ first_of (file_in self.old class) (if is_among classes.now class then Some file.now else None)) }
    {
        for class in classes {
            self.put(class, file)?;
        }
        Ok(())
    }

    // Puts a file at a class that has none.
    fn put(&mut self, class: &ClassName, file: &Text) -> Result<(), NoMemory>
        ensures { OnOk result ((other : Name) → file_in self.new other ≡ first_of (file_in self.old other) (if is_same other class.now then Some file.now else None)) }
    {
        if !self.files.contains_key(class) {
            self.files.insert(class.copied()?, file.copied()?)?;
        }
        Ok(())
    }

    /// The file of a class.
    pub fn file(&self, class: &ClassName) -> Option<&Text>
        ensures { option_copied result ≡ file_in self.now class.now }
    {
        self.files.get(class)
    }
}

/// The name of the file of a module.
pub fn file_name(alloc: Global, name: &str) -> Result<Text, NoMemory>
    ensures { IfOk result (λ file. file ≡ name.now ++ codes ".js") }
{
    let file = format!(in alloc; "{name}.js")?;
    Ok(Text::from_string(file)?)
}
