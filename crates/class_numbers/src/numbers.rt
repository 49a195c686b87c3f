// Numbered classes.
ghost use Rattle.std.specs.Prelude.{◌≡◌, ◌++◌, ◌∷◌, ◌<◌, [], IfOk, OnOk, Contains, map, length};
ghost use Rattle.sj_graph.specs.declared.graphs.Reference.{Reference};
ghost use Rattle.std.specs.Prelude.{List};
ghost use Rattle.number_graphs.specs.Graphs.{At};
ghost use Rattle.class_numbers.specs.Numbering.{IsNumbering, class_of, Keeps, Name};

use indexmap::IndexSet;
use sj_graph::Reference;
use sj_names::{ClassName, EntryPoint, NoMemory};
use std::alloc::Global;

/// Classes, each with a number, and the numbers of the classes to which each refers.
#[derive(Drop)]
pub struct ClassNumbers {
    classes: IndexSet<ClassName>,
    next: Vec<Vec<usize>>,
}

impl ClassNumbers {
    /// Numbers the classes of references and of entries.
    pub fn new(
        alloc: Global,
        references: &[Reference],
        entries: &[EntryPoint],
    ) -> Result<ClassNumbers, NoMemory>
        ensures numbered { IfOk result (IsNumbering references.now) }
        ensures entries { IfOk result (λ numbers. (class : Name) → Contains (map class_of entries.now) class → Contains numbers.classes.keys class) }
    {
        let mut numbers = ClassNumbers {
            classes: IndexSet::new(alloc),
            next: Vec::new(alloc),
        };
        numbers.add_references(alloc, references)?;
        numbers.add_entries(alloc, entries)?;
        Ok(numbers)
    }

    fn add_references(&mut self, alloc: Global, references: &[Reference]) -> Result<(), NoMemory>
        requires { IsNumbering [] self.now }
        ensures { OnOk result (IsNumbering references.now self.new) }
    {
        for reference in references {
            self.add_reference(alloc, reference)?;
        }
        Ok(())
    }

    fn add_entries(&mut self, alloc: Global, entries: &[EntryPoint]) -> Result<(), NoMemory>
        requires { (references : List Reference) × IsNumbering references self.now }
        ensures numbered { OnOk result ((references : List Reference) → IsNumbering references self.old → IsNumbering references self.new) }
        ensures entries { OnOk result ((class : Name) → Contains (map class_of entries.now) class → Contains self.new.classes.keys class) }
    {
        for entry in entries {
            self.number(alloc, &entry.class)?;
        }
        Ok(())
    }

    fn add_reference(&mut self, alloc: Global, reference: &Reference) -> Result<(), NoMemory>
        requires { (references : List Reference) × IsNumbering references self.now }
        ensures { OnOk result ((references : List Reference) → IsNumbering references self.old → IsNumbering (references ++ reference.now ∷ []) self.new) }
    {
        let from = self.number(alloc, &reference.from)?;
        let to = self.number(alloc, &reference.to)?;
        self.next[from].push(to)?;
        Ok(())
    }

    // The number of the class, which is the next number where it has none yet.
    fn number(&mut self, alloc: Global, class: &ClassName) -> Result<usize, NoMemory>
        requires { (references : List Reference) × IsNumbering references self.now }
        ensures numbered { OnOk result ((references : List Reference) → IsNumbering references self.old → IsNumbering references self.new) }
        ensures kept { OnOk result (Keeps self.old.classes.keys self.new.classes.keys) }
        ensures at { IfOk result (λ number. At self.new.classes.keys number class.now) }
        ensures within { IfOk result (λ number. number < length self.new.next.items) }
    {
        let (number, is_new) = self.classes.insert_full(class.copied()?)?;
        if is_new {
            self.next.push(Vec::new(alloc))?;
        }
        Ok(number)
    }

    /// The number of a class that has one.
    pub fn number_of(&self, class: &ClassName) -> usize
        requires { Contains self.now.classes.keys class.now }
        ensures { At self.now.classes.keys result class.now }
    {
        match self.classes.get_index_of(class) {
            Some(number) => number,
            None => unreachable!(),
        }
    }

    /// The class with this number.
    pub fn class(&self, number: usize) -> &ClassName
        requires { number < length self.now.classes.keys }
        ensures { At self.now.classes.keys number result.now }
    {
        &self.classes[number]
    }

    /// How many classes there are.
    pub fn len(&self) -> usize
        ensures { result ≡ length self.now.classes.keys }
    {
        self.classes.len()
    }

    /// For each number, the numbers of the classes to which its class refers.
    pub fn next(&self) -> &[Vec<usize>]
        ensures { result.now ≡ self.now.next.items }
    {
        self.next.as_slice()
    }
}
