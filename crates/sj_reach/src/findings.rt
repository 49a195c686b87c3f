// What is found while facts are gone through.
ghost use Rattle.std.specs.Prelude.{◌≡◌, [], OnOk};
ghost use Rattle.sj_reach.specs.Conclusions.{Adds, Just, follows, told};

use indexmap::IndexSet;
use sj_names::{ClassName, FieldName, Member, MethodName, NoMemory, Text};
use sj_world::Fact;
use std::alloc::Global;

/// What is told of a folder: a number, as that of a code or of a rule, and whom it concerns.
#[derive(Drop)]
pub struct Report {
    pub code: u8,
    pub place: Text,
}

/// The facts that are found, each once and in the order in which they were found, and what is told of references that don't resolve.
#[derive(Drop)]
pub struct Findings {
    pub facts: IndexSet<Fact>,
    pub reports: Vec<Report>,
}

impl Findings {
    /// Nothing is found yet.
    pub fn new(alloc: Global) -> Findings
        ensures facts { result.facts.keys ≡ [] }
        ensures reports { result.reports.items ≡ [] }
    {
        Findings {
            facts: IndexSet::new(alloc),
            reports: Vec::new(alloc),
        }
    }

    /// The fact holds.
    pub fn add(&mut self, fact: Fact) -> Result<(), NoMemory>
        ensures { OnOk result (Adds (Just (follows fact)) self.old self.new) }
    {
        self.facts.insert(fact)?;
        Ok(())
    }

    /// The class is needed.
    pub fn add_needed(&mut self, class: &ClassName) -> Result<(), NoMemory>
        ensures { OnOk result (Adds (Just (follows (Fact.Needed class.now))) self.old self.new) }
    {
        let class = class.copied()?;
        self.add(Fact::Needed(class))
    }

    /// Instances of the class are made.
    pub fn add_made(&mut self, class: &ClassName) -> Result<(), NoMemory>
        ensures { OnOk result (Adds (Just (follows (Fact.Made class.now))) self.old self.new) }
    {
        let class = class.copied()?;
        self.add(Fact::Made(class))
    }

    /// The cell of the module class is used.
    pub fn add_cell(&mut self, class: &ClassName) -> Result<(), NoMemory>
        ensures { OnOk result (Adds (Just (follows (Fact.CellUsed class.now))) self.old self.new) }
    {
        let class = class.copied()?;
        self.add(Fact::CellUsed(class))
    }

    /// The field of the class is needed.
    pub fn add_field(
        &mut self,
        class: &ClassName,
        field: &FieldName,
        is_static: bool,
    ) -> Result<(), NoMemory>
        ensures { OnOk result (Adds (Just (follows (Fact.NeededField class.now field.now is_static))) self.old self.new) }
    {
        let class = class.copied()?;
        let field = field.copied()?;
        self.add(Fact::NeededField(class, field, is_static))
    }

    /// The body of the method is needed.
    pub fn add_body(&mut self, member: Member) -> Result<(), NoMemory>
        ensures { OnOk result (Adds (Just (follows (Fact.Body member))) self.old self.new) }
    {
        self.add(Fact::Body(member))
    }

    /// The method is called on receivers of the class.
    pub fn add_called(&mut self, class: &ClassName, method: &MethodName) -> Result<(), NoMemory>
        ensures { OnOk result (Adds (Just (follows (Fact.Called class.now method.now))) self.old self.new) }
    {
        let class = class.copied()?;
        let method = method.copied()?;
        self.add(Fact::Called(class, method))
    }

    /// This is told.
    pub fn tell(&mut self, code: u8, place: Text) -> Result<(), NoMemory>
        ensures { OnOk result (Adds (Just (told (record { code = code; place = place }))) self.old self.new) }
    {
        self.reports.push(Report { code, place })?;
        Ok(())
    }
}
