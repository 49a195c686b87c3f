// Questions and answers.
ghost use Rattle.std.specs.Prelude.{◌≡◌, IfOk};

use sj_names::{ClassName, FieldName, Member, MethodName, NoMemory};
use sj_trees::{FieldDef, IrType, MethodDef};

/// What the work on a method asks of its world.
pub enum Question {
    /// Whether the first type is a subtype of the second.
    IsSub(IrType, IrType),
    /// The field of the class with this name, a static one where the mark says so.
    Field(ClassName, FieldName, bool),
    /// What a call of the public method runs on an instance of the class.
    Resolve(ClassName, MethodName),
    /// The one member to which the method resolves in all classes below this one of which instances are made.
    Single(ClassName, MethodName),
    /// Whether a hijacked class is a subtype of the class.
    HasHijacked(ClassName),
    /// The definition of a member that is small enough to stand in place of a call.
    Body(Member),
}

/// The answer to a question.
pub enum Answer {
    /// To `IsSub` and `HasHijacked`.
    Yes(bool),
    /// To `Field`: none where the class has no such field.
    Field(Option<FieldDef>),
    /// To `Resolve` and `Single`: none where no body is to be run, or not one alone.
    Member(Option<Member>),
    /// To `Body`: none where the member isn't a body that is needed, has more than 16 trees, or is the one that is worked on.
    Body(Option<MethodDef>),
}

impl Drop for Question {
    fn drop(self) {
        match self {
            Question::IsSub(_one, _two) => {}
            Question::Field(_one, _two, _) => {}
            Question::Resolve(_one, _two) => {}
            Question::Single(_one, _two) => {}
            Question::HasHijacked(_one) => {}
            Question::Body(_one) => {}
        }
    }
}

impl Drop for Answer {
    fn drop(self) {
        match self {
            Answer::Field(_one) => {}
            Answer::Member(_one) => {}
            Answer::Body(_one) => {}
            Answer::Yes(_) => {}
        }
    }
}

impl Question {
    /// The same question once more.
    pub fn copied(&self) -> Result<Question, NoMemory>
        ensures { IfOk result (λ q. q ≡ self.now) }
    {
        Ok(match self {
            Question::IsSub(sub, above) => Question::IsSub(sub.copied()?, above.copied()?),
            Question::Field(class, name, is_static) => {
                Question::Field(class.copied()?, name.copied()?, *is_static)
            }
            Question::Resolve(class, method) => Question::Resolve(
                class.copied()?,
                method.copied()?,
            ),
            Question::Single(class, method) => Question::Single(class.copied()?, method.copied()?),
            Question::HasHijacked(class) => Question::HasHijacked(class.copied()?),
            Question::Body(member) => Question::Body(member.copied()?),
        })
    }
}

impl Answer {
    /// The same answer once more.
    pub fn copied(&self) -> Result<Answer, NoMemory>
        ensures { IfOk result (λ a. a ≡ self.now) }
    {
        match self {
            Answer::Yes(yes) => Ok(Answer::Yes(*yes)),
            Answer::Field(field) => Ok(Answer::Field(copied_field(field)?)),
            Answer::Member(member) => Ok(Answer::Member(copied_member(member)?)),
            Answer::Body(method) => Ok(Answer::Body(copied_method(method)?)),
        }
    }
}

fn copied_field(field: &Option<FieldDef>) -> Result<Option<FieldDef>, NoMemory>
    ensures { IfOk result (λ f. f ≡ field.now) }
{
    match field {
        Some(field) => Ok(Some(field.copied()?)),
        None => Ok(None),
    }
}

fn copied_member(member: &Option<Member>) -> Result<Option<Member>, NoMemory>
    ensures { IfOk result (λ m. m ≡ member.now) }
{
    match member {
        Some(member) => Ok(Some(member.copied()?)),
        None => Ok(None),
    }
}

fn copied_method(method: &Option<MethodDef>) -> Result<Option<MethodDef>, NoMemory>
    ensures { IfOk result (λ m. m ≡ method.now) }
{
    match method {
        Some(method) => Ok(Some(method.copied()?)),
        None => Ok(None),
    }
}
