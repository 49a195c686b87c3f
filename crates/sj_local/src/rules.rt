// The rules, and where one is broken.
ghost use Rattle.std.specs.Prelude.{◌≡◌};
ghost use Rattle.sj_local.specs.Broken.{number};

use std::alloc::AllocFailed;
use thiserror::Error;

/// A rule that every class keeps.
#[derive(Clone, Copy, Debug, PartialEq, Eq)]
pub enum Rule {
    /// `java.lang.Object` is a class without superclass and interfaces, an interface has no superclass, and every other class has
    /// one.
    Superclass,
    /// The kind of hijacked classes is that of the eight names and of no other; their superclass is `java.lang.Object` or
    /// `java.lang.Number`, and no class stands below one of them.
    Hijacked,
    /// No interface is named twice.
    InterfaceTwice,
    /// No two fields share static mark and name, and no two methods namespace and name.
    MemberTwice,
    /// A field has a type of which there are values, and is static where the instances of the class have no fields.
    Field,
    /// `<init>` is the name of a constructor, without result. No method is a reflective proxy.
    MethodName,
    /// The types of parameters and result are those of the references in the method's name.
    Signature,
    /// Only a public method of a class or an interface is without a body.
    MissingBody,
    /// Only a class or a module class has constructors, and a module class exactly one, `<init>` without parameters.
    Constructors,
    /// In one method each local and each label is declared once.
    DeclaredTwice,
    /// A definition stands directly in a block, and not with a type that has no value; a block isn't empty.
    Definition,
    /// A variable is in scope, with its type; what is assigned is a mutable one.
    Variable,
    /// A Return names a label around it.
    ReturnLabel,
    /// This doesn't stand in a static method, and has the type of the class.
    This,
    /// A module is stored only in the constructor of the module class that is named, and what is stored is This.
    StoreModule,
    /// What is assigned to is a variable, a field or an item of an array.
    Target,
    /// No key stands twice in a match.
    Keys,
}

impl Rule {
    /// The number of the rule, from 1 to 17.
    pub fn number(self) -> u8
        ensures { result ≡ number self }
    {
        match self {
            Rule::Superclass => 1,
            Rule::Hijacked => 2,
            Rule::InterfaceTwice => 3,
            Rule::MemberTwice => 4,
            Rule::Field => 5,
            Rule::MethodName => 6,
            Rule::Signature => 7,
            Rule::MissingBody => 8,
            Rule::Constructors => 9,
            Rule::DeclaredTwice => 10,
            Rule::Definition => 11,
            Rule::Variable => 12,
            Rule::ReturnLabel => 13,
            Rule::This => 14,
            Rule::StoreModule => 15,
            Rule::Target => 16,
            Rule::Keys => 17,
        }
    }
}

/// A place in a class: the number of a member, fields first and then methods, and of the tree in its body, each tree before those in
/// it, both from 0. What concerns no member or no tree is at 0. A number past 32 bits is given as the last of them.
#[derive(Clone, Copy, Debug, PartialEq, Eq)]
pub struct Where {
    pub member: u32,
    pub tree: u32,
}

/// Why a class isn't accepted.
#[derive(Clone, Copy, Debug, PartialEq, Eq, Error)]
pub enum LocalError {
    /// The least rule that the class breaks, and its first place.
    #[error("the class breaks a rule")]
    Broken { rule: Rule, place: Where },
    /// No memory was left.
    #[error("no memory is left")]
    NoMemory,
}

impl<T: Drop> From<AllocFailed<T>> for LocalError {
    ghost use Rattle.sj_local.specs.declared.rules.LocalError.TheVariants.{NoMemory};

    ghost from_gives = { λ _ e. e ≡ NoMemory };

    fn from(_error: AllocFailed<T>) -> LocalError {
        LocalError::NoMemory
    }
}

impl From<sj_names::NoMemory> for LocalError {
    ghost use Rattle.sj_local.specs.declared.rules.LocalError.TheVariants.{NoMemory};

    ghost from_gives = { λ _ e. e ≡ NoMemory };

    fn from(_error: sj_names::NoMemory) -> LocalError {
        LocalError::NoMemory
    }
}
