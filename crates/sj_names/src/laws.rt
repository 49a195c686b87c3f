// Laws of the definitions, each the contract of a function that does nothing.
ghost use Rattle.sj_names.specs.MethodNames.{ReadsMethodNames};
ghost use Rattle.sj_names.specs.Names.{TestsDecideTheGrammar};
ghost use Rattle.sj_names.specs.References.{ReadsReferences};

/// The tests that the types of names keep decide the grammar of names.
pub fn tests_decide_the_grammar()
    ensures { TestsDecideTheGrammar }
{}

/// A text spells a reference exactly where it is the spelling of that reference.
pub fn reads_references()
    ensures { ReadsReferences }
{}

/// A text spells a method name exactly where it is the spelling of that name. So no two names have one spelling.
pub fn reads_method_names()
    ensures { ReadsMethodNames }
{}
