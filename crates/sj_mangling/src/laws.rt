// Laws of the definitions, each the contract of a function that does nothing.
ghost use Rattle.sj_mangling.specs.Bindings.{FunctionNamesDiffer};
ghost use Rattle.sj_mangling.specs.Mangling.{MangledTextsDiffer};
ghost use Rattle.sj_mangling.specs.Numerals.{NumeralsDiffer};

/// Mangling is injective: two texts that are mangled alike are the same.
pub fn mangled_texts_differ()
    ensures { MangledTextsDiffer }
{}

/// Two members with one function name have the same namespace, class and name.
pub fn function_names_differ()
    ensures { FunctionNamesDiffer }
{}

/// Two numbers with one numeral are the same, whatever their size.
pub fn numerals_differ()
    ensures { NumeralsDiffer }
{}
