// The law that a method has one list of infos.
ghost use Rattle.sj_infos_laws.specs.Laws.{InfosAreOne};

/// No method has two lists of what it asks for: each thing stands once, and where it is first asked for.
pub fn infos_are_one()
    ensures { InfosAreOne }
{}
