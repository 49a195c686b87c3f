// Laws of method entries, and worked ones.
ghost use Rattle.sj_baselink_spec.specs.Laws.{OneTarget};
ghost use Rattle.sj_baselink_spec.specs.Rows.{CalledIsThere, UncalledIsNot, SuperclassHasIt, InheritedIsNot, OverridingIsThere, DefaultIsThere, ReflectiveIsThere};

/// A class has one target for a name at most.
pub fn one_target()
    ensures { OneTarget }
{}

/// A small world, and what has an entry in it: a class that is made, for a method that is called on it; nothing where nothing is called; below a
/// superclass that has an entry a class only where it runs another body; a class for the body of an interface above it; and for a reflective name a
/// class that is made, with its own method as the target.
pub fn worked_entries()
    ensures called { CalledIsThere }
    ensures uncalled { UncalledIsNot }
    ensures superclass { SuperclassHasIt }
    ensures inherited { InheritedIsNot }
    ensures overriding { OverridingIsThere }
    ensures default { DefaultIsThere }
    ensures reflective { ReflectiveIsThere }
{}
