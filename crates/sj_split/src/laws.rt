// Laws of homes, and worked homes.
ghost use Rattle.std.specs.Prelude.{◌≡◌, ◌∷◌, [], Some, None, codes};
ghost use Rattle.sj_split.specs.declared.homes.Home.TheVariants.{Public, Internal};
ghost use Rattle.sj_split.specs.Homes.{home_of_tags};
ghost use Rattle.sj_split.specs.Laws.{ComponentsAreHomes, TagsDecideHomes, HomesTellTags, OneHome, OnePlace};

/// In smallest style two classes are in one module exactly where walks lead both ways between them.
pub fn components_are_homes()
    ensures { ComponentsAreHomes }
{}

/// In fewest style two classes that the same public modules reach are in one module.
pub fn tags_decide_homes()
    ensures { TagsDecideHomes }
{}

/// In fewest style the same public modules reach two classes that are in one module.
pub fn homes_tell_tags()
    ensures { HomesTellTags }
{}

/// A class has one home.
pub fn homes_are_one()
    ensures { OneHome }
{}

/// No class is in two modules of a plan.
pub fn classes_have_one_place()
    ensures { OnePlace }
{}

/// Worked homes: no tag, one tag, and two.
pub fn worked_homes()
    ensures none { home_of_tags [] ≡ None }
    ensures one { home_of_tags (codes "hello" ∷ []) ≡ Some (Public (codes "hello")) }
    ensures two { home_of_tags (codes "hello" ∷ codes "world" ∷ []) ≡ Some (Internal (codes "hello world")) }
{}
