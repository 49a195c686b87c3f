// The classes of a world by their names.
ghost use Rattle.std.specs.Prelude.{◌≡◌, option_map};
ghost use Rattle.sj_world.specs.Known as known;
ghost use Rattle.sj_world.specs.Refusals.{IsInOrder};

use sj_names::{INTEGER, is_hijacked};
use sj_trees::ClassDef;

// The class of this name.
pub fn class_in<'c>(classes: &'c [ClassDef], name: &str) -> Option<&'c ClassDef>
    requires { IsInOrder classes.now }
    ensures { option_map (λ c. c.now) result ≡ known.class_of classes.now name.now }
{
    match classes.binary_search_by(|class| class.name.text().cmp(name)) {
        Ok(place) => Some(&classes[place]),
        Err(_) => None,
    }
}

// Whether a class of this name is there, in the world or because it always is.
pub fn is_known(classes: &[ClassDef], name: &str) -> bool
    requires { IsInOrder classes.now }
    ensures { result ≡ known.is_known classes.now name.now }
{
    class_in(classes, name).is_some() || is_hijacked(name)
}

// The class above which stands what stands above `name`.
pub fn stands_as<'n>(name: &'n str) -> &'n str
    ensures { result.now ≡ known.stands_as name.now }
{
    if name == "java.lang.Byte" || name == "java.lang.Short" {
        INTEGER
    } else {
        name
    }
}
