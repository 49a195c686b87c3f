// The superclass of a class, by its name.
ghost use Rattle.std.specs.Prelude.{◌≡◌, option_map, slice_get, None};
ghost use Rattle.sj_world.specs.Ancestors.{next_on_chain};
ghost use Rattle.sj_world.specs.Known as known;

use sj_names::{ClassName, INTEGER};
use sj_world::World;

/// The class after this one on its chain.
pub fn superclass<'w>(w: &'w World, class: &ClassName) -> Option<&'w ClassName>
    ensures { option_map (λ n. n.now) result ≡ next_on_chain w.now class.now }
{
    match w.class_named(stands_as(class.text())) {
        Some(class) => class.superclass.as_ref(),
        None => second_on_chain(w, class),
    }
}

// The class above which stands what stands above `name`.
fn stands_as<'n>(name: &'n str) -> &'n str
    ensures { result.now ≡ known.stands_as name.now }
{
    if name == "java.lang.Byte" || name == "java.lang.Short" {
        INTEGER
    } else {
        name
    }
}

// The class after this one, where it is absent.
fn second_on_chain<'w>(w: &'w World, class: &ClassName) -> Option<&'w ClassName>
    requires { known.class_of w.now (known.stands_as class.now) ≡ None }
    ensures { option_map (λ n. n.now) result ≡ next_on_chain w.now class.now }
{
    match w.chain(class) {
        Some(chain) => second(chain),
        None => None,
    }
}

fn second<'w>(chain: &'w [ClassName]) -> Option<&'w ClassName>
    ensures { option_map (λ n. n.now) result ≡ slice_get chain.now 1 }
{
    if chain.len() > 1 {
        Some(&chain[1])
    } else {
        None
    }
}
