// The local rules of classes.
ghost use Rattle.std.specs.Prelude.{◌≡◌, Some, None, IfOk, MatchOption};
ghost use Rattle.sj_local.specs.Broken.{FirstBroken};
ghost use Rattle.folder_judging.specs.Rules.{BreaksFirst, IsLeastIn, IsWithClass};

use crate::reports::first_of;
use sj_local::{LocalError, check_class};
use sj_names::{NoMemory, Text};
use sj_reach::Report;
use sj_trees::ClassDef;
use std::alloc::Global;

/// The least class that breaks a local rule, and the first rule that it breaks; `None` where each class keeps them.
pub fn least_broken(alloc: Global, classes: &[ClassDef]) -> Result<Option<Report>, NoMemory>
    ensures { IfOk result (IsLeastIn classes.now) }
{
    let mut least = None;
    for class in classes {
        least = with_class(alloc, least, class)?;
    }
    Ok(least)
}

// The lesser of what was found and what this class breaks.
fn with_class(
    alloc: Global,
    least: Option<Report>,
    class: &ClassDef,
) -> Result<Option<Report>, NoMemory>
    ensures { IfOk result (IsWithClass least class.now) }
{
    match broken_rule(alloc, class)? {
        Some(rule) => {
            let place = Text::from_str(alloc, class.name.text())?;
            Ok(Some(first_of(least, Report { code: rule, place })))
        }
        None => Ok(least),
    }
}

// The number of the first rule that the class breaks.
fn broken_rule(alloc: Global, class: &ClassDef) -> Result<Option<u8>, NoMemory>
    ensures { IfOk result (λ rule. MatchOption rule (FirstBroken class.now None) (BreaksFirst class.now)) }
{
    match check_class(alloc, class) {
        Ok(()) => Ok(None),
        Err(LocalError::Broken { rule, .. }) => Ok(Some(rule.number())),
        Err(LocalError::NoMemory) => Err(NoMemory),
    }
}
