// What is told first.
ghost use Rattle.std.specs.Prelude.{◌≡◌};
ghost use Rattle.sj_reach.specs.Answers.{first_told};

use sj_reach::{Report, comes_before};

/// The one that is told first, the earlier one where both are told alike.
pub fn first_of(least: Option<Report>, found: Report) -> Report
    ensures { result ≡ first_told least found }
{
    match least {
        Some(least) if !comes_before(&found, &least) => least,
        _ => found,
    }
}
