// Whole listings.
ghost use Rattle.std.specs.Prelude.{◌≡◌, ◌⊎◌, ◌+◌, ℕ, length, Err, [], IfOk};
ghost use Rattle.exact_place.specs.Place.{Place};
ghost use Rattle.sj_trees.specs.declared.classes.ClassDef.{ClassDef};
ghost use Rattle.sj_text_spec.specs.Spelling.{Lists};
ghost use Rattle.sj_text_spec.specs.Reading as reading;
ghost use Rattle.text_scan.specs.Gives.{Gives, Fails};

use crate::classes::class_of;
use crate::error::ListingError;
use sj_trees::ClassDef;
use std::alloc::Global;
use text_scan::Stop;

/// The class that the bytes list, all of them.
#[tactic(auto, unfolding(sj_text_spec::specs::Reading::listing_at))]
fn whole_class(alloc: Global, fuel: usize, bytes: &[u8]) -> Result<ClassDef, Stop>
    ensures { Gives (λ c. (c, [])) result (reading.listing_at fuel bytes.now) }
{
    let (class, rest) = class_of(alloc, fuel, bytes)?;
    match rest {
        [] => Ok(class),
        [_, ..] => Err(Stop::Bad(rest.len())),
    }
}

/// Why the bytes list no class, where their reader stopped.
#[tactic(auto, using(crate::proofs::WholeSteps::whole_steps))]
fn error_of(bytes: &[u8], stop: Stop) -> ListingError
    requires { Fails stop (reading.listing_at (length bytes.now + 1) bytes.now) }
    ensures place { (p : ℕ) → result ≡ ListingError.BadListing p → Place Lists bytes.now p }
    ensures nothing { (p : ℕ) (c : ClassDef) → result ≡ ListingError.BadListing p → Lists c bytes.now → ⊥ }
    ensures memory { (c : ClassDef) → Lists c bytes.now → result ≡ ListingError.NoMemory }
{
    match stop {
        Stop::Bad(left) => ListingError::BadListing((bytes.len() - left) as u64),
        Stop::NoMemory => ListingError::NoMemory,
    }
}

/// The class whose listing the bytes are: every position is zero, its one source file has the empty name, and no method has a hash.
///
/// BadListing comes exactly where they are no listing. Its place is the length of the longest front that begins one.
#[tactic(auto, using(crate::proofs::WholeSteps::whole_steps))]
pub fn parse_listing(alloc: Global, text: &[u8]) -> Result<ClassDef, ListingError>
    ensures found { IfOk result (λ c. Lists c text.now) }
    ensures only { (c : ClassDef) → Lists c text.now → (result ≡ Err ListingError.NoMemory) ⊎ IfOk result (λ d. d ≡ c) }
    ensures place { (p : ℕ) → result ≡ Err (ListingError.BadListing p) → Place Lists text.now p }
    ensures nothing { (p : ℕ) (c : ClassDef) → result ≡ Err (ListingError.BadListing p) → Lists c text.now → ⊥ }
{
    match whole_class(alloc, text.len() + 1, text) {
        Ok(class) => Ok(class),
        Err(stop) => Err(error_of(text, stop)),
    }
}
