//! The limits on the sizes of the files of a folder.
#![tactic(auto)]

ghost use Rattle.std.specs.Prelude.{◌↔◌, ◌≤◌, ℕ, IsTrue, MatchOption};
ghost use Rattle.folder_sizes.specs.Sizes.{IsOver, IsTooLarge, IsFirstTooLarge, largest_folder};

/// 16 MiB.
const LARGEST_FILE: u64 = 16_777_216;
/// 256 MiB.
const LARGEST_FOLDER: u64 = 268_435_456;

const MOST_FILES: usize = 65_535;

/// The first place at which a folder is too large, of whose files, in the order of their paths, these are the sizes in bytes: a file has more than
/// 16 MiB, or those up to it have more than 256 MiB together, or they are more than 65,535.
pub fn first_too_large(sizes: &[u64]) -> Option<usize>
    ensures { MatchOption result ((place : ℕ) → IsTooLarge sizes.now place → ⊥) (IsFirstTooLarge sizes.now) }
{
    let mut total: u64 = 0;
    for place in 0..sizes.len() {
        let size = sizes[place];
        if is_over(place, total, size) {
            return Some(place);
        }
        total += size;
    }
    None
}

/// Whether a file of this size is too large at this place, behind files of so many bytes together.
pub fn is_over(place: usize, total: u64, size: u64) -> bool
    requires { total ≤ largest_folder }
    ensures { IsTrue result ↔ IsOver place total size }
{
    size > LARGEST_FILE || total + size > LARGEST_FOLDER || place >= MOST_FILES
}
