// The laws of the format.
ghost use Rattle.std.specs.Prelude.{List, ℕ};
ghost use Rattle.sj_read_spec.specs.Files.{HasOneAnswer};

/// Each list of bytes is the file of exactly one class, or fails in exactly one way.
pub fn one_answer()
    ensures { (bytes : List ℕ) → HasOneAnswer bytes }
{}
