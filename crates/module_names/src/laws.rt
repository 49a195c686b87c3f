// A law of names, and worked names.
ghost use Rattle.std.specs.Prelude.{◌≡◌, ◌∷◌, [], codes};
ghost use Rattle.module_names.specs.Names.{names_of};
ghost use Rattle.module_names.specs.Laws.{NamesDiffer, one_digest, first_byte};

/// Where all digests have one length, no two keys have one name.
pub fn names_differ()
    ensures { NamesDiffer }
{}

/// Worked names: three keys with one digest, and three of which two have the same.
pub fn worked_names()
    ensures shared { names_of one_digest (codes "A" ∷ codes "B" ∷ codes "C" ∷ []) ≡ codes "internal-d" ∷ codes "internal-d-1" ∷ codes "internal-d-2" ∷ [] }
    ensures apart { names_of first_byte (codes "ab" ∷ codes "b" ∷ codes "az" ∷ []) ≡ codes "internal-a" ∷ codes "internal-b" ∷ codes "internal-a-1" ∷ [] }
{}
