// The laws of listings.
ghost use Rattle.std.specs.Prelude.{◌≡◌, ◌↔◌, ◌+◌, List, ℕ, [], suc, length, Ok, Err};
ghost use Rattle.exact_place.specs.Place.{Place};
ghost use Rattle.sj_trees.specs.declared.classes.ClassDef.{ClassDef};
ghost use Rattle.sj_text_spec.specs.Spelling.{Lists};
ghost use Rattle.sj_text_spec.specs.Texts.{listing_text};
ghost use Rattle.sj_text_spec.specs.Rules.{HasListing, bare};
ghost use Rattle.sj_text_spec.specs.Reading.{listing_at};

/// Each class whose references and names are in their grammar has exactly one listing, and no other class has one.
pub fn each_has_one_listing()
    ensures listings { (c : ClassDef) → HasListing c → (bytes : List ℕ) → Lists (bare c) bytes ↔ (bytes ≡ listing_text c) }
    ensures kept { (c : ClassDef) (bytes : List ℕ) → Lists c bytes → HasListing c }
{}

/// A text is the listing of one class at most.
pub fn one_class()
    ensures { (c d : ClassDef) (text : List ℕ) → Lists c text → Lists d text → c ≡ d }
{}

/// The reader on lists reads what lists a class, to its end.
pub fn listing_is_read()
    ensures { (c : ClassDef) (bytes : List ℕ) → Lists c bytes → listing_at (suc (length bytes)) bytes ≡ Ok (c, []) }
{}

/// What the reader on lists reads, it reads to the end, and it lists that class.
pub fn read_class_is_listed()
    ensures whole { (c : ClassDef) (bytes rest : List ℕ) → listing_at (suc (length bytes)) bytes ≡ Ok (c, rest) → rest ≡ [] }
    ensures listed { (c : ClassDef) (bytes : List ℕ) → listing_at (suc (length bytes)) bytes ≡ Ok (c, []) → Lists c bytes }
{}

/// Where the reader on lists stops, no class is listed, and the bytes before are the longest front that begins a listing.
pub fn place_is_exact()
    ensures nothing { (c : ClassDef) (bytes : List ℕ) (left : ℕ) → listing_at (suc (length bytes)) bytes ≡ Err left → Lists c bytes → ⊥ }
    ensures place { (bytes : List ℕ) (left : ℕ) → listing_at (suc (length bytes)) bytes ≡ Err left → (place : ℕ) × (place + left ≡ length bytes) × Place Lists bytes place }
{}
