// What the law of the reader says of modules.
ghost use Rattle.std.specs.Prelude.{◌≡◌, ℕ, List, [], suc, ◌+◌, length, Ok, Err};
ghost use Rattle.exact_place.specs.Place.{Place};
ghost use Rattle.js_tree.specs.Terms.{Module};
ghost use Rattle.js_tree.specs.Spelling.{Spells};
ghost use Rattle.js_read_spec.specs.Modules.{module_at};

/// A text spells one module at most.
pub fn one_module()
    ensures { (m k : Module) (text : List ℕ) → Spells m text → Spells k text → m ≡ k }
{}

/// The reader on lists reads what spells a module, to its end.
pub fn spelled_module_is_read()
    ensures { (m : Module) (bytes : List ℕ) → Spells m bytes → module_at (suc (length bytes)) bytes ≡ Ok (m, []) }
{}

/// What the reader on lists reads, it reads to the end, and it spells that module.
pub fn read_module_is_spelled()
    ensures whole { (m : Module) (bytes rest : List ℕ) → module_at (suc (length bytes)) bytes ≡ Ok (m, rest) → rest ≡ [] }
    ensures spelled { (m : Module) (bytes : List ℕ) → module_at (suc (length bytes)) bytes ≡ Ok (m, []) → Spells m bytes }
{}

/// Where the reader on lists stops, no module is spelled, and the bytes before are the longest front that begins one.
pub fn place_is_exact()
    ensures nothing { (m : Module) (bytes : List ℕ) (left : ℕ) → module_at (suc (length bytes)) bytes ≡ Err left → Spells m bytes → ⊥ }
    ensures place { (bytes : List ℕ) (left : ℕ) → module_at (suc (length bytes)) bytes ≡ Err left → (place : ℕ) × (place + left ≡ length bytes) × Place Spells bytes place }
{}
