//! Readers of a text that give the exact place of what is wrong, and the law that they keep.
//!
//! A reader is a function from bytes to a value and the bytes that are left, or to the number of bytes that were left where it
//! stopped. `specs/` has the readers, the grammars that go with them, and the law between the two; `proofs/` has the law of each
//! way of putting readers together. The functions here only state what follows.
#![tactic(auto)]

ghost use Rattle.std.specs.Prelude.{◌≡◌, ℕ, List, Bool, false, [], ◌+◌, ◌<◌, ◌≤◌, length, not, Ok, Err};
ghost use Rattle.exact_place.specs.Reading.{Reading, literal_at, run_at};
ghost use Rattle.exact_place.specs.Grammar.{IsLiteral, IsRun};
ghost use Rattle.exact_place.specs.Place.{Law, Place};
ghost use Rattle.exact_place.specs.Tokens.{is_digit, begins_number, number_of};

/// A grammar, with a reader at each fuel that keeps the law.
pub trait Readable {
    ghost Value: { Type 0 };

    ghost spells: { Value → List ℕ → Type 0 };

    ghost reading: { ℕ → List ℕ → Reading Value };

    ghost lawful: { (n m : ℕ) → n ≤ m → Law n (λ c. false) (reading n) (reading m) spells };
}

/// A text spells one value at most.
pub fn one_value<G: Readable>()
    ensures { (x y : G.Value) (text : List ℕ) → G.spells x text → G.spells y text → x ≡ y }
{}

/// What is spelled is read, all of it.
pub fn spelled_is_read<G: Readable>()
    ensures { (x : G.Value) (text : List ℕ) (n : ℕ) → length text < n → G.spells x text → G.reading n text ≡ Ok (x, []) }
{}

/// What is read, all of it, is spelled.
pub fn read_is_spelled<G: Readable>()
    ensures { (x : G.Value) (bytes : List ℕ) (n : ℕ) → G.reading n bytes ≡ Ok (x, []) → G.spells x bytes }
{}

/// Where reading stops, the bytes before are the longest front that begins a text.
pub fn place_is_exact<G: Readable>()
    ensures { (bytes : List ℕ) (n left : ℕ) → length bytes < n → G.reading n bytes ≡ Err left → (place : ℕ) × (place + left ≡ length bytes) × Place G.spells bytes place }
{}

/// The reader of a literal keeps the law.
pub fn literals()
    ensures { (n : ℕ) (stop : ℕ → Bool) (want : List ℕ) → Law n stop (literal_at want) (literal_at want) (IsLiteral want) }
{}

/// The reader of decimal numbers below a limit keeps the law.
pub fn decimal_numbers()
    ensures { (n limit : ℕ) (nought : Bool) → 1 < limit → Law n (λ c. not (is_digit c)) (run_at (begins_number nought limit) (number_of nought limit) []) (run_at (begins_number nought limit) (number_of nought limit) []) (IsRun (number_of nought limit)) }
{}
