// Texts cut at an ASCII character.
ghost use Rattle.std.specs.Prelude.{◌≡◌, ◌≢◌, ◌<◌, ◌≤◌, ℕ, List, [], ◌∷◌, length, MatchOption};
ghost use Rattle.sj_names.specs.MethodNames.{parts};
ghost use Rattle.sj_names.specs.References as references;

// The text behind `first`, where `text` begins with it.
pub fn behind(text: &str, first: char) -> Option<&str>
    requires { first < 128 }
    ensures { MatchOption result ((rest : List ℕ) → text.now ≢ first ∷ rest) (λ x. text.now ≡ first ∷ x.now) }
{
    text.strip_prefix(first)
}

// The text behind the `[` in front.
pub fn behind_dimensions(text: &str) -> &str
    ensures base { result.now ≡ references.behind_dimensions text.now }
    ensures shorter { length result.now ≤ length text.now }
{
    let mut base = text;
    while let Some(rest) = behind(base, '[') {
        base = rest;
    }
    base
}

// The part before the first `;`, and the text behind it.
pub fn first_part(text: &str) -> Option<(&str, &str)>
    ensures { MatchOption result (parts text.now ≡ text.now ∷ [])
        (λ x. (parts text.now ≡ x.0.now ∷ parts x.1.now) × (length x.1.now < length text.now)) }
{
    text.split_once(';')
}
