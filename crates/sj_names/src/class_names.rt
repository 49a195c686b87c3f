// The full name of a class.
ghost use Rattle.std.specs.Prelude.{◌≡◌, ◌↔◌, IfOk, IsTrue, Some, nat_eq, refl, false};
ghost use Rattle.std.specs.Ordering.{nat_cmp};
ghost use Rattle.std.specs.Hash as fed;
ghost use Rattle.std.specs.Cmp.Lexicographic.{pointwise, slice_cmp, nat_list_eq_equiv, nat_list_cmp_total, texts_ties, texts_po};
ghost use Rattle.std.specs.Cmp.{partial_equiv_from_equiv};
ghost use Rattle.std.specs.Cmp.Rules.{hashing};
ghost use Rattle.std.proofs.Common.{rules};
ghost use Rattle.sj_names.specs.Grammar.{is_class_name};

use crate::naming::is_class_name;
use crate::{NameError, NoMemory, Text};
use std::alloc::Global;
use std::cmp::Ordering;
use std::fmt;
use std::hash::{Hash, Hasher};
use std::marker::Model;

/// The full name of a class: simple names joined by dots.
#[derive(Drop)]
pub struct ClassName {
    text: Text,
}

impl Model for ClassName {
    ghost use Rattle.std.specs.Prelude.{List, ℕ, IsTrue};
    ghost use Rattle.sj_names.specs.Grammar.{is_class_name};

    ghost Value = { List ℕ };

    ghost view = { λ n. n.text };

    ghost invariant = { λ n. IsTrue (is_class_name n.text) };
}

impl ClassName {
    /// The name as a text.
    pub fn text(&self) -> &str
        ensures text { result.now ≡ self.now }
        ensures name { IsTrue (is_class_name self.now) }
    {
        self.text.as_str()
    }

    /// The name that `text` is, which is known to be one.
    pub fn of_text(text: Text) -> ClassName
        requires { IsTrue (is_class_name text) }
        ensures { result ≡ text }
    {
        ClassName { text }
    }

    /// The same name once more, which shares the bytes.
    pub fn copied(&self) -> Result<ClassName, NoMemory>
        ensures { IfOk result (λ n. n ≡ self.now) }
    {
        let text = self.text.copied()?;
        Ok(ClassName { text })
    }

    /// Whether both names have the same text.
    pub fn is_same(&self, other: &ClassName) -> bool
        ensures value { result ≡ pointwise nat_eq self.now other.now }
        ensures same { IsTrue result ↔ (self.now ≡ other.now) }
    {
        self.text() == other.text()
    }

    /// The name that `text` spells; `BadName` exactly where it is no such name.
    pub fn parse(alloc: Global, text: &str) -> Result<ClassName, NameError>
        ensures found { IfOk result (λ n. (n ≡ text.now) × IsTrue (is_class_name text.now)) }
        ensures bad { result ≡ Err NameError.BadName ↔ (is_class_name text.now ≡ false) }
    {
        if !is_class_name(text) {
            return Err(NameError::BadName);
        }
        let text = Text::from_str(alloc, text)?;
        Ok(ClassName { text })
    }
}

impl PartialEq for ClassName {
    ghost eq = { pointwise nat_eq };

    ghost laws = { partial_equiv_from_equiv nat_list_eq_equiv };

    fn eq(&self, other: &ClassName) -> bool {
        self.text() == other.text()
    }
}

impl Eq for ClassName {
    ghost laws = { nat_list_eq_equiv };
}

impl PartialOrd for ClassName {
    ghost partial_cmp = { λ x y. Some (slice_cmp nat_cmp x y) };

    ghost laws = { texts_po };

    fn partial_cmp(&self, other: &ClassName) -> Option<Ordering> {
        Some(self.cmp(other))
    }
}

impl Ord for ClassName {
    ghost cmp = { slice_cmp nat_cmp };

    ghost total = { nat_list_cmp_total };

    ghost matches_partial_cmp = { λ x y. refl };

    ghost matches_eq = { texts_ties };

    fn cmp(&self, other: &ClassName) -> Ordering {
        self.text().cmp(other.text())
    }
}

impl Hash for ClassName {
    ghost hash_input = { fed.str };

    ghost respects_eq = { Prim.search (hashing, rules) };

    fn hash<H: Hasher>(&self, state: &mut H) {
        self.text().hash(state);
    }
}

impl fmt::Debug for ClassName {
    fn fmt<W: fmt::Write>(&self, f: &mut fmt::Formatter<W>) -> fmt::Result {
        fmt::Debug::fmt(&self.text(), f)
    }
}

impl fmt::Display for ClassName {
    ghost output = { λ text. Some text };

    fn fmt<W: fmt::Write>(&self, f: &mut fmt::Formatter<W>) -> fmt::Result {
        fmt::Display::fmt(&self.text(), f)
    }
}
