// The simple names of methods and fields.
ghost use Rattle.std.specs.Prelude.{◌≡◌, ◌↔◌, IfOk, IsTrue, Some, nat_eq, refl, false};
ghost use Rattle.std.specs.Ordering.{nat_cmp};
ghost use Rattle.std.specs.Hash as fed;
ghost use Rattle.std.specs.Cmp.Lexicographic.{pointwise, slice_cmp, nat_list_eq_equiv, nat_list_cmp_total, texts_ties, texts_po};
ghost use Rattle.std.specs.Cmp.{partial_equiv_from_equiv};
ghost use Rattle.std.specs.Cmp.Rules.{hashing};
ghost use Rattle.std.proofs.Common.{rules};
ghost use Rattle.sj_names.specs.Grammar.{is_plain_name, is_simple_name};

use crate::naming::{is_plain_name, is_simple_name};
use crate::{NameError, NoMemory, Text};
use std::alloc::Global;
use std::cmp::Ordering;
use std::fmt;
use std::hash::{Hash, Hasher};
use std::marker::Model;

/// The name of a method without its parameters and result, `<init>` included.
#[derive(Drop)]
pub struct SimpleName {
    text: Text,
}

impl Model for SimpleName {
    ghost use Rattle.std.specs.Prelude.{List, ℕ, IsTrue};
    ghost use Rattle.sj_names.specs.Grammar.{is_simple_name};

    ghost Value = { List ℕ };

    ghost view = { λ n. n.text };

    ghost invariant = { λ n. IsTrue (is_simple_name n.text) };
}

impl SimpleName {
    /// The name as a text.
    pub fn text(&self) -> &str
        ensures text { result.now ≡ self.now }
        ensures name { IsTrue (is_simple_name self.now) }
    {
        self.text.as_str()
    }

    /// The name that `text` is, which is known to be one.
    pub fn of_text(text: Text) -> SimpleName
        requires { IsTrue (is_simple_name text) }
        ensures { result ≡ text }
    {
        SimpleName { text }
    }

    /// The same name once more, which shares the bytes.
    pub fn copied(&self) -> Result<SimpleName, NoMemory>
        ensures { IfOk result (λ n. n ≡ self.now) }
    {
        let text = self.text.copied()?;
        Ok(SimpleName { text })
    }

    /// Whether both names have the same text.
    pub fn is_same(&self, other: &SimpleName) -> bool
        ensures value { result ≡ pointwise nat_eq self.now other.now }
        ensures same { IsTrue result ↔ (self.now ≡ other.now) }
    {
        self.text() == other.text()
    }

    /// The name that `text` spells; `BadName` exactly where it is no such name.
    pub fn parse(alloc: Global, text: &str) -> Result<SimpleName, NameError>
        ensures found { IfOk result (λ n. (n ≡ text.now) × IsTrue (is_simple_name text.now)) }
        ensures bad { result ≡ Err NameError.BadName ↔ (is_simple_name text.now ≡ false) }
    {
        if !is_simple_name(text) {
            return Err(NameError::BadName);
        }
        let text = Text::from_str(alloc, text)?;
        Ok(SimpleName { text })
    }
}

impl PartialEq for SimpleName {
    ghost eq = { pointwise nat_eq };

    ghost laws = { partial_equiv_from_equiv nat_list_eq_equiv };

    fn eq(&self, other: &SimpleName) -> bool {
        self.text() == other.text()
    }
}

impl Eq for SimpleName {
    ghost laws = { nat_list_eq_equiv };
}

impl PartialOrd for SimpleName {
    ghost partial_cmp = { λ x y. Some (slice_cmp nat_cmp x y) };

    ghost laws = { texts_po };

    fn partial_cmp(&self, other: &SimpleName) -> Option<Ordering> {
        Some(self.cmp(other))
    }
}

impl Ord for SimpleName {
    ghost cmp = { slice_cmp nat_cmp };

    ghost total = { nat_list_cmp_total };

    ghost matches_partial_cmp = { λ x y. refl };

    ghost matches_eq = { texts_ties };

    fn cmp(&self, other: &SimpleName) -> Ordering {
        self.text().cmp(other.text())
    }
}

impl Hash for SimpleName {
    ghost hash_input = { fed.str };

    ghost respects_eq = { Prim.search (hashing, rules) };

    fn hash<H: Hasher>(&self, state: &mut H) {
        self.text().hash(state);
    }
}

impl fmt::Debug for SimpleName {
    fn fmt<W: fmt::Write>(&self, f: &mut fmt::Formatter<W>) -> fmt::Result {
        fmt::Debug::fmt(&self.text(), f)
    }
}

impl fmt::Display for SimpleName {
    ghost output = { λ text. Some text };

    fn fmt<W: fmt::Write>(&self, f: &mut fmt::Formatter<W>) -> fmt::Result {
        fmt::Display::fmt(&self.text(), f)
    }
}

/// The name of a field.
#[derive(Drop)]
pub struct FieldName {
    text: Text,
}

impl Model for FieldName {
    ghost use Rattle.std.specs.Prelude.{List, ℕ, IsTrue};
    ghost use Rattle.sj_names.specs.Grammar.{is_plain_name};

    ghost Value = { List ℕ };

    ghost view = { λ n. n.text };

    ghost invariant = { λ n. IsTrue (is_plain_name n.text) };
}

impl FieldName {
    /// The name as a text.
    pub fn text(&self) -> &str
        ensures text { result.now ≡ self.now }
        ensures name { IsTrue (is_plain_name self.now) }
    {
        self.text.as_str()
    }

    /// The name that `text` is, which is known to be one.
    pub fn of_text(text: Text) -> FieldName
        requires { IsTrue (is_plain_name text) }
        ensures { result ≡ text }
    {
        FieldName { text }
    }

    /// The same name once more, which shares the bytes.
    pub fn copied(&self) -> Result<FieldName, NoMemory>
        ensures { IfOk result (λ n. n ≡ self.now) }
    {
        let text = self.text.copied()?;
        Ok(FieldName { text })
    }

    /// Whether both names have the same text.
    pub fn is_same(&self, other: &FieldName) -> bool
        ensures value { result ≡ pointwise nat_eq self.now other.now }
        ensures same { IsTrue result ↔ (self.now ≡ other.now) }
    {
        self.text() == other.text()
    }

    /// The name that `text` spells; `BadName` exactly where it is no such name.
    pub fn parse(alloc: Global, text: &str) -> Result<FieldName, NameError>
        ensures found { IfOk result (λ n. (n ≡ text.now) × IsTrue (is_plain_name text.now)) }
        ensures bad { result ≡ Err NameError.BadName ↔ (is_plain_name text.now ≡ false) }
    {
        if !is_plain_name(text) {
            return Err(NameError::BadName);
        }
        let text = Text::from_str(alloc, text)?;
        Ok(FieldName { text })
    }
}

impl PartialEq for FieldName {
    ghost eq = { pointwise nat_eq };

    ghost laws = { partial_equiv_from_equiv nat_list_eq_equiv };

    fn eq(&self, other: &FieldName) -> bool {
        self.text() == other.text()
    }
}

impl Eq for FieldName {
    ghost laws = { nat_list_eq_equiv };
}

impl PartialOrd for FieldName {
    ghost partial_cmp = { λ x y. Some (slice_cmp nat_cmp x y) };

    ghost laws = { texts_po };

    fn partial_cmp(&self, other: &FieldName) -> Option<Ordering> {
        Some(self.cmp(other))
    }
}

impl Ord for FieldName {
    ghost cmp = { slice_cmp nat_cmp };

    ghost total = { nat_list_cmp_total };

    ghost matches_partial_cmp = { λ x y. refl };

    ghost matches_eq = { texts_ties };

    fn cmp(&self, other: &FieldName) -> Ordering {
        self.text().cmp(other.text())
    }
}

impl Hash for FieldName {
    ghost hash_input = { fed.str };

    ghost respects_eq = { Prim.search (hashing, rules) };

    fn hash<H: Hasher>(&self, state: &mut H) {
        self.text().hash(state);
    }
}

impl fmt::Debug for FieldName {
    fn fmt<W: fmt::Write>(&self, f: &mut fmt::Formatter<W>) -> fmt::Result {
        fmt::Debug::fmt(&self.text(), f)
    }
}

impl fmt::Display for FieldName {
    ghost output = { λ text. Some text };

    fn fmt<W: fmt::Write>(&self, f: &mut fmt::Formatter<W>) -> fmt::Result {
        fmt::Display::fmt(&self.text(), f)
    }
}
