// The names of locals and labels, those that the inliner makes included.
ghost use Rattle.std.specs.Prelude.{◌≡◌, ◌↔◌, IfOk, IsTrue, Some, nat_eq, refl, false};
ghost use Rattle.std.specs.Ordering.{nat_cmp};
ghost use Rattle.std.specs.Hash as fed;
ghost use Rattle.std.specs.Cmp.Lexicographic.{pointwise, slice_cmp, nat_list_eq_equiv, nat_list_cmp_total, texts_ties, texts_po};
ghost use Rattle.std.specs.Cmp.{partial_equiv_from_equiv};
ghost use Rattle.std.specs.Cmp.Rules.{hashing};
ghost use Rattle.std.proofs.Common.{rules};
ghost use Rattle.sj_names.specs.Grammar.{is_plain_name, is_local_name};
ghost use Rattle.sj_names.specs.Names.{IsInnerName};

use crate::naming::is_plain_name;
use crate::{NameError, NoMemory, Text};
use std::alloc::Global;
use std::cmp::Ordering;
use std::fmt;
use std::hash::{Hash, Hasher};
use std::marker::Model;

/// The name of a local variable or a parameter.
#[derive(Drop)]
pub struct LocalName {
    text: Text,
}

impl Model for LocalName {
    ghost use Rattle.std.specs.Prelude.{List, ℕ, IsTrue};
    ghost use Rattle.sj_names.specs.Grammar.{is_local_name};

    ghost Value = { List ℕ };

    ghost view = { λ n. n.text };

    ghost invariant = { λ n. IsTrue (is_local_name n.text) };
}

impl LocalName {
    /// The name as a text.
    pub fn text(&self) -> &str
        ensures text { result.now ≡ self.now }
        ensures name { IsTrue (is_local_name self.now) }
    {
        self.text.as_str()
    }

    /// The name that `text` is, which is known to be one.
    #[tactic(auto, using(crate::proofs::Locals::plain_names))]
    pub fn of_text(text: Text) -> LocalName
        requires { IsTrue (is_plain_name text) }
        ensures { result ≡ text }
    {
        LocalName { text }
    }

    /// The same name once more, which shares the bytes.
    pub fn copied(&self) -> Result<LocalName, NoMemory>
        ensures { IfOk result (λ n. n ≡ self.now) }
    {
        let text = self.text.copied()?;
        Ok(LocalName { text })
    }

    /// Whether both names have the same text.
    pub fn is_same(&self, other: &LocalName) -> bool
        ensures value { result ≡ pointwise nat_eq self.now other.now }
        ensures same { IsTrue result ↔ (self.now ≡ other.now) }
    {
        self.text() == other.text()
    }

    /// The name that `text` spells; `BadName` exactly where it is no such name.
    #[tactic(auto, using(crate::proofs::Locals::plain_names))]
    pub fn parse(alloc: Global, text: &str) -> Result<LocalName, NameError>
        ensures found { IfOk result (λ n. (n ≡ text.now) × IsTrue (is_plain_name text.now)) }
        ensures bad { result ≡ Err NameError.BadName ↔ (is_plain_name text.now ≡ false) }
    {
        if !is_plain_name(text) {
            return Err(NameError::BadName);
        }
        let text = Text::from_str(alloc, text)?;
        Ok(LocalName { text })
    }

    /// The name that the inliner makes of another: that name, `/` or `//`, and a number in decimal.
    #[tactic(auto, using(crate::proofs::NameGrammar::inner_names))]
    pub fn inner(alloc: Global, text: &str) -> Result<LocalName, NoMemory>
        requires { IsInnerName text.now }
        ensures { IfOk result (λ n. n ≡ text.now) }
    {
        let text = Text::from_str(alloc, text)?;
        Ok(LocalName { text })
    }
}

impl PartialEq for LocalName {
    ghost eq = { pointwise nat_eq };

    ghost laws = { partial_equiv_from_equiv nat_list_eq_equiv };

    fn eq(&self, other: &LocalName) -> bool {
        self.text() == other.text()
    }
}

impl Eq for LocalName {
    ghost laws = { nat_list_eq_equiv };
}

impl PartialOrd for LocalName {
    ghost partial_cmp = { λ x y. Some (slice_cmp nat_cmp x y) };

    ghost laws = { texts_po };

    fn partial_cmp(&self, other: &LocalName) -> Option<Ordering> {
        Some(self.cmp(other))
    }
}

impl Ord for LocalName {
    ghost cmp = { slice_cmp nat_cmp };

    ghost total = { nat_list_cmp_total };

    ghost matches_partial_cmp = { λ x y. refl };

    ghost matches_eq = { texts_ties };

    fn cmp(&self, other: &LocalName) -> Ordering {
        self.text().cmp(other.text())
    }
}

impl Hash for LocalName {
    ghost hash_input = { fed.str };

    ghost respects_eq = { Prim.search (hashing, rules) };

    fn hash<H: Hasher>(&self, state: &mut H) {
        self.text().hash(state);
    }
}

impl fmt::Debug for LocalName {
    fn fmt<W: fmt::Write>(&self, f: &mut fmt::Formatter<W>) -> fmt::Result {
        fmt::Debug::fmt(&self.text(), f)
    }
}

impl fmt::Display for LocalName {
    ghost output = { λ text. Some text };

    fn fmt<W: fmt::Write>(&self, f: &mut fmt::Formatter<W>) -> fmt::Result {
        fmt::Display::fmt(&self.text(), f)
    }
}

/// The name of a label.
#[derive(Drop)]
pub struct LabelName {
    text: Text,
}

impl Model for LabelName {
    ghost use Rattle.std.specs.Prelude.{List, ℕ, IsTrue};
    ghost use Rattle.sj_names.specs.Grammar.{is_local_name};

    ghost Value = { List ℕ };

    ghost view = { λ n. n.text };

    ghost invariant = { λ n. IsTrue (is_local_name n.text) };
}

impl LabelName {
    /// The name as a text.
    pub fn text(&self) -> &str
        ensures text { result.now ≡ self.now }
        ensures name { IsTrue (is_local_name self.now) }
    {
        self.text.as_str()
    }

    /// The name that `text` is, which is known to be one.
    #[tactic(auto, using(crate::proofs::Locals::plain_names))]
    pub fn of_text(text: Text) -> LabelName
        requires { IsTrue (is_plain_name text) }
        ensures { result ≡ text }
    {
        LabelName { text }
    }

    /// The same name once more, which shares the bytes.
    pub fn copied(&self) -> Result<LabelName, NoMemory>
        ensures { IfOk result (λ n. n ≡ self.now) }
    {
        let text = self.text.copied()?;
        Ok(LabelName { text })
    }

    /// Whether both names have the same text.
    pub fn is_same(&self, other: &LabelName) -> bool
        ensures value { result ≡ pointwise nat_eq self.now other.now }
        ensures same { IsTrue result ↔ (self.now ≡ other.now) }
    {
        self.text() == other.text()
    }

    /// The name that `text` spells; `BadName` exactly where it is no such name.
    #[tactic(auto, using(crate::proofs::Locals::plain_names))]
    pub fn parse(alloc: Global, text: &str) -> Result<LabelName, NameError>
        ensures found { IfOk result (λ n. (n ≡ text.now) × IsTrue (is_plain_name text.now)) }
        ensures bad { result ≡ Err NameError.BadName ↔ (is_plain_name text.now ≡ false) }
    {
        if !is_plain_name(text) {
            return Err(NameError::BadName);
        }
        let text = Text::from_str(alloc, text)?;
        Ok(LabelName { text })
    }

    /// The name that the inliner makes of another: that name, `/` or `//`, and a number in decimal.
    #[tactic(auto, using(crate::proofs::NameGrammar::inner_names))]
    pub fn inner(alloc: Global, text: &str) -> Result<LabelName, NoMemory>
        requires { IsInnerName text.now }
        ensures { IfOk result (λ n. n ≡ text.now) }
    {
        let text = Text::from_str(alloc, text)?;
        Ok(LabelName { text })
    }
}

impl PartialEq for LabelName {
    ghost eq = { pointwise nat_eq };

    ghost laws = { partial_equiv_from_equiv nat_list_eq_equiv };

    fn eq(&self, other: &LabelName) -> bool {
        self.text() == other.text()
    }
}

impl Eq for LabelName {
    ghost laws = { nat_list_eq_equiv };
}

impl PartialOrd for LabelName {
    ghost partial_cmp = { λ x y. Some (slice_cmp nat_cmp x y) };

    ghost laws = { texts_po };

    fn partial_cmp(&self, other: &LabelName) -> Option<Ordering> {
        Some(self.cmp(other))
    }
}

impl Ord for LabelName {
    ghost cmp = { slice_cmp nat_cmp };

    ghost total = { nat_list_cmp_total };

    ghost matches_partial_cmp = { λ x y. refl };

    ghost matches_eq = { texts_ties };

    fn cmp(&self, other: &LabelName) -> Ordering {
        self.text().cmp(other.text())
    }
}

impl Hash for LabelName {
    ghost hash_input = { fed.str };

    ghost respects_eq = { Prim.search (hashing, rules) };

    fn hash<H: Hasher>(&self, state: &mut H) {
        self.text().hash(state);
    }
}

impl fmt::Debug for LabelName {
    fn fmt<W: fmt::Write>(&self, f: &mut fmt::Formatter<W>) -> fmt::Result {
        fmt::Debug::fmt(&self.text(), f)
    }
}

impl fmt::Display for LabelName {
    ghost output = { λ text. Some text };

    fn fmt<W: fmt::Write>(&self, f: &mut fmt::Formatter<W>) -> fmt::Result {
        fmt::Display::fmt(&self.text(), f)
    }
}
