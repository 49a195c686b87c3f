// The table of names: each entry is judged once, and is named at no cost.
ghost use Rattle.std.specs.Prelude.{◌≡◌, IfOk, Some, None, if◌then◌else◌};
ghost use Rattle.sj_names.specs.Grammar.{is_class_name, is_plain_name, is_simple_name};

use sj_names::{
    ClassName, FieldName, LabelName, LocalName, NoMemory, SimpleName, Text, is_class_name,
    is_plain_name, is_simple_name,
};
use std::marker::Model;

/// An entry of the table of names, with the grammars that it meets.
#[derive(Drop)]
pub struct NameEntry {
    text: Text,
    is_class: bool,
    is_simple: bool,
    is_plain: bool,
}

impl Model for NameEntry {
    ghost use Rattle.std.specs.Prelude.{◌≡◌, List, ℕ};
    ghost use Rattle.sj_names.specs.Grammar.{is_class_name, is_plain_name, is_simple_name};

    ghost Value = { List ℕ };

    ghost view = { λ e. e.text };

    ghost invariant = { λ e. (e.is_class ≡ is_class_name e.text) × (e.is_simple ≡ is_simple_name e.text) × (e.is_plain ≡ is_plain_name e.text) };
}

impl NameEntry {
    /// The entry of this text.
    pub fn new(text: Text) -> NameEntry
        ensures { result ≡ text }
    {
        let is_class = is_class_name(text.as_str());
        let is_simple = is_simple_name(text.as_str());
        let is_plain = is_plain_name(text.as_str());
        NameEntry {
            text,
            is_class,
            is_simple,
            is_plain,
        }
    }

    /// The entry as the name of a class, where it is one.
    pub fn class_name(&self) -> Result<Option<ClassName>, NoMemory>
        ensures { IfOk result (λ o. o ≡ (if is_class_name self.now then Some self.now else None)) }
    {
        if !self.is_class {
            return Ok(None);
        }
        Ok(Some(ClassName::of_text(self.text.copied()?)))
    }

    /// The entry as a simple name, where it is one.
    pub fn simple_name(&self) -> Result<Option<SimpleName>, NoMemory>
        ensures { IfOk result (λ o. o ≡ (if is_simple_name self.now then Some self.now else None)) }
    {
        if !self.is_simple {
            return Ok(None);
        }
        Ok(Some(SimpleName::of_text(self.text.copied()?)))
    }

    /// The entry as the name of a field, where it is one.
    pub fn field_name(&self) -> Result<Option<FieldName>, NoMemory>
        ensures { IfOk result (λ o. o ≡ (if is_plain_name self.now then Some self.now else None)) }
    {
        if !self.is_plain {
            return Ok(None);
        }
        Ok(Some(FieldName::of_text(self.text.copied()?)))
    }

    /// The entry as the name of a local variable, where it is one.
    pub fn local_name(&self) -> Result<Option<LocalName>, NoMemory>
        ensures { IfOk result (λ o. o ≡ (if is_plain_name self.now then Some self.now else None)) }
    {
        if !self.is_plain {
            return Ok(None);
        }
        Ok(Some(LocalName::of_text(self.text.copied()?)))
    }

    /// The entry as the name of a label, where it is one.
    pub fn label_name(&self) -> Result<Option<LabelName>, NoMemory>
        ensures { IfOk result (λ o. o ≡ (if is_plain_name self.now then Some self.now else None)) }
    {
        if !self.is_plain {
            return Ok(None);
        }
        Ok(Some(LabelName::of_text(self.text.copied()?)))
    }
}
