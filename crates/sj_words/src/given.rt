// What the words behind `link` give.
ghost use Rattle.std.specs.Prelude.{◌≡◌, ◌++◌, ◌∷◌, [], IfOk, OnOk, map, option_map, string_bytes};
ghost use Rattle.sj_words.specs.Given.{no_gifts, given};
ghost use Rattle.sj_words.specs.Collected.{gifts_in, then_setting};

use crate::Style;
use crate::kinds::{Setting, WordKind, kind, with_value};
use sj_names::{NoMemory, Text};
use std::alloc::Global;

/// The values of each option and the operands, each in order.
#[derive(Drop)]
pub struct Collected {
    pub styles: Vec<Style>,
    pub switches: Vec<bool>,
    pub operands: Vec<Text>,
}

impl Collected {
    /// Nothing yet.
    pub fn new(alloc: Global) -> Collected
        ensures { gifts_in result ≡ no_gifts }
    {
        Collected {
            styles: Vec::new(alloc),
            switches: Vec::new(alloc),
            operands: Vec::new(alloc),
        }
    }

    fn add_setting(&mut self, setting: Setting) -> Result<(), NoMemory>
        ensures { OnOk result (gifts_in self.new ≡ then_setting (gifts_in self.old) setting) }
    {
        match setting {
            Setting::Split(style) => self.styles.push(style)?,
            Setting::Optimize(switch) => self.switches.push(switch)?,
        }
        Ok(())
    }

    fn add_operand(&mut self, alloc: Global, word: &str) -> Result<(), NoMemory>
        ensures { OnOk result (gifts_in self.new ≡ record (gifts_in self.old) { operands = (gifts_in self.old).operands ++ word.now ∷ [] }) }
    {
        self.operands.push(Text::from_str(alloc, word)?)?;
        Ok(())
    }

    /// Adds each word as an operand.
    pub fn add_operands(&mut self, alloc: Global, words: &[String]) -> Result<(), NoMemory>
        ensures { OnOk result (gifts_in self.new ≡ record (gifts_in self.old) { operands = (gifts_in self.old).operands ++ map string_bytes words.now }) }
    {
        for word in words {
            self.add_operand(alloc, word.as_str())?;
        }
        Ok(())
    }
}

/// What the words give, if they are in the grammar: up to the first `--` each word is an option, with its value or in front of it,
/// or an operand; behind it each is an operand.
pub fn given(alloc: Global, words: &[String]) -> Result<Option<Collected>, NoMemory>
    ensures { IfOk result (λ g. option_map gifts_in g ≡ given (map string_bytes words.now)) }
{
    let mut collected = Collected::new(alloc);
    let mut rest = words;
    while let Some((word, behind)) = rest.split_first() {
        match kind(word.as_str()) {
            WordKind::End => {
                collected.add_operands(alloc, behind)?;
                return Ok(Some(collected));
            }
            WordKind::Operand => {
                collected.add_operand(alloc, word.as_str())?;
                rest = behind;
            }
            WordKind::Whole(setting) => {
                collected.add_setting(setting)?;
                rest = behind;
            }
            WordKind::Name(choice) => {
                let Some((value, behind)) = behind.split_first() else {
                    return Ok(None);
                };
                let Some(setting) = with_value(choice, value.as_str()) else {
                    return Ok(None);
                };
                collected.add_setting(setting)?;
                rest = behind;
            }
            WordKind::Unknown => return Ok(None),
        }
    }
    Ok(Some(collected))
}
