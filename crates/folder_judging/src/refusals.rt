// How what a stage finds is told.
ghost use Rattle.std.specs.Prelude.{◌≡◌, ◌++◌, IfOk, codes, decimal};
ghost use Rattle.folder_judging.specs.Refusals.{IsAt, IsMadeAt};

use crate::JudgeError;
use sj_names::{NoMemory, Text};
use sj_reach::Report;
use std::alloc::Global;

/// The refusal with this code at a class or a file.
pub fn refusal_at(alloc: Global, code: u8, name: &str) -> JudgeError
    ensures { IsAt code name.now result }
{
    refused(code, Text::from_str(alloc, name))
}

/// The refusal with this code for a rule that isn't kept: where it isn't, and behind it the rule.
pub fn refusal_by_rule(alloc: Global, code: u8, found: &Report) -> JudgeError
    ensures { IsAt code (found.now.place ++ codes " " ++ decimal found.now.code) result }
{
    refused(
        code,
        text_with_rule(alloc, found.place.as_str(), found.code),
    )
}

/// The refusal with this code at an offset of a file.
pub fn refusal_in_file(alloc: Global, code: u8, path: &str, offset: u64) -> JudgeError
    ensures { IsAt code (path.now ++ codes ":" ++ decimal offset) result }
{
    refused(code, text_with_offset(alloc, path, offset))
}

fn text_with_rule(alloc: Global, place: &str, rule: u8) -> Result<Text, NoMemory>
    ensures { IfOk result (λ t. t ≡ place.now ++ codes " " ++ decimal rule) }
{
    Text::from_string(format!(in alloc; "{place} {rule}")?)
}

fn text_with_offset(alloc: Global, path: &str, offset: u64) -> Result<Text, NoMemory>
    ensures { IfOk result (λ t. t ≡ path.now ++ codes ":" ++ decimal offset) }
{
    Text::from_string(format!(in alloc; "{path}:{offset}")?)
}

fn refused(code: u8, place: Result<Text, NoMemory>) -> JudgeError
    ensures { IsMadeAt code place result }
{
    match place {
        Ok(place) => JudgeError::Refused { code, place },
        Err(_) => JudgeError::NoMemory,
    }
}
