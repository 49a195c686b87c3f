//! The names of files.
ghost use Rattle.std.specs.Prelude.{◌≡◌, IfOk, true};
ghost use Rattle.std.specs.List.{list_all};
ghost use Rattle.js_tree.specs.Names.{is_file_character};
ghost use Rattle.text_scan.specs.Gives.{Gives};
ghost use Rattle.js_read_spec.specs.Modules as reading;

use crate::names::{file_text, has_nothing, split_file};
use sj_names::Text;
use std::alloc::Global;
use text_scan::{Stop, literal};

// The characters of a file's name before `.js`.
#[tactic(auto, using(crate::proofs::FileSteps::file_steps))]
fn file_front_of(bytes: &[u8]) -> Result<(&[u8], &[u8]), Stop>
    ensures gives { Gives (λ x. (x.0.now, x.1.now)) result (reading.file_front_at bytes.now) }
    ensures characters { IfOk result (λ x. list_all is_file_character x.0.now ≡ true) }
{
    let (front, rest) = split_file(bytes);
    if has_nothing(front) {
        Err(Stop::Bad(rest.len()))
    } else {
        Ok((front, rest))
    }
}

/// The name of a file.
#[tactic(auto, unfolding(js_read_spec::specs::Modules::file_at))]
pub fn file_of<'a>(alloc: Global, bytes: &'a [u8]) -> Result<(Text, &'a [u8]), Stop>
    ensures { Gives (λ x. (x.0, x.1.now)) result (reading.file_at bytes.now) }
{
    let (front, rest) = file_front_of(bytes)?;
    let rest = literal(b".js", rest)?;
    Ok((file_text(alloc, front)?, rest))
}
