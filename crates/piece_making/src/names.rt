// Texts.
ghost use Rattle.std.specs.Prelude.{◌≡◌, IfOk};

use sj_names::{NoMemory, Text};
use std::alloc::Global;

/// This text.
pub fn text(alloc: Global, text: &str) -> Result<Text, NoMemory>
    ensures { IfOk result (λ t. t ≡ text.now) }
{
    Ok(Text::from_str(alloc, text)?)
}
