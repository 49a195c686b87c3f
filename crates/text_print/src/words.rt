//! Words and numbers behind the bytes that are there.
ghost use Rattle.std.specs.Prelude.{◌≡◌, OnOk, decimal};
ghost use Rattle.js_tree.specs.Written.{put};

use itoa::Buffer;
use sj_names::NoMemory;

/// Appends a text.
#[tactic(auto, unfolding(js_tree::specs::Written::put))]
pub fn append(out: &mut Vec<u8>, text: &str) -> Result<(), NoMemory>
    ensures { OnOk result (out.new.items ≡ put text.now out.old.items) }
{
    out.extend_from_slice(text.as_bytes())?;
    Ok(())
}

/// Appends the digits of a number.
pub fn append_decimal(out: &mut Vec<u8>, number: u64) -> Result<(), NoMemory>
    ensures { OnOk result (out.new.items ≡ put (decimal number) out.old.items) }
{
    let mut buffer = Buffer::new();
    append(out, buffer.format(number))
}
