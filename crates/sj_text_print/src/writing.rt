// What puts words and numbers behind the bytes that are there.
ghost use Rattle.std.specs.Prelude.{◌≡◌, OnOk, codes};
ghost use Rattle.js_tree.specs.Written.{put, ◌▸◌};
ghost use Rattle.sj_text_spec.specs.Texts.{put_integer, put_mark};

use sj_names::NoMemory;
use text_print::{append, append_decimal};

/// Appends a number with `-` in front where it is negative.
pub(crate) fn append_integer(out: &mut Vec<u8>, integer: i64) -> Result<(), NoMemory>
    ensures { OnOk result (out.new.items ≡ put_integer integer out.old.items) }
{
    if integer < 0 {
        append(out, "-")?;
    }
    append_decimal(out, integer.unsigned_abs())
}

/// Appends the mark 1 or 0.
pub(crate) fn append_mark(out: &mut Vec<u8>, mark: bool) -> Result<(), NoMemory>
    ensures { OnOk result (out.new.items ≡ put_mark mark out.old.items) }
{
    append(out, if mark { "1" } else { "0" })
}

/// Appends `(` and a word.
pub(crate) fn open(out: &mut Vec<u8>, word: &str) -> Result<(), NoMemory>
    ensures { OnOk result (out.new.items ≡ (put (codes "(") ▸ put word.now) out.old.items) }
{
    append(out, "(")?;
    append(out, word)
}
