// Names mangled byte by byte.
ghost use Rattle.std.specs.Prelude.{◌≡◌, ◌++◌, ◌∷◌, [], ◌<◌, IfOk, OnOk, string_bytes};
ghost use Rattle.std.specs.Char.{digit_char};
ghost use Rattle.sj_names.specs.MethodNames.{spelled_method};
ghost use Rattle.sj_mangling.specs.Mangling as mangling;

use sj_names::{ClassName, MethodName, NoMemory};
use std::alloc::Global;

/// `text` mangled: ASCII letters and digits stay, `.` becomes `_`, `;` becomes `$$`, and every other byte `$` and two
/// lower-case hexadecimal digits.
pub fn mangle(alloc: Global, text: &str) -> Result<Vec<u8>, NoMemory>
    ensures { IfOk result (λ bytes. bytes.items ≡ mangling.mangled text.now) }
{
    let mut name = String::new(alloc);
    push_mangled(&mut name, text)?;
    Ok(name.into_bytes())
}

/// The name of a class, mangled.
pub fn mangle_class(alloc: Global, class: &ClassName) -> Result<Vec<u8>, NoMemory>
    ensures { IfOk result (λ bytes. bytes.items ≡ mangling.mangled class.now) }
{
    mangle(alloc, class.text())
}

/// The spelling of a method name, mangled.
pub fn mangle_method(alloc: Global, method: &MethodName) -> Result<Vec<u8>, NoMemory>
    ensures { IfOk result (λ bytes. bytes.items ≡ mangling.mangled (spelled_method method.now)) }
{
    let spelled = method.spelled(alloc)?;
    mangle(alloc, spelled.as_str())
}

// Writes `text`, mangled, behind `name`.
pub(crate) fn push_mangled(name: &mut String, text: &str) -> Result<(), NoMemory>
    ensures { OnOk result (string_bytes name.new ≡ string_bytes name.old ++ mangling.mangled text.now) }
{
    for byte in text.as_bytes() {
        push_mangled_byte(name, *byte)?;
    }
    Ok(())
}

// Writes a byte of a name, mangled, behind `name`.
fn push_mangled_byte(name: &mut String, byte: u8) -> Result<(), NoMemory>
    ensures { OnOk result (string_bytes name.new ≡ string_bytes name.old ++ mangling.mangled_byte byte) }
{
    if is_alphanumeric(byte) {
        push_ascii(name, byte)
    } else if byte == b'.' {
        push(name, "_")
    } else if byte == b';' {
        push(name, "$$")
    } else {
        push(name, "$")?;
        push_ascii(name, hexadecimal_digit(byte / 16))?;
        push_ascii(name, hexadecimal_digit(byte % 16))
    }
}

// Writes `part` behind `name`.
pub(crate) fn push(name: &mut String, part: &str) -> Result<(), NoMemory>
    ensures { OnOk result (string_bytes name.new ≡ string_bytes name.old ++ part.now) }
{
    name.push_str(part)?;
    Ok(())
}

// Writes an ASCII character behind `name`.
fn push_ascii(name: &mut String, byte: u8) -> Result<(), NoMemory>
    requires { byte < 128 }
    ensures { OnOk result (string_bytes name.new ≡ string_bytes name.old ++ byte ∷ []) }
{
    name.push(char::from(byte))?;
    Ok(())
}

fn is_alphanumeric(byte: u8) -> bool
    ensures { result ≡ mangling.is_alphanumeric byte }
{
    byte >= b'0' && byte <= b'9' || byte >= b'A' && byte <= b'Z' || byte >= b'a' && byte <= b'z'
}

fn hexadecimal_digit(number: u8) -> u8
    requires { number < 16 }
    ensures digit { result ≡ digit_char number }
    ensures ascii { result < 128 }
{
    if number < 10 {
        b'0' + number
    } else {
        b'a' + (number - 10)
    }
}
