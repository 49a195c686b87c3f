// The tests of names.
ghost use Rattle.std.specs.Prelude.{◌≡◌};
ghost use Rattle.std.specs.List.{list_all};
ghost use Rattle.sj_names.specs.Grammar as grammar;

const INIT: &str = "<init>";

// Whether `byte` may stand in a simple name.
fn is_name_byte(byte: u8) -> bool
    ensures { result ≡ grammar.is_name_byte byte }
{
    byte > 32
        && byte != 127
        && byte != b'.'
        && byte != b';'
        && byte != b'['
        && byte != b'/'
        && byte != b'<'
        && byte != b'>'
}

// Whether `text` is one or more bytes of a simple name.
pub fn is_plain_name(text: &str) -> bool
    ensures { result ≡ grammar.is_plain_name text.now }
{
    !text.is_empty() && are_name_bytes(text.as_bytes())
}

// Whether each of `bytes` may stand in a simple name.
fn are_name_bytes(bytes: &[u8]) -> bool
    ensures { result ≡ list_all grammar.is_name_byte bytes.now }
{
    bytes.iter().all(|byte| is_name_byte(*byte))
}

// Whether `text` is a plain name or `<init>`.
pub fn is_simple_name(text: &str) -> bool
    ensures { result ≡ grammar.is_simple_name text.now }
{
    is_plain_name(text) || text == INIT
}

// Whether `text` is one or more plain names joined by dots.
pub fn is_class_name(text: &str) -> bool
    ensures { result ≡ grammar.is_class_name text.now }
{
    let mut begun = false;
    for byte in text.as_bytes() {
        if *byte == b'.' {
            if !begun {
                return false;
            }
            begun = false;
        } else {
            if !is_name_byte(*byte) {
                return false;
            }
            begun = true;
        }
    }
    begun
}
