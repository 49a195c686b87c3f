// One entry point of a link.
ghost use Rattle.std.specs.Prelude.{◌≡◌, IfOk, codes, nat_eq};
ghost use Rattle.std.specs.List.{list_all, starts_with};
ghost use Rattle.sj_names.specs.EntryPoints as entry_points;

use crate::{ClassName, NoMemory, SimpleName, Text};

const INIT: &str = "<init>";

const INTERNAL: &str = "internal-";

/// An initializer of a public module: the static method `method;V` of `class`.
#[derive(Drop, PartialEq, Eq, PartialOrd, Ord, Hash)]
pub struct EntryPoint {
    pub module: Text,
    pub class: ClassName,
    pub method: SimpleName,
}

impl EntryPoint {
    /// Whether a link may have this entry: the module's name is a public id, and the method isn't `<init>`.
    pub fn is_valid(&self) -> bool
        ensures { result ≡ entry_points.is_entry self.now }
    {
        is_public_id(self.module.as_str()) && self.method.text() != INIT
    }

    /// The same entry once more.
    pub fn copied(&self) -> Result<EntryPoint, NoMemory>
        ensures { IfOk result (λ e. e ≡ self.now) }
    {
        Ok(EntryPoint {
            module: self.module.copied()?,
            class: self.class.copied()?,
            method: self.method.copied()?,
        })
    }
}

/// Whether `text` is the id of a public module: 1 to 64 of `a` to `z`, `0` to `9` and `-`, with a letter in front, and not
/// `internal-`.
pub fn is_public_id(text: &str) -> bool
    ensures { result ≡ entry_points.is_public_id text.now }
{
    !text.is_empty()
        && text.len() <= 64
        && are_id_bytes(text.as_bytes())
        && is_letter(text.as_bytes()[0])
        && !is_internal(text.as_bytes())
}

fn are_id_bytes(bytes: &[u8]) -> bool
    ensures { result ≡ list_all entry_points.is_id_byte bytes.now }
{
    bytes.iter().all(|byte| is_id_byte(*byte))
}

fn is_id_byte(byte: u8) -> bool
    ensures { result ≡ entry_points.is_id_byte byte }
{
    is_letter(byte) || byte >= b'0' && byte <= b'9' || byte == b'-'
}

fn is_letter(byte: u8) -> bool
    ensures { result ≡ entry_points.is_letter byte }
{
    byte >= b'a' && byte <= b'z'
}

// Whether `bytes` begin as the names of internal modules do.
fn is_internal(bytes: &[u8]) -> bool
    ensures { result ≡ starts_with nat_eq bytes.now (codes "internal-") }
{
    bytes.starts_with(INTERNAL.as_bytes())
}
