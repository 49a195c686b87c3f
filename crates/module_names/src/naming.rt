// The names of internal modules.
ghost use Rattle.std.specs.Prelude.{◌≡◌, IfOk};
ghost use Rattle.module_names.specs.Names.{sha1_digest, internal_name, names_of};
ghost use Rattle.sj_mangling.specs.Numerals.{number_text};

use crate::counts::Counts;
use sha1::Sha1;
use sj_names::{NoMemory, Text};
use std::alloc::Global;

const INTERNAL: &str = "internal-";

/// The names of the internal modules with these keys, in the order of the keys: `internal-` and the SHA-1 of the key (FIPS 180-4)
/// in lower-case hexadecimal. Where keys share a digest, the second of them adds `-1`, the third `-2`, and so on.
pub fn internal_names(alloc: Global, keys: &[Text]) -> Result<Vec<Text>, NoMemory>
    ensures { IfOk result (λ names. names.items ≡ names_of sha1_digest keys.now) }
{
    let mut counts = Counts::new(alloc);
    let mut names = Vec::new(alloc);
    for key in keys {
        let digest = digest(alloc, key)?;
        let earlier = counts.add(&digest)?;
        names.push(name(alloc, &digest, earlier)?)?;
    }
    Ok(names)
}

fn digest(alloc: Global, key: &Text) -> Result<Text, NoMemory>
    ensures { IfOk result (λ digest. digest ≡ sha1_digest key.now) }
{
    let bytes = Sha1::digest(key.as_str().as_bytes());
    let digits = hex::encode(alloc, bytes.as_slice())?;
    Ok(Text::from_string(digits)?)
}

// The name of a module whose key has this digest, as so many keys before it do.
fn name(alloc: Global, digest: &Text, earlier: usize) -> Result<Text, NoMemory>
    ensures { IfOk result (λ name. name ≡ internal_name digest.now earlier) }
{
    let mut name = String::from_str(alloc, INTERNAL)?;
    name.push_str(digest.as_str())?;
    if earlier > 0 {
        name.push_str("-")?;
        let number = numeral(alloc, earlier)?;
        name.push_str(number.as_str())?;
    }
    Ok(Text::from_string(name)?)
}

fn numeral(alloc: Global, number: usize) -> Result<Text, NoMemory>
    ensures { IfOk result (λ text. text ≡ number_text number) }
{
    let text = format!(in alloc; "{number}")?;
    Ok(Text::from_string(text)?)
}
