// What appends numbers, texts and units.
ghost use Rattle.std.specs.Prelude.{◌≡◌, ◌++◌, ◌∷◌, [], OnOk};
ghost use Rattle.sj_canon.specs.Numbers as numbers;
ghost use Rattle.sj_canon.specs.Numbers.{long_bytes, number_bytes, signed_bytes, text_bytes, list_bytes, each_bytes, is_negative};
ghost use Rattle.sj_canon.specs.Own.{unit_bytes};

use sj_names::NoMemory;

// The least number that isn't written as one byte, and the byte in front of it.
const LONG: u8 = 255;

/// Appends one byte.
pub fn put_byte(out: &mut Vec<u8>, byte: u8) -> Result<(), NoMemory>
    ensures { OnOk result (out.new.items ≡ out.old.items ++ byte ∷ []) }
{
    out.push(byte)?;
    Ok(())
}

/// Appends bytes as they are.
pub fn put_bytes(out: &mut Vec<u8>, bytes: &[u8]) -> Result<(), NoMemory>
    ensures { OnOk result (out.new.items ≡ out.old.items ++ bytes.now) }
{
    out.extend_from_slice(bytes)?;
    Ok(())
}

/// Appends a number: one byte where it is below 255, else 255 and eight bytes, the lowest first.
#[tactic(auto, unfolding(crate::specs::Numbers::number_bytes))]
pub fn put_number(out: &mut Vec<u8>, number: u64) -> Result<(), NoMemory>
    ensures { OnOk result (out.new.items ≡ out.old.items ++ number_bytes number) }
{
    if number < 255 {
        return put_byte(out, number as u8);
    }
    put_byte(out, LONG)?;
    put_long(out, number)
}

#[tactic(auto, using(crate::proofs::Bytes::eight_bytes))]
fn put_long(out: &mut Vec<u8>, number: u64) -> Result<(), NoMemory>
    ensures { OnOk result (out.new.items ≡ out.old.items ++ long_bytes number) }
{
    put_bytes(out, &number.to_le_bytes())
}

/// Appends a number that may be negative: whether it is, and its size.
#[tactic(auto, unfolding(crate::specs::Numbers::signed_bytes))]
pub fn put_signed(out: &mut Vec<u8>, number: i64) -> Result<(), NoMemory>
    ensures { OnOk result (out.new.items ≡ out.old.items ++ signed_bytes number) }
{
    put_mark(out, is_negative(number))?;
    put_number(out, number.unsigned_abs())
}

fn is_negative(number: i64) -> bool
    ensures { result ≡ is_negative number }
{
    number < 0
}

/// Appends 1 for a mark that is set, 0 for one that isn't.
pub fn put_mark(out: &mut Vec<u8>, mark: bool) -> Result<(), NoMemory>
    ensures { OnOk result (out.new.items ≡ out.old.items ++ numbers.mark_byte mark ∷ []) }
{
    put_byte(out, if mark { 1 } else { 0 })
}

/// Appends a text: how many bytes it has, and they.
#[tactic(auto, unfolding(crate::specs::Numbers::text_bytes))]
pub fn put_text(out: &mut Vec<u8>, text: &str) -> Result<(), NoMemory>
    ensures { OnOk result (out.new.items ≡ out.old.items ++ text_bytes text.now) }
{
    put_number(out, text.len() as u64)?;
    put_bytes(out, text.as_bytes())
}

/// Appends a unit in two bytes, the lower first.
pub fn put_unit(out: &mut Vec<u8>, unit: u16) -> Result<(), NoMemory>
    ensures { OnOk result (out.new.items ≡ out.old.items ++ unit_bytes unit) }
{
    put_byte(out, (unit % 256) as u8)?;
    put_byte(out, (unit / 256) as u8)
}

/// Appends units: how many there are, and each.
pub fn put_units(out: &mut Vec<u8>, units: &[u16]) -> Result<(), NoMemory>
    ensures { OnOk result (out.new.items ≡ out.old.items ++ list_bytes unit_bytes units.now) }
{
    put_number(out, units.len() as u64)?;
    put_each_unit(out, units)
}

fn put_each_unit(out: &mut Vec<u8>, units: &[u16]) -> Result<(), NoMemory>
    ensures { OnOk result (out.new.items ≡ out.old.items ++ each_bytes unit_bytes units.now) }
{
    for unit in units {
        put_unit(out, *unit)?;
    }
    Ok(())
}

/// Appends the keys of a case: how many there are, and each.
pub fn put_keys(out: &mut Vec<u8>, keys: &[i32]) -> Result<(), NoMemory>
    ensures { OnOk result (out.new.items ≡ out.old.items ++ list_bytes signed_bytes keys.now) }
{
    put_number(out, keys.len() as u64)?;
    put_each_key(out, keys)
}

fn put_each_key(out: &mut Vec<u8>, keys: &[i32]) -> Result<(), NoMemory>
    ensures { OnOk result (out.new.items ≡ out.old.items ++ each_bytes signed_bytes keys.now) }
{
    for key in keys {
        put_signed(out, i64::from(*key))?;
    }
    Ok(())
}
