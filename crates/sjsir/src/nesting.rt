// How deep the parentheses of a text stand one in another.
ghost use Rattle.std.specs.Prelude.{◌≡◌, ◌≤◌};
ghost use Rattle.sjsir.specs.Nesting as nesting;

// How many parentheses may be open in a listing that is read. The trees of a class file stand at most 200 deep, and each takes two
// parentheses at most.
const MOST_OPEN: u64 = 600;

// Where a text has come to.
#[derive(Clone, Copy)]
pub enum Spot {
    Outside,
    // In a literal.
    Literal,
    // Behind a backslash in a literal.
    Escape,
}

/// Whether more than 600 parentheses stand one in another outside of the literals of the text.
pub fn is_deep(text: &[u8]) -> bool
    ensures { result ≡ nesting.is_deep text.now }
{
    let mut spot = Spot::Outside;
    let mut opened = 0;
    for byte in text {
        opened = open_behind(spot, opened, *byte);
        if opened > MOST_OPEN {
            return true;
        }
        spot = behind(spot, *byte);
    }
    false
}

// Where a text stands behind one byte more.
fn behind(spot: Spot, byte: u8) -> Spot
    ensures { result ≡ nesting.behind spot byte }
{
    match (spot, byte) {
        (Spot::Outside, b'"') => Spot::Literal,
        (Spot::Outside, _) => Spot::Outside,
        (Spot::Literal, b'"') => Spot::Outside,
        (Spot::Literal, b'\\') => Spot::Escape,
        (Spot::Literal, _) => Spot::Literal,
        (Spot::Escape, _) => Spot::Literal,
    }
}

// How many parentheses are open behind one byte more.
fn open_behind(spot: Spot, opened: u64, byte: u8) -> u64
    requires { opened ≤ 600 }
    ensures { result ≡ nesting.open_behind spot opened byte }
{
    match (spot, byte) {
        (Spot::Outside, b'(') => opened + 1,
        (Spot::Outside, b')') => opened.saturating_sub(1),
        _ => opened,
    }
}
