// The number of a `gen` command.
ghost use Rattle.std.specs.Prelude.{◌≡◌};
ghost use Rattle.std.specs.List.{list_all};
ghost use Rattle.sj_words.specs.Command.{is_digit, is_plain_numeral, number_of};

const MOST_CLASSES: u32 = 20_000;

/// The number from 1 to 20,000 that the word is in decimal digits without a leading zero.
pub fn number(word: &str) -> Option<u32>
    ensures { result ≡ number_of word.now }
{
    if !is_plain_numeral(word.as_bytes()) {
        return None;
    }
    match word.parse::<u32>() {
        Ok(number) if number <= MOST_CLASSES => Some(number),
        _ => None,
    }
}

fn is_plain_numeral(word: &[u8]) -> bool
    ensures { result ≡ is_plain_numeral word.now }
{
    match word {
        [] => false,
        [first, ..] => *first != b'0' && are_digits(word),
    }
}

fn are_digits(word: &[u8]) -> bool
    ensures { result ≡ list_all is_digit word.now }
{
    word.iter().all(|b| b'0' <= *b && *b <= b'9')
}
