ghost use Rattle.std.specs.Prelude.{◌≡◌};
ghost use Rattle.command_frame.specs.Numbers.{is_numeral, number_in, number_within};

/// The most digits of a number.
const MOST_DIGITS: usize = 20;

/// The number that a word writes, where it is within bounds.
pub(crate) fn number_within(word: &str, least: u64, most: u64) -> Option<u64>
    ensures { result ≡ number_within least most word.now }
{
    number(word).filter(|n| least <= *n && *n <= most)
}

/// The number that a word writes, where it is below 2^64.
fn number(word: &str) -> Option<u64>
    ensures { result ≡ number_in word.now }
{
    if is_numeral(word) {
        word.parse().ok()
    } else {
        None
    }
}

fn is_numeral(word: &str) -> bool
    ensures { result ≡ is_numeral word.now }
{
    !word.is_empty() && word.len() <= MOST_DIGITS && word.bytes().all(|b| b.is_ascii_digit())
}
