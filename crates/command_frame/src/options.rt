ghost use Rattle.std.specs.Prelude.{◌≡◌, [], get_or, length, map, nat_le, slice_get};
ghost use Rattle.std.specs.Option.{option_copied};
ghost use Rattle.std.specs.String.{string_bytes};
ghost use Rattle.command_frame.specs.Options.{
  is_file_word,
  has_value,
  value_in,
  values_of,
  value_given,
  has_flag,
  is_word_of,
  are_words_of,
  is_file_at,
  file_places,
  only_two,
  file_place,
  is_same_at,
  number_given,
};

use crate::numbers::number_within;

/// Whether words are those of a command: each names a file or is one of the options, and no option stands twice.
///
/// An option is told by how it begins: a flag as `--hex`, and an option with a value as `--chunk=`.
pub fn are_words_of(options: &[&str], words: &[String]) -> bool
    ensures { result ≡ are_words_of (map (λ option. option.now) options.now) (map string_bytes words.now) }
{
    words.iter().all(|word| is_word_of(options, word.as_str()))
        && options
            .iter()
            .all(|option| stands_once_at_most(option, words))
}

fn is_word_of(options: &[&str], word: &str) -> bool
    ensures { result ≡ is_word_of (map (λ option. option.now) options.now) word.now }
{
    is_file(word)
        || options
            .iter()
            .any(|option| value_in(option, word).is_some())
}

/// Whether a word names a file: it isn't empty and doesn't begin with a dash.
pub(crate) fn is_file(word: &str) -> bool
    ensures { result ≡ is_file_word word.now }
{
    !word.is_empty() && word.as_bytes()[0] != b'-'
}

fn stands_once_at_most(option: &str, words: &[String]) -> bool
    ensures { result ≡ nat_le (length (values_of option.now (map string_bytes words.now))) 1 }
{
    words
        .iter()
        .filter(|word| value_in(option, word.as_str()).is_some())
        .count()
        <= 1
}

/// The option's value, where it stands among the words. A flag's is empty.
pub fn value_given<'a>(option: &str, words: &'a [String]) -> Option<&'a str>
    ensures { option_copied result ≡ value_given option.now (map string_bytes words.now) }
{
    for word in words {
        if let Some(value) = value_in(option, word.as_str()) {
            return Some(value);
        }
    }
    None
}

/// The value that a word gives an option, and None for a word that isn't this option.
fn value_in<'a>(option: &str, word: &'a str) -> Option<&'a str>
    ensures { option_copied result ≡ value_in option.now word.now }
{
    let value = word.strip_prefix(option)?;
    (has_value(option) || value.is_empty()).then_some(value)
}

fn has_value(option: &str) -> bool
    ensures { result ≡ has_value option.now }
{
    option.ends_with('=')
}

/// Whether a flag stands among the words.
pub fn has_flag(flag: &str, words: &[String]) -> bool
    ensures { result ≡ has_flag flag.now (map string_bytes words.now) }
{
    value_given(flag, words).is_some()
}

/// The number that an option has, if it stands among the words, and None where it isn't one from `least` to `most`.
pub fn number_given(option: &str, words: &[String], least: u64, most: u64) -> Option<Option<u64>>
    ensures { result ≡ number_given option.now least most (map string_bytes words.now) }
{
    match value_given(option, words) {
        Some(value) => number_within(value, least, most).map(Some),
        None => Some(None),
    }
}

/// The place of the file among the words, where these are of a command that has these options and one file.
pub fn file_place(options: &[&str], words: &[String]) -> Option<usize>
    ensures { result ≡ file_place (map (λ option. option.now) options.now) (map string_bytes words.now) }
{
    if !are_words_of(options, words) {
        return None;
    }
    let file = nth_file(words, 0)?;
    nth_file(words, 1).is_none().then_some(file)
}

/// The places of the files among the words, where there are just two.
pub fn two_files(words: &[String]) -> Option<(usize, usize)>
    ensures { result ≡ only_two (file_places (map string_bytes words.now)) }
{
    let first = nth_file(words, 0)?;
    let second = nth_file(words, 1)?;
    nth_file(words, 2).is_none().then_some((first, second))
}

/// Whether the words at two places are the same.
pub fn is_same_at(words: &[String], place: usize, other: usize) -> bool
    ensures { result ≡ is_same_at (map string_bytes words.now) place other }
{
    word_at(words, place) == word_at(words, other)
}

/// The word at this place, or an empty one.
fn word_at(words: &[String], place: usize) -> &str
    ensures { result.now ≡ get_or (map string_bytes words.now) place [] }
{
    match words.get(place) {
        Some(word) => word.as_str(),
        None => "",
    }
}

fn nth_file(words: &[String], n: usize) -> Option<usize>
    ensures { result ≡ slice_get (file_places (map string_bytes words.now)) n }
{
    (1..words.len())
        .filter(|place| is_file_at(words, *place))
        .nth(n)
}

fn is_file_at(words: &[String], place: usize) -> bool
    ensures { result ≡ is_file_at (map string_bytes words.now) place }
{
    words.get(place).is_some_and(|word| is_file(word.as_str()))
}
