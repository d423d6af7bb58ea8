ghost use Rattle.std.specs.Prelude.{◌≡◌, map};
ghost use Rattle.std.specs.String.{string_bytes};
ghost use Rattle.command_frame.specs.Options.{files_words_of, is_read_too};

use crate::options::{are_words_of, is_same_at};

/// What the words of a command say that reads several files and makes one.
#[derive(Clone, Copy, Debug, PartialEq, Eq)]
pub struct FilesWords {
    /// How many files are read: they stand one behind another, behind the command's name.
    pub count: usize,
    /// The place of the made file among the words.
    pub to: usize,
}

/// What words say that name 1 to `most` files behind the command's name, which are read, and then the one that is made, which
/// is none of them.
#[tactic(auto, unfolding(crate::specs::Options::files_words_of))]
pub fn files_words(words: &[String], most: usize) -> Option<FilesWords>
    ensures { result ≡ files_words_of most (map string_bytes words.now) }
{
    if !are_words_of(&[], words) || words.len() < 3 || words.len() - 2 > most {
        return None;
    }
    let to = words.len() - 1;
    if is_read_too(words, to) {
        return None;
    }
    Some(FilesWords { count: to - 1, to })
}

/// Whether a word behind the command's name is the one at a later place.
fn is_read_too(words: &[String], to: usize) -> bool
    ensures { result ≡ is_read_too (map string_bytes words.now) to }
{
    (1..to).any(|place| is_same_at(words, place, to))
}
