//! What the words of each command say: its options, and its files.
ghost use Rattle.std.specs.Prelude.{◌≡◌, map};
ghost use Rattle.std.specs.String.{string_bytes};
ghost use Rattle.riegeli_tool.specs.CommandWords.{
  write_command_of,
  line_words_of,
  append_command_of,
  show_command_of,
  recover_command_of,
  verify_command_of,
  seek_command_of,
  repair_command_of,
  sample_command_of,
  ranges_command_of,
};

use crate::append_words::AppendWords;
use crate::command::Command;
use crate::options::{most, one_sought, shown, write_options};
use crate::repair_words::RepairWords;
use command_frame::{
    are_words_of, file_place, has_flag, is_same_at, number_given, two_files, value_given,
};
use record_ranges::ranges_words::{MOST_PARTS, RangesWords};
use recover_command::recover_words::RecoverWords;
use sample_command::sample_words::{MOST_RECORDS, SampleWords};
use seek_command::seek_words::SeekWords;
use write_command::write_words::WriteWords;

pub(crate) fn write_command<'a>(words: &'a [String]) -> Option<Command<'a>>
    ensures { result ≡ write_command_of (map string_bytes words.now) }
{
    let options = ["--chunk=", "--every=", "--workers=", "--pad=", "--hex"];
    Some(Command::Write(line_words(&options, words)?))
}

pub(crate) fn append_command<'a>(words: &'a [String]) -> Option<Command<'a>>
    ensures { result ≡ append_command_of (map string_bytes words.now) }
{
    let options = [
        "--cut",
        "--chunk=",
        "--every=",
        "--workers=",
        "--pad=",
        "--hex",
    ];
    Some(Command::Append(AppendWords {
        write: line_words(&options, words)?,
        cut: has_flag("--cut", words),
    }))
}

/// What the words of a command say that reads lines. It has these options, and reads those of its own itself.
#[tactic(auto, unfolding(crate::specs::CommandWords::line_words_of))]
fn line_words(options: &[&str], words: &[String]) -> Option<WriteWords>
    ensures { result ≡ line_words_of (map (λ option. option.now) options.now) (map string_bytes words.now) }
{
    let file = file_place(options, words)?;
    Some(WriteWords {
        options: write_options(words)?,
        hex: has_flag("--hex", words),
        file,
    })
}

#[tactic(auto, unfolding(crate::specs::CommandWords::show_command_of))]
pub(crate) fn show_command<'a>(words: &'a [String]) -> Option<Command<'a>>
    ensures { result ≡ show_command_of (map string_bytes words.now) }
{
    if has_flag("--recover", words) {
        return recover_command(words);
    }
    let file = file_place(&["--hex", "--positions"], words)?;
    Some(Command::Show(shown(file, words)))
}

/// `show` that goes past damage.
#[tactic(auto, unfolding(crate::specs::CommandWords::recover_command_of))]
fn recover_command<'a>(words: &'a [String]) -> Option<Command<'a>>
    ensures { result ≡ recover_command_of (map string_bytes words.now) }
{
    let file = file_place(&["--recover", "--most=", "--hex", "--positions"], words)?;
    Some(Command::Recover(RecoverWords {
        most: most(words)?,
        show: shown(file, words),
    }))
}

#[tactic(auto, unfolding(crate::specs::CommandWords::verify_command_of))]
pub(crate) fn verify_command<'a>(words: &'a [String]) -> Option<Command<'a>>
    ensures { result ≡ verify_command_of (map string_bytes words.now) }
{
    Some(Command::Verify(file_place(&[], words)?))
}

#[tactic(auto, unfolding(crate::specs::CommandWords::seek_command_of))]
pub(crate) fn seek_command<'a>(words: &'a [String]) -> Option<Command<'a>>
    ensures { result ≡ seek_command_of (map string_bytes words.now) }
{
    let file = file_place(&["--at=", "--key=", "--hex"], words)?;
    let position = number_given("--at=", words, 0, u64::MAX)?;
    Some(Command::Seek(SeekWords {
        by: one_sought(position, value_given("--key=", words))?,
        hex: has_flag("--hex", words),
        file,
    }))
}

#[tactic(auto, unfolding(crate::specs::CommandWords::repair_command_of))]
pub(crate) fn repair_command<'a>(words: &'a [String]) -> Option<Command<'a>>
    ensures { result ≡ repair_command_of (map string_bytes words.now) }
{
    if !are_words_of(&["--most="], words) {
        return None;
    }
    let (from, to) = two_files(words)?;
    let most = most(words)?;
    if is_same_at(words, from, to) {
        return None;
    }
    Some(Command::Repair(RepairWords { most, from, to }))
}

#[tactic(auto, unfolding(crate::specs::CommandWords::sample_command_of))]
pub(crate) fn sample_command<'a>(words: &'a [String]) -> Option<Command<'a>>
    ensures { result ≡ sample_command_of (map string_bytes words.now) }
{
    let file = file_place(&["--seed=", "--records=", "--chunk=", "--workers="], words)?;
    Some(Command::Sample(SampleWords {
        options: write_options(words)?,
        seed: number_given("--seed=", words, 0, u64::MAX)??,
        count: number_given("--records=", words, 0, MOST_RECORDS)??,
        file,
    }))
}

#[tactic(auto, unfolding(crate::specs::CommandWords::ranges_command_of))]
pub(crate) fn ranges_command<'a>(words: &'a [String]) -> Option<Command<'a>>
    ensures { result ≡ ranges_command_of (map string_bytes words.now) }
{
    let file = file_place(&["--parts="], words)?;
    let parts = number_given("--parts=", words, 1, MOST_PARTS as u64)??;
    Some(Command::Ranges(RangesWords {
        parts: parts as u32,
        file,
    }))
}
