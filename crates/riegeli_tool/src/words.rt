ghost use Rattle.std.specs.Prelude.{◌≡◌, IfSome, map};
ghost use Rattle.std.specs.String.{string_bytes};
ghost use Rattle.riegeli_tool.specs.CommandWords.{command_named};
ghost use Rattle.riegeli_tool.specs.Commands.{accepted, command_of, names_of, stores_of};
ghost use Rattle.riegeli_tool.specs.CommandLimits.{IsWithinLimits};

use crate::command::{Command, Names};
use crate::command_words::{
    append_command, ranges_command, repair_command, sample_command, seek_command, show_command,
    verify_command, write_command,
};
use command_frame::files_words;
use join_command::{MOST_COLLECTED, MOST_JOINED};

/// The files that the words name. None for words that are no command. Own.
pub fn names(words: &[String]) -> Names
    ensures { result ≡ names_of (command_of (map string_bytes words.now)) }
{
    match parse(words) {
        Some(command) => command.names(),
        None => Names::none(),
    }
}

/// The command that the words are.
fn parse<'a>(words: &'a [String]) -> Option<Command<'a>>
    ensures { result ≡ command_of (map string_bytes words.now) }
{
    command_named(words.first()?.as_str(), words)
}

/// The command of this name that the words are.
fn command_named<'a>(name: &str, words: &'a [String]) -> Option<Command<'a>>
    ensures { result ≡ command_named name.now (map string_bytes words.now) }
{
    match name {
        "write" => write_command(words),
        "show" => show_command(words),
        "verify" => verify_command(words),
        "seek" => seek_command(words),
        "repair" => repair_command(words),
        "sample" => sample_command(words),
        "join" => Some(Command::Join(files_words(words, MOST_JOINED)?)),
        "ranges" => ranges_command(words),
        "append" => append_command(words),
        "collect" => Some(Command::Collect(files_words(words, MOST_COLLECTED)?)),
        _ => None,
    }
}

/// The command that the words are, where so many stores are handed in.
pub(crate) fn accept<'a>(words: &'a [String], count: usize) -> Option<Command<'a>>
    ensures command { result ≡ accepted (map string_bytes words.now) count }
    ensures taken { IfSome result (λ command. stores_of command ≡ count) }
    ensures within { IfSome result IsWithinLimits }
{
    parse(words).filter(|command| command.takes(count))
}
