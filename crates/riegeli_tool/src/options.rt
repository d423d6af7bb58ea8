//! The options that several commands have, or that have more than a number.
ghost use Rattle.std.specs.Prelude.{◌≡◌, map, option_map, unwrap_or};
ghost use Rattle.std.specs.Option.{option_copied};
ghost use Rattle.std.specs.String.{string_bytes};
ghost use lib.Chars.{codes};
ghost use Rattle.command_frame.specs.Options.{number_given, optional_value, value_given};
ghost use Rattle.riegeli_tool.specs.CommandWords.{most_of, one_sought, options_of, pad_named, shown};

use command_frame::{DEFAULT_CHUNK_SIZE, has_flag, number_given, value_given};
use record_group::Pad;
use record_writer::WriteOptions;
use seek_command::seek_words::{By, SearchKey};
use show_command::show_words::{RecordForm, ShowWords};

/// The most bytes of a chunk, where its size is named.
const MOST_CHUNK_SIZE: u64 = 1 << 24;

/// The most records of a chunk, where they are bounded.
const MOST_EVERY: u64 = 1 << 24;

const MOST_WORKERS: u64 = 16;

/// The most bytes that skipped regions may be bounded to.
const MOST_SKIPPED: u64 = 1 << 62;

/// How the words say that records are written.
pub(crate) fn write_options(words: &[String]) -> Option<WriteOptions>
    ensures { result ≡ options_of (map string_bytes words.now) }
{
    let size = number_given("--chunk=", words, 1, MOST_CHUNK_SIZE)?;
    let workers = workers(words)?;
    let every = number_given("--every=", words, 1, MOST_EVERY)?;
    let pad = pad(words)?;
    Some(WriteOptions {
        size: size.unwrap_or(DEFAULT_CHUNK_SIZE),
        workers,
        every,
        pad,
    })
}

fn workers(words: &[String]) -> Option<u32>
    ensures { result ≡ option_map (λ workers. unwrap_or workers 1)
        (number_given (codes "--workers=") 1 16 (map string_bytes words.now)) }
{
    let workers = number_given("--workers=", words, 1, MOST_WORKERS)?;
    Some(workers.unwrap_or(1) as u32)
}

fn pad(words: &[String]) -> Option<Pad>
    ensures { result ≡ option_map (λ pad. unwrap_or pad Pad.No)
        (optional_value pad_named (value_given (codes "--pad=") (map string_bytes words.now))) }
{
    match value_given("--pad=", words) {
        Some(name) => pad_named(name),
        None => Some(Pad::No),
    }
}

fn pad_named(name: &str) -> Option<Pad>
    ensures { result ≡ pad_named name.now }
{
    match name {
        "start" => Some(Pad::Start),
        "end" => Some(Pad::End),
        "both" => Some(Pad::Both),
        _ => None,
    }
}

/// How the words say that the records of a file are printed.
pub(crate) fn shown(file: usize, words: &[String]) -> ShowWords
    ensures { result ≡ shown file (map string_bytes words.now) }
{
    ShowWords {
        form: RecordForm {
            positions: has_flag("--positions", words),
            hex: has_flag("--hex", words),
        },
        file,
    }
}

/// The most bytes of a region that is skipped, where the words bound them.
pub(crate) fn most(words: &[String]) -> Option<Option<u64>>
    ensures { result ≡ most_of (map string_bytes words.now) }
{
    number_given("--most=", words, 0, MOST_SKIPPED)
}

/// What is looked for: a position or a key, and not both.
pub(crate) fn one_sought<'a>(position: Option<u64>, key: Option<&'a str>) -> Option<By<'a>>
    ensures { result ≡ one_sought position (option_copied key.entry) }
{
    match (position, key) {
        (Some(position), None) => Some(By::At(position)),
        (None, Some(key)) => Some(By::Key(SearchKey::new(key))),
        _ => None,
    }
}
