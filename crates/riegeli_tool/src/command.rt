ghost use Rattle.std.specs.Prelude.{◌≡◌, ◌==◌};
ghost use Rattle.riegeli_tool.specs.Commands.{names_by, none_named, stores_of};

use crate::append_words::AppendWords;
use crate::repair_words::RepairWords;
use command_frame::FilesWords;
use record_ranges::ranges_words::RangesWords;
use recover_command::recover_words::RecoverWords;
use sample_command::sample_words::SampleWords;
use seek_command::seek_words::SeekWords;
use show_command::show_words::ShowWords;
use write_command::write_words::WriteWords;

/// A command, with what its words say.
#[derive(Drop)]
pub(crate) enum Command<'a> {
    Write(WriteWords),
    Show(ShowWords),
    Recover(RecoverWords),
    /// Of the file at this place.
    Verify(usize),
    Seek(SeekWords<'a>),
    Repair(RepairWords),
    Sample(SampleWords),
    Join(FilesWords),
    Ranges(RangesWords),
    Append(AppendWords),
    Collect(FilesWords),
}

/// The files that words name, by their places among the words. Own.
#[derive(Clone, Copy, Debug, PartialEq, Eq)]
pub struct Names {
    /// The first file that is read, or 0 where none is.
    pub first: usize,
    /// How many files are read, which stand one behind another.
    pub count: usize,
    /// The file that is made.
    pub made: Option<usize>,
    /// How many stores there are to be of each file that is read.
    pub times: usize,
    /// The file that is grown.
    pub grown: Option<usize>,
}

impl Names {
    /// No file.
    pub(crate) fn none() -> Names
        ensures { result ≡ none_named }
    {
        Names {
            first: 0,
            count: 0,
            made: None,
            times: 1,
            grown: None,
        }
    }

    /// One file that is read.
    fn read(&mut self, file: usize)
        ensures { self.new ≡ record self.old { first = file; count = 1 } }
    {
        self.first = file;
        self.count = 1;
    }
}

impl<'a> Command<'a> {
    /// The files that the command's words name.
    pub(crate) fn names(&self) -> Names
        ensures { result ≡ names_by self.now }
    {
        let mut names = Names::none();
        match self {
            Command::Write(words) => names.made = Some(words.file),
            Command::Show(words) => names.read(words.file),
            Command::Recover(words) => names.read(words.show.file),
            Command::Verify(file) => names.read(*file),
            Command::Seek(words) => names.read(words.file),
            Command::Repair(words) => {
                names.read(words.from);
                names.made = Some(words.to);
            }
            Command::Sample(words) => names.made = Some(words.file),
            Command::Join(FilesWords { count, to }) | Command::Collect(FilesWords { count, to }) =>
                {
                    names.first = 1;
                    names.count = *count;
                    names.made = Some(*to);
                }
            Command::Ranges(words) => {
                names.read(words.file);
                names.times = words.parts as usize;
            }
            Command::Append(words) => names.grown = Some(words.write.file),
        }
        names
    }

    /// Whether so many stores are those of the files that the command reads.
    pub(crate) fn takes(&self, count: usize) -> bool
        ensures { result ≡ (stores_of self.now == count) }
    {
        let names = self.names();
        names.count * names.times == count
    }
}
