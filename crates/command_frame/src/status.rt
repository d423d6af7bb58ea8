ghost use Rattle.std.specs.Prelude.{◌≡◌};
ghost use Rattle.command_frame.specs.Endings.{status_of};
ghost use Rattle.command_frame.specs.Statuses.{number_of};

use record_io::Cut;

/// What a run of the program ends with. Own.
#[derive(Clone, Copy, Debug, PartialEq, Eq)]
pub enum Status {
    /// The work was done.
    Ok,
    /// A record file is not well formed, or not readable by the command.
    Refused,
    /// The words are no command.
    Usage,
    /// Standard input failed.
    Input,
    /// A file that is read failed.
    File,
    /// The file that is made failed.
    Made,
    /// Standard output failed.
    Out,
    /// There was not enough memory.
    Memory,
    /// A limit was passed.
    Limit,
    /// Damaged regions were skipped.
    Skipped,
    /// A damaged region was larger than allowed.
    Stopped,
    /// There is no such record.
    NotFound,
    /// A line is not hexadecimal.
    BadLine,
    /// Standard error failed.
    Notes,
    /// Two stores of one file told different sizes.
    Differ,
    /// The file that is grown failed.
    Grown,
}

impl Status {
    /// The status that tells what cut the work off.
    pub fn of(cut: Cut) -> Status
        ensures { result ≡ status_of cut }
    {
        match cut {
            Cut::Input => Status::Input,
            Cut::File => Status::File,
            Cut::Made => Status::Made,
            Cut::Grown => Status::Grown,
            Cut::Out => Status::Out,
            Cut::Notes => Status::Notes,
            Cut::Memory => Status::Memory,
        }
    }

    /// The exit status of the program, from 0 to 15. Own.
    pub fn number(&self) -> u8
        ensures { result ≡ number_of self.now }
    {
        *self as u8
    }
}
