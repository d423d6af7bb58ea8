ghost use Rattle.std.specs.Prelude.{◌≡◌, ◌≤◌, length, nat_le};
ghost use Rattle.record_join.specs.Joined.{joined_at_most};
ghost use Rattle.command_frame.specs.FileAnswers.{most_file_bytes};

use command_frame::MOST_FILE_BYTES;

/// The most bytes of the padding behind a file: less than two blocks.
const MOST_PADDING: u64 = 131_072;

/// Whether files of these sizes have so few bytes one after another that they are joined: no more than one that is read.
pub(crate) fn are_in_reach(sizes: &[u64]) -> bool
    requires { (1 ≤ length sizes.now) × (length sizes.now ≤ 64) }
    ensures { result ≡ nat_le (joined_at_most sizes.now) most_file_bytes }
{
    let mut room = MOST_FILE_BYTES - MOST_PADDING * (sizes.len() as u64 - 1);
    for size in sizes {
        if *size > room {
            return false;
        }
        room -= *size;
    }
    true
}
