ghost use Rattle.std.specs.Prelude.{◌≡◌, ◌+◌, ◌^◌, ◌<◌, ◌==◌, ◌&&◌, ◌||◌, not, nat_lt};
ghost use Rattle.record_group.specs.Groups.{is_full};

use simple_chunk::RECORD_COST;

/// Whether a group of so many records, which cost so much, closes before a record of `rec_len` bytes. Own.
pub(crate) fn closes(cost: u64, count: usize, size: u64, every: Option<u64>, rec_len: usize) -> bool
    requires { cost + (rec_len + 8) < 2 ^ 64 }
    ensures { result ≡ not (count == 0) && (nat_lt size (cost + (rec_len + 8)) || is_full every count) }
{
    let with_record = cost + (rec_len as u64 + RECORD_COST);
    count != 0 && (with_record > size || every == Some(count as u64))
}
