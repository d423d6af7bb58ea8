//! Varints: numbers below 2^64 in one to ten bytes, seven bits in each, the lowest first. A byte from
//! 128 on says that another follows. Every spelling of a number is read; the shortest is written.
//!
//! Standard: the Riegeli/records file format specification, whose heading each item names. "Own."
//! stands where this project decided.
#![tactic(auto)]

mod feed;
mod groups;
pub mod laws;

ghost use Rattle.std.specs.Prelude.{◌≡◌, ℕ, ◌<◌, ◌≤◌, ◌↔◌, List, ◌++◌, length, take, drop, IfOk};
ghost use Rattle.varint_wire.specs.Varint.{Spells, shortest};
ghost use Rattle.varint_wire.specs.Reading.{IsCut, IsLong};

pub use feed::{Feed, Step};
use groups::{is_tenth_above_one, with_group};

/// Why no varint was read. Own.
#[derive(Clone, Copy, Debug, PartialEq, Eq)]
pub enum VarintFault {
    /// The bytes end before the varint does.
    Cut,
    /// The varint has more than ten bytes, or its value isn't below 2^64.
    Long,
}

/// Writes the shortest varint of the value to the front of the buffer, and answers how many bytes it
/// has: from 1 to 10. The bytes behind it stay as they are. `read` gives the value and this length
/// again, whatever bytes follow. Standard: "Conventions".
#[inline]
pub fn write(value: u64, buf: &mut [u8; 10]) -> usize
    ensures at_most_ten { result ≤ 10 }
    ensures written { take result buf.new ≡ shortest value }
    ensures behind { drop result buf.new ≡ drop result buf.old }
{
    let mut rest = value;
    let mut at = 0;
    while rest >= 0x80 {
        buf[at] = (rest & 0x7f) as u8 | 0x80;
        rest >>= 7;
        at += 1;
    }
    buf[at] = rest as u8;
    at + 1
}

/// How many bytes the shortest varint of the value has: from 1 to 10. Standard: "Conventions".
#[inline]
pub fn len(value: u64) -> usize
    ensures { result ≡ length (shortest value) }
{
    let mut groups = value;
    let mut len = 1;
    while groups >= 0x80 {
        groups >>= 7;
        len += 1;
    }
    len
}

/// Reads the varint that the bytes begin with: its value and its length in bytes. Other bytes may
/// follow. Every spelling of up to ten bytes is read, also one that isn't the shortest. Standard:
/// "Conventions".
///
/// # Errors
///
/// `Cut` exactly where every byte says that another follows and there are not ten of them. `Long` exactly
/// where ten bytes in front say so, or only the tenth doesn't and these ten make 2^64 or more.
#[inline]
pub fn read(bytes: &[u8]) -> Result<(u64, usize), VarintFault>
    ensures found { IfOk result
        (λ x. (x.1 ≤ length bytes.now) × Spells x.0 (take x.1 bytes.now)) }
    ensures accepted { (value : ℕ) (front rest : List ℕ) →
        Spells value front → bytes.now ≡ front ++ rest → result ≡ Ok (value, length front) }
    ensures cut { (result ≡ Err VarintFault.Cut) ↔ IsCut bytes.now }
    ensures long { (result ≡ Err VarintFault.Long) ↔ IsLong bytes.now }
{
    let mut value = 0;
    for (at, byte) in bytes.iter().enumerate() {
        if is_tenth_above_one(at, *byte) {
            return Err(VarintFault::Long);
        }
        value = with_group(value, at, *byte);
        if *byte < 0x80 {
            return Ok((value, at + 1));
        }
    }
    Err(VarintFault::Cut)
}
