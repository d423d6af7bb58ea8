ghost use Rattle.std.specs.Prelude.{◌≡◌, ◌+◌, ◌*◌, ◌%◌, ◌^◌, ◌<◌, ◌≤◌, ◌↔◌, IsTrue};

/// Whether the byte is the tenth and above 1, which no varint has: 64 bits leave the tenth byte one bit,
/// and no byte may follow it.
#[inline]
pub(crate) fn is_tenth_above_one(at: usize, byte: u8) -> bool
    ensures { IsTrue result ↔ ((at ≡ 9) × (1 < byte)) }
{
    at == 9 && byte > 1
}

/// The value of the bytes before this place with the byte's seven bits above them.
#[inline]
pub(crate) fn with_group(value: u64, at: usize, byte: u8) -> u64
    requires below { value < 128 ^ at }
    requires ten { at ≤ 9 }
    requires fits { at ≡ 9 → byte ≤ 1 }
    ensures { result ≡ value + byte % 128 * 128 ^ at }
{
    value | (u64::from(byte & 0x7f) << (7 * at))
}
