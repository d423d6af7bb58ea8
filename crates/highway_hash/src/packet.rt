//! Packets of bytes, one for each update.

ghost use Rattle.std.specs.Prelude.{◌≡◌, ◌<◌, length};
ghost use Rattle.highway_hash.specs.HighwayHash.{lanes_of, remainder_packet};

/// How many bytes an update takes.
pub(crate) const PACKET: usize = 32;

/// The four words of a packet.
#[tactic(auto, unfolding(crate::specs::HighwayHash::lanes_of))]
pub(crate) fn lanes_of(packet: &[u8; PACKET]) -> [u64; 4]
    ensures { result ≡ lanes_of packet.now }
{
    let (words, _) = packet.as_chunks::<8>();
    [
        u64::from_le_bytes(words[0]),
        u64::from_le_bytes(words[1]),
        u64::from_le_bytes(words[2]),
        u64::from_le_bytes(words[3]),
    ]
}

/// The packet that holds a remainder of 1 to 31 bytes: its whole words of four bytes, and then either
/// its last four bytes at the packet's end or the one to three bytes past those words.
#[tactic(auto, using(crate::proofs::Remainder::end_packet, crate::proofs::Remainder::tail_packet), unfolding(crate::specs::HighwayHash::remainder_packet))]
pub(crate) fn remainder_packet(rest: &[u8]) -> [u8; PACKET]
    requires some { 0 < length rest.now }
    requires short { length rest.now < 32 }
    ensures { result ≡ remainder_packet rest.now }
{
    let len = rest.len();
    let tail = len % 4;
    let words = len - tail;
    let mut packet = [0; PACKET];
    packet[..words].copy_from_slice(&rest[..words]);
    if len >= 16 {
        packet[28..].copy_from_slice(&rest[len - 4..]);
    } else if tail > 0 {
        packet[16] = rest[words];
        packet[17] = rest[words + tail / 2];
        packet[18] = rest[len - 1];
    }
    packet
}
