//! The hash as it is compiled, by each of its forms.
ghost use Rattle.std.specs.Prelude.{◌<◌};

use highway_hash::{Hasher, Key, hash, hash_lanes};

/// The key whose bytes are 0 to 31 in order.
const COUNTING: Key = Key([
    0x0706_0504_0302_0100,
    0x0f0e_0d0c_0b0a_0908,
    0x1716_1514_1312_1110,
    0x1f1e_1d1c_1b1a_1918,
]);

/// The hash by pieces of this size, with an empty one before each.
fn in_pieces(key: Key, bytes: &[u8], size: usize) -> u64
    requires { 0 < size }
{
    let mut hasher = Hasher::new(key);
    for piece in bytes.chunks(size) {
        hasher.update(&[]);
        hasher.update(piece);
    }
    hasher.finish()
}

/// The hash in every form.
fn by_all_forms(key: Key, bytes: &[u8]) -> [u64; 5] {
    [
        hash(&key, bytes),
        hash_lanes(&key, bytes),
        in_pieces(key, bytes, 1),
        in_pieces(key, bytes, 15),
        in_pieces(key, bytes, 33),
    ]
}

/// Lengths with and without a remainder, and with whole packets before it. The first three values are published, the others are
/// from an independent program.
#[test]
fn all_forms_of_the_hash_give_the_values_of_others(rt: HostRuntime) {
    let mut bytes = [0; 64];
    for i in 0..64 {
        bytes[i] = i as u8;
    }
    let cases = [
        (0, 0x907a_56de_22c2_6e53),
        (1, 0x7eab_43aa_c7cd_dd78),
        (2, 0xb8d0_569a_b0b5_3d62),
        (15, 0x4079_3f86_a449_f33b),
        (19, 0x75d9_518e_2371_c504),
        (33, 0x2c90_f73c_a031_81fc),
        (64, 0x7554_2c5d_4cd2_a6ff),
    ];
    for (len, want) in cases {
        assert!(rt; len <= bytes.len());
        assert_eq!(rt;
            by_all_forms(COUNTING, &bytes[..len]),
            [want; 5],
            "at {len} bytes"
        );
    }
}
