ghost use Rattle.std.specs.Prelude.{◌+◌, ◌^◌, ◌<◌};

/// Neighbouring numbers. Own.
#[derive(Clone, Copy, Debug, PartialEq, Eq)]
pub struct Span {
    /// The first of them.
    pub first: u64,
    /// How many they are.
    pub count: u64,
    pub ghost fits: { first + count < 2 ^ 64 },
}
