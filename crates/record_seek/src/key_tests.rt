ghost use Rattle.std.specs.Fn.{FnReturnsAt};
ghost use Rattle.std.specs.Prelude.{◌≡◌, ◌≤◌, ◌^◌, ◌↔◌, IsTrue, length};
ghost use Rattle.record_seek.specs.KeyTests.{IsKeyTest, StandsBefore};

/// Which records stand before what is looked for: a test of their bytes, which answers each record the same way at every call.
/// Own.
#[derive(Drop)]
pub struct KeyTest<F> {
    test: F,
}

impl<F: Fn(&[u8]) -> bool + Drop> KeyTest<F> {
    /// The test that asks a function. It may be called on every list of at most 2^26 bytes, and can't answer both ways on one.
    pub fn new(test: F) -> KeyTest<F>
        requires { IsKeyTest F.Fn test }
        ensures { result.test ≡ test }
    {
        KeyTest { test }
    }

    /// Whether a record of at most 2^26 bytes stands before.
    pub fn before(&self, bytes: &[u8]) -> bool
        requires test { IsKeyTest F.Fn self.now.test }
        requires small { length bytes.now ≤ 2 ^ 26 }
        ensures answers { FnReturnsAt F.Fn self.now.test bytes.now result }
        ensures exact { IsTrue result ↔ StandsBefore F.Fn self.now.test bytes.now }
    {
        (self.test)(bytes)
    }
}
