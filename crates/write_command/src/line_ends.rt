//! The line ends that are known of a buffer.

ghost use Rattle.std.specs.Prelude.{◌≡◌, ◌≢◌, ℕ, ◌+◌, ◌%◌, ◌<◌, ◌≤◌, length, slice_index, IfSome, None};
ghost use Rattle.write_command.specs.LineEnds.{KnowsEnds, NoEnds, IsFirstEnd};

use crate::marks::{lowest, marks_at, without_lowest};

/// The line ends of 64 bytes of a buffer, and that none stands before them. Each function is handed the buffer, and from
/// where and up to where its bytes count.
#[derive(Clone, Copy, Debug)]
pub(crate) struct LineEnds {
    /// Where the 64 bytes begin.
    base: usize,
    /// Bit k is set where byte k of them ends a line and was not passed.
    mask: u64,
}

impl LineEnds {
    /// Those of a buffer none of whose bytes count.
    pub fn none() -> LineEnds
        ensures base { result.base ≡ 0 }
        ensures mask { result.mask ≡ 0 }
    {
        LineEnds { base: 0, mask: 0 }
    }

    /// Those of a buffer whose bytes count from its first one on.
    pub fn of(bytes: &[u8]) -> LineEnds
        requires { 64 ≤ length bytes.now }
        ensures { (to : ℕ) → KnowsEnds bytes.now 0 to result.base result.mask }
    {
        LineEnds {
            base: 0,
            mask: marks_at(bytes, 0),
        }
    }

    /// The same at the first 64 bytes that have a mark, or at the last ones.
    #[inline(always)]
    fn moved(self, bytes: &[u8], from: usize, to: usize) -> LineEnds
        requires knows { KnowsEnds bytes.now from to self.base self.mask }
        requires whole { length bytes.now % 64 ≡ 0 }
        requires within { to ≤ length bytes.now }
        ensures knows { KnowsEnds bytes.now from to result.base result.mask }
        ensures ended { result.mask ≡ 0 → to ≤ result.base + 64 }
    {
        let mut base = self.base;
        let mut mask = self.mask;
        while mask == 0 && base + 64 < to {
            base += 64;
            mask = marks_at(bytes, base);
        }
        LineEnds { base, mask }
    }

    /// How many bytes stand before the first end, if there is one.
    #[inline(always)]
    pub fn first(&mut self, bytes: &[u8], from: usize, to: usize) -> Option<usize>
        requires knows { KnowsEnds bytes.now from to self.old.base self.old.mask }
        requires whole { length bytes.now % 64 ≡ 0 }
        requires within { to ≤ length bytes.now }
        ensures knows { KnowsEnds bytes.now from to self.new.base self.new.mask }
        ensures found { IfSome result (λ n. IsFirstEnd bytes.now from to (from + n)) }
        ensures none { result ≡ None → NoEnds bytes.now from to }
        ensures near { IfSome result (λ n. from + n < self.new.base + 64) }
    {
        *self = self.moved(bytes, from, to);
        if self.mask == 0 {
            return None;
        }
        let at = self.base + lowest(self.mask);
        if at < to { Some(at - from) } else { None }
    }

    /// Passes the first end.
    #[inline(always)]
    pub fn pass(&mut self, bytes: &[u8], from: usize, to: usize)
        requires knows { KnowsEnds bytes.now from to self.old.base self.old.mask }
        requires whole { length bytes.now % 64 ≡ 0 }
        requires within { to ≤ length bytes.now }
        requires first { (at : ℕ) × IsFirstEnd bytes.now from to at }
        ensures { (at : ℕ) → IsFirstEnd bytes.now from to at → KnowsEnds bytes.now (at + 1) to self.new.base self.new.mask }
    {
        let _ = self.first(bytes, from, to);
        self.mask = without_lowest(self.mask);
    }
}
