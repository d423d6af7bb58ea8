ghost use Rattle.std.specs.Fn.{FnReturnsAt};
ghost use Rattle.std.specs.Prelude.{◌≡◌, ◌≤◌};
ghost use Rattle.damage_skip.specs.Bounds.{may_skip};
ghost use Rattle.damage_skip.specs.Policies.{IsRegion, IsTest};

use crate::regions::Region;

/// Which regions may be passed over: a test of regions, which answers each the same way at every call. Own.
#[derive(Drop)]
pub struct Policy<F> {
    test: F,
}

impl<F: Fn(&Region) -> bool + Drop> Policy<F> {
    /// The policy that asks a function. It may be called on every region that begins at or before its end and ends at or
    /// below 2^60, and can't answer both ways on one.
    pub fn new(test: F) -> Policy<F>
        requires { IsTest F.Fn test }
        ensures { result.test ≡ test }
    {
        Policy { test }
    }

    /// Whether a region may be passed over.
    pub fn allows(&self, region: &Region) -> bool
        requires test { IsTest F.Fn self.now.test }
        requires region { IsRegion region.now }
        ensures { FnReturnsAt F.Fn self.now.test region.now result }
    {
        (self.test)(region)
    }
}

/// Whether a region may be skipped, where they may be bounded to so many bytes.
pub fn may_skip(most: Option<u64>, region: &Region) -> bool
    requires { region.now.begin ≤ region.now.end }
    ensures { result ≡ may_skip most region.now }
{
    match most {
        Some(most) => region.end - region.begin <= most,
        None => true,
    }
}
