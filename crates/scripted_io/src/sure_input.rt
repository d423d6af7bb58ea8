ghost use Rattle.std.specs.Prelude.{◌≡◌, ◌<◌, [], length, min, Some, IsOk, IfOk};
ghost use Rattle.record_io.specs.Seen.{GivesPiece};
ghost use Rattle.scripted_io.specs.Memory.{HasCalled, cut_to, new_script, sure_input_seen};

use crate::mem_input::MemInput;
use record_io::{Failed, Source};
use std::marker::Model;

/// Bytes in memory as a source, whose calls are cut short as they are told to, and never fail.
///
/// Calls are numbered from 0. Call i gives at most `cuts[i % cuts.len()]` bytes, where a cut of 0 counts as 1 and no
/// cuts cut nothing.
#[derive(Debug, Drop)]
pub struct SureInput {
    input: MemInput,
}

impl Model for SureInput {
    ghost use Rattle.std.specs.Prelude.{◌≡◌, []};
    ghost use Rattle.scripted_io.specs.Memory.{Input};

    ghost Value = { Input };

    ghost view = { λ s. s.input };

    ghost invariant = { λ s. s.input.script.fails ≡ [] };
}

impl SureInput {
    /// All these bytes, none of them given yet. It takes no memory.
    pub fn new(bytes: Vec<u8>, cuts: Vec<u32>) -> SureInput
        ensures { result ≡ record { left = bytes.items; script = new_script cuts.items [] } }
    {
        let fails = Vec::new(*bytes.allocator());
        SureInput {
            input: MemInput::new(bytes, cuts, fails),
        }
    }
}

impl Source for SureInput {
    ghost left = { λ s. Some s.left };

    ghost faults = { λ _. 0 };

    fn take(&mut self, buf: &mut [u8]) -> Result<usize, Failed>
        requires { 0 < length buf.old }
        ensures sure { IsOk result }
        ensures gives { GivesPiece result (length buf.old) buf.new (sure_input_seen self.old) (sure_input_seen self.new) }
        ensures cut { IfOk result (λ n. n ≡ cut_to self.old.script.cuts self.old.script.number (min (length buf.old) (length self.old.left))) }
        ensures called { HasCalled result self.old.script self.new.script }
    {
        self.input.take(buf)
    }
}
