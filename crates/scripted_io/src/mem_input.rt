ghost use Rattle.std.specs.Prelude.{◌≡◌, ◌<◌, length, min, IfOk, Some};
ghost use Rattle.record_io.specs.Seen.{GivesPiece};
ghost use Rattle.scripted_io.specs.Memory.{HasCalled, cut_to, input_seen, new_script};

use crate::script::Script;
use record_io::{Failed, Source};
use std::marker::Model;

/// Bytes in memory as a source, whose calls are cut short and fail as they are told to.
///
/// Calls are numbered from 0. Call i gives at most `cuts[i % cuts.len()]` bytes, where a cut of 0
/// counts as 1 and no cuts cut nothing, and it fails if `fails` lists it, and not otherwise.
#[derive(Debug, Drop)]
pub struct MemInput {
    bytes: Vec<u8>,
    at: usize,
    script: Script,
}

impl Model for MemInput {
    ghost use Rattle.std.specs.Prelude.{◌≤◌, drop, vec_len};
    ghost use Rattle.scripted_io.specs.Memory.{Input};

    ghost Value = { Input };

    ghost view = { λ i. record { left = drop i.at i.bytes.items; script = i.script } };

    ghost invariant = { λ i. i.at ≤ vec_len i.bytes };
}

impl MemInput {
    /// All these bytes, none of them given yet. It takes no memory.
    pub fn new(bytes: Vec<u8>, cuts: Vec<u32>, fails: Vec<u32>) -> MemInput
        ensures { result ≡ record { left = bytes.items; script = new_script cuts.items fails.items } }
    {
        MemInput {
            bytes,
            at: 0,
            script: Script::new(cuts, fails),
        }
    }
}

impl Source for MemInput {
    ghost left = { λ i. Some i.left };

    ghost faults = { λ i. i.script.faults };

    fn take(&mut self, buf: &mut [u8]) -> Result<usize, Failed>
        requires { 0 < length buf.old }
        ensures gives { GivesPiece result (length buf.old) buf.new (input_seen self.old) (input_seen self.new) }
        ensures cut { IfOk result (λ n. n ≡ cut_to self.old.script.cuts self.old.script.number (min (length buf.old) (length self.old.left))) }
        ensures called { HasCalled result self.old.script self.new.script }
    {
        let given = self.script.copy(&self.bytes[self.at..], buf)?;
        self.at += given;
        Ok(given)
    }
}
