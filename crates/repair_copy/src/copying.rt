ghost use Rattle.std.specs.Prelude.{◌≡◌, ℕ, ◌^◌, ◌<◌, false, Option, List, [], ◌∷◌, ◌++◌, OnOk, OnErr, IsErr};
ghost use Rattle.record_io.specs.Puts.{Taken, taken_by};
ghost use Rattle.record_io.specs.Calls.{OnlyCounts};
ghost use Rattle.meta_chunk.specs.Files.{signature};
ghost use Rattle.record_writer.specs.MadeFiles.{LaysFront, nothing_made};
ghost use Rattle.damage_skip.specs.Pieces.{Piece};
ghost use Rattle.damage_skip.specs.Walks.{piece_of, event_text};
ghost use Rattle.repair_copy.specs.Copies.{FitsAt, next_chunk_place, Begins, CopiesTo, TellsLine, IsPast, HasCopied, HasCopiedTo, HasPutTo, HasPutAtFault};

use crate::repairs::RepairEnd;
use damage_skip::{Event, Region, region_line};
use record_io::{Failed, Sink};
use record_writer::MadeFile;

/// What is copied of a damaged file. After a failure nothing more is.
#[derive(Drop)]
pub(crate) struct Copied {
    /// The file that is made.
    pub file: MadeFile,
    /// Whether its signature was put. Before the first event it wasn't.
    pub begun: bool,
    /// How many regions were passed over.
    pub regions: u64,
}

impl Copied {
    /// Nothing is copied yet.
    pub fn new() -> Copied
        ensures file { result.file ≡ nothing_made }
        ensures unbegun { result.begun ≡ false }
        ensures regions { result.regions ≡ 0 }
    {
        Copied {
            file: MadeFile::new(),
            begun: false,
            regions: 0,
        }
    }

    /// Puts the chunk of an event, or tells its region, behind those of other events. The signature comes first.
    pub fn put<M: Sink, E: Sink>(
        &mut self,
        event: &Event,
        made: &mut M,
        notes: &mut E,
    ) -> Result<(), RepairEnd>
        requires unbegun { self.old.begun ≡ false → self.old.file ≡ nothing_made }
        requires going { self.old.file.spent ≡ false }
        requires fits { FitsAt (next_chunk_place self.old) event.now }
        requires few { self.old.regions < 2 ^ 63 }
        ensures copies { (before : Taken) (events : List Piece)
            → HasCopied before (taken_by (M.taken made.old) None (E.taken notes.old)) self.old events
            → HasCopiedTo result before (taken_by (M.taken made.new) None (E.taken notes.new)) self.new
            (events ++ piece_of event.now ∷ []) }
        ensures tells { TellsLine M.lent M.faults E.taken E.lent E.faults result (event_text event.now)
            made.old made.new notes.old notes.new }
        ensures past { OnOk result (IsPast (piece_of event.now) self.old self.new notes.old notes.new) }
    {
        self.begin(made)?;
        self.put_event(event, made, notes)
    }

    /// Puts out what is held of a file that was copied whole, or up to a region that stops the work. Nothing is held then.
    pub fn finish<M: Sink>(&mut self, made: &mut M) -> Result<(), Failed>
        requires unbegun { self.old.begun ≡ false → self.old.file ≡ nothing_made }
        ensures puts { (before : Taken) (notes : Option (List ℕ)) (events : List Piece)
            → HasCopied before (taken_by (M.taken made.old) None notes) self.old events
            → HasPutTo result before (taken_by (M.taken made.new) None notes) self.new events }
        ensures place { OnOk result (self.new.file.place ≡ next_chunk_place self.old) }
        ensures regions { OnOk result (self.new.regions ≡ self.old.regions) }
        ensures made { OnlyCounts M.lent M.faults (IsErr result) made.old made.new }
    {
        self.begin(made)?;
        self.file.flush(made)
    }

    /// Puts out what is held of a file that can't be read on, which is nothing before the first event. That this fails too
    /// changes nothing.
    pub fn break_off<M: Sink>(&mut self, made: &mut M)
        ensures put { (before : Taken) (notes : Option (List ℕ)) (events : List Piece)
            → HasCopied before (taken_by (M.taken made.old) None notes) self.old events
            → HasPutAtFault (M.faults made.old) (M.faults made.new) before (taken_by (M.taken made.new) None notes) events }
        ensures made { OnlyCounts M.lent M.faults ⊥ made.old made.new }
    {
        let _ = self.file.flush(made);
    }

    /// Puts the signature, where it wasn't put yet.
    fn begin<M: Sink>(&mut self, made: &mut M) -> Result<(), Failed>
        requires unbegun { self.old.begun ≡ false → self.old.file ≡ nothing_made }
        ensures whole { OnOk result (Begins (M.taken made.old) (M.taken made.new) self.old self.new) }
        ensures front { OnErr result (LaysFront (IsErr result) (M.taken made.old) (M.taken made.new) nothing_made self.new.file (signature ∷ [])) }
        ensures unbegun { OnErr result (self.old.begun ≡ false) }
        ensures made { OnlyCounts M.lent M.faults (IsErr result) made.old made.new }
    {
        if !self.begun {
            self.file.start(made)?;
            self.begun = true;
        }
        Ok(())
    }

    /// Puts the chunk of an event, or tells its region.
    fn put_event<M: Sink, E: Sink>(
        &mut self,
        event: &Event,
        made: &mut M,
        notes: &mut E,
    ) -> Result<(), RepairEnd>
        requires going { self.old.file.spent ≡ false }
        requires fits { FitsAt self.old.file.place event.now }
        requires few { self.old.regions < 2 ^ 63 }
        ensures copies { CopiesTo result (taken_by (M.taken made.old) None (E.taken notes.old))
            (taken_by (M.taken made.new) None (E.taken notes.new)) self.old self.new (piece_of event.now) }
        ensures tells { TellsLine M.lent M.faults E.taken E.lent E.faults result (event_text event.now)
            made.old made.new notes.old notes.new }
        ensures quiet { OnOk result (self.new.regions ≡ self.old.regions → notes.new ≡ notes.old) }
    {
        match event {
            Event::Records { chunk, .. } => self.file.put(made, chunk, false)?,
            Event::Kept { chunk, unread, .. } => self.file.put(made, chunk, *unread)?,
            Event::Skipped(region) => self.tell(region, made, notes)?,
        }
        Ok(())
    }

    /// Tells a region in notes, once what is held of the file went out.
    fn tell<M: Sink, E: Sink>(
        &mut self,
        region: &Region,
        made: &mut M,
        notes: &mut E,
    ) -> Result<(), RepairEnd>
        requires going { self.old.file.spent ≡ false }
        requires few { self.old.regions < 2 ^ 63 }
        ensures copies { CopiesTo result (taken_by (M.taken made.old) None (E.taken notes.old))
            (taken_by (M.taken made.new) None (E.taken notes.new)) self.old self.new (piece_of (Event.Skipped region.now)) }
        ensures tells { TellsLine M.lent M.faults E.taken E.lent E.faults result (event_text (Event.Skipped region.now))
            made.old made.new notes.old notes.new }
    {
        self.file.flush(made)?;
        match region_line(notes, "skipped", region) {
            Ok(()) => {
                self.regions += 1;
                Ok(())
            }
            Err(Failed) => Err(RepairEnd::Notes),
        }
    }
}
