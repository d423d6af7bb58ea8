ghost use Rattle.std.specs.Option.{option_to_list};
ghost use Rattle.std.specs.Prelude.{◌≡◌, ◌≢◌, ◌+◌, ◌-◌, ◌^◌, ◌≤◌, ℕ, true, false, if◌then◌else◌, Bool, Option, Some, None, List, [], ◌∷◌, ◌++◌, length, IsErr, IsTrue, IfOk, IfSome, OnOk, Err};
ghost use Rattle.chunk_header.specs.SimpleChunks.{simple_chunk};
ghost use Rattle.meta_chunk.specs.Files.{end_of_chunks};
ghost use Rattle.meta_chunk.specs.Laid.{end_of_chunk};
ghost use Rattle.simple_chunk.specs.Costs.{cost_of};
ghost use Rattle.ordered_writer.specs.Writers.{IsBoundaryWithin, MayReach, writer_at};
ghost use Rattle.record_group.specs.Groups.{groups, padding_if};
ghost use Rattle.record_group.specs.Groupings.{IsGivenGroup, IsPush, groups_from, new_grouping};
ghost use Rattle.record_io.specs.Calls.{OnlyCounts};
ghost use Rattle.record_writer.specs.MadeFiles.{chunks_of_groups, reach_of};
ghost use Rattle.riegeli_c.specs.Laying.{LaysBy};
ghost use Rattle.riegeli_c.specs.LayingGroups.{LaysPushed};
ghost use Rattle.riegeli_c.specs.Writes.{AreCuts, groups_laid, records_cut, records_laid, signature_at};

use ordered_writer::OrderedWriter;
use record_group::Grouper;
use record_io::{Failed, PutBuffer, Sink};
use simple_chunk::{Records, SimpleChunk};
use std::alloc::AllocError;

/// Why chunks were not laid to the end.
#[derive(Clone, Copy, Debug, PartialEq, Eq)]
pub(crate) enum LayEnd {
    /// There was not enough memory.
    Memory,
    /// What they are laid to failed.
    Made,
}

impl From<AllocError> for LayEnd {
    ghost use Rattle.riegeli_c.specs.declared.laying.LayEnd.TheVariants.{Memory};

    ghost from_gives = { λ _ end. end ≡ Memory };

    fn from(_: AllocError) -> LayEnd {
        LayEnd::Memory
    }
}

impl From<Failed> for LayEnd {
    ghost use Rattle.riegeli_c.specs.declared.laying.LayEnd.TheVariants.{Made};

    ghost from_gives = { λ _ end. end ≡ Made };

    fn from(_: Failed) -> LayEnd {
        LayEnd::Made
    }
}

/// Lays the signature, where nothing was laid before, and the padding that is wanted before the
/// chunks of records.
pub(crate) fn lay_first<M: Sink>(
    wanted: bool,
    writer: &mut OrderedWriter,
    made: &mut M,
) -> Result<(), Failed>
    requires going { writer.old.spent ≡ false }
    requires near { writer.old.position ≤ 2 ^ 60 }
    ensures { LaysBy M.taken M.lent M.faults (IsErr result) result writer.old writer.new
        (signature_at writer.old.position
        ++ padding_if wanted (end_of_chunks writer.old.position (signature_at writer.old.position)))
        made.old made.new }
{
    lay_signature(writer, made)?;
    pad_if(wanted, writer, made)
}

/// Lays the signature, where nothing was laid before.
fn lay_signature<M: Sink>(writer: &mut OrderedWriter, made: &mut M) -> Result<(), Failed>
    requires going { writer.old.spent ≡ false }
    ensures { LaysBy M.taken M.lent M.faults (IsErr result) result writer.old writer.new
        (signature_at writer.old.position) made.old made.new }
{
    if writer.position() == 0 {
        writer.start(made)
    } else {
        Ok(())
    }
}

/// Lays the padding up to a block, where it is wanted.
pub(crate) fn pad_if<M: Sink>(
    wanted: bool,
    writer: &mut OrderedWriter,
    made: &mut M,
) -> Result<(), Failed>
    requires may_reach { MayReach writer.old writer.old.position (2 ^ 61) }
    ensures { LaysBy M.taken M.lent M.faults (IsErr result) result writer.old writer.new
        (padding_if wanted writer.old.position) made.old made.new }
{
    if wanted { writer.pad(made) } else { Ok(()) }
}

/// Lays a chunk for each group of the records that end at these places of values, and answers how
/// many of them are held in an open group, which isn't laid unless it is the last one.
pub(crate) fn lay_groups<M: Sink>(
    values: &[u8],
    ends: &[u64],
    last: bool,
    mut grouper: Grouper,
    chunk: &mut SimpleChunk,
    writer: &mut OrderedWriter,
    made: &mut M,
) -> Result<usize, LayEnd>
    requires cuts { AreCuts 0 ends.now (length values.now) }
    requires new { grouper ≡ new_grouping grouper.size grouper.every }
    requires going { writer.old.spent ≡ false }
    requires in_reach { reach_of writer.old.position grouper (length values.now + length ends.now) ≤ 2 ^ 61 }
    ensures laid { LaysBy M.taken M.lent M.faults (result ≡ Err LayEnd.Made) result writer.old writer.new
        (chunks_of_groups (groups_laid last
        (groups (records_cut values.now ends.now) grouper.size grouper.every)))
        made.old made.new }
    ensures held { IfOk result (λ held. held
        + length (records_laid (records_cut values.now ends.now) grouper.size grouper.every last)
        ≡ length ends.now) }
    ensures in_reach { OnOk result (writer.new.position ≤ 2 ^ 61) }
{
    lay_closed(values, ends, &mut grouper, chunk, writer, made)?;
    let Some(mut group) = grouper.finish() else {
        return Ok(0);
    };
    if !last {
        return Ok(group.len());
    }
    lay_group(&mut group, chunk, writer, made)?;
    Ok(0)
}

/// Lays the chunk of each group that closes before a record.
fn lay_closed<M: Sink>(
    values: &[u8],
    ends: &[u64],
    grouper: &mut Grouper,
    chunk: &mut SimpleChunk,
    writer: &mut OrderedWriter,
    made: &mut M,
) -> Result<(), LayEnd>
    requires cuts { AreCuts 0 ends.now (length values.now) }
    requires new { grouper.old.group ≡ [] }
    requires going { writer.old.spent ≡ false }
    requires in_reach { reach_of writer.old.position grouper.old
        (length values.now + length ends.now) ≤ 2 ^ 61 }
    ensures laid { LaysBy M.taken M.lent M.faults (result ≡ Err LayEnd.Made) result writer.old writer.new
        (chunks_of_groups
        (groups_laid false (groups_from grouper.old (records_cut values.now ends.now))))
        made.old made.new }
    ensures behind { OnOk result (groups_from grouper.old (records_cut values.now ends.now)
        ≡ groups_laid false (groups_from grouper.old (records_cut values.now ends.now))
        ++ groups_from grouper.new []) }
    ensures in_reach { OnOk result (reach_of writer.new.position grouper.new 0 ≤ 2 ^ 61) }
{
    let mut begin: usize = 0;
    let mut rest = ends;
    while let Some((end, behind)) = rest.split_first() {
        let end = *end as usize;
        lay_before(&values[begin..end], grouper, chunk, writer, made)?;
        begin = end;
        rest = behind;
    }
    Ok(())
}

/// Takes the next record, and lays the chunk of the group that closes before it, if one does.
fn lay_before<M: Sink>(
    rec: &[u8],
    grouper: &mut Grouper,
    chunk: &mut SimpleChunk,
    writer: &mut OrderedWriter,
    made: &mut M,
) -> Result<(), LayEnd>
    requires short { length rec.now ≤ 2 ^ 24 }
    requires going { writer.old.spent ≡ false }
    requires in_reach { reach_of writer.old.position grouper.old 0 ≤ 2 ^ 61 }
    ensures { LaysPushed M.taken M.lent M.faults (result ≡ Err LayEnd.Made) result
        grouper.old grouper.new rec.now writer.old writer.new made.old made.new }
{
    let Some(mut group) = push(rec, grouper)? else {
        return Ok(());
    };
    lay_group(&mut group, chunk, writer, made)?;
    grouper.reuse(group);
    Ok(())
}

/// Takes the next record, and gives the group that closes before it, if one does. Only then is the
/// record copied twice.
fn push(rec: &[u8], grouper: &mut Grouper) -> Result<Option<Records>, AllocError>
    requires { length rec.now ≤ 2 ^ 24 }
    ensures push { IfOk result (λ given. IsPush grouper.old rec.now given grouper.new) }
    ensures given { IfOk result (λ given. IfSome given (IsGivenGroup grouper.old.size grouper.old.every)) }
{
    if grouper.push_open(rec)? {
        return Ok(None);
    }
    grouper.push(rec)
}

/// Lays the chunk of a group, which is swapped for records whose memory can serve again.
fn lay_group<M: Sink>(
    group: &mut Records,
    chunk: &mut SimpleChunk,
    writer: &mut OrderedWriter,
    made: &mut M,
) -> Result<(), LayEnd>
    requires small { cost_of group.old ≤ 2 ^ 25 }
    requires may_reach { MayReach writer.old
        (end_of_chunk writer.old.position (simple_chunk group.old)) (2 ^ 62) }
    ensures { LaysBy M.taken M.lent M.faults (result ≡ Err LayEnd.Made) result writer.old writer.new
        (simple_chunk group.old ∷ []) made.old made.new }
{
    chunk.replace(group)?;
    chunk.encode();
    put_chunk(chunk, writer, made)?;
    Ok(())
}

/// Lays a chunk that is encoded, and answers where it begins.
fn put_chunk<M: Sink>(
    chunk: &SimpleChunk,
    writer: &mut OrderedWriter,
    made: &mut M,
) -> Result<u64, Failed>
    requires encoded { chunk.now.encoded ≡ true }
    requires may_reach { MayReach writer.old
        (end_of_chunk writer.old.position (simple_chunk chunk.now.records)) (2 ^ 62) }
    ensures { LaysBy M.taken M.lent M.faults (IsErr result) result writer.old writer.new
        (simple_chunk chunk.now.records ∷ []) made.old made.new }
{
    let (front, records) = chunk.data();
    let mut none = PutBuffer::<0>::new();
    writer.put_parts_into(&mut none, made, chunk.header(), front, records)
}
