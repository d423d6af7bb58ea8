//! Laws of the definitions that contracts cite. Nothing runs here.

ghost use Rattle.std.specs.List.{AllByRecursion, flat_map};
ghost use Rattle.std.specs.List.Sorted.{IsStrictlyIncreasing};
ghost use Rattle.std.specs.Prelude.{◌≡◌, ◌≢◌, ◌^◌, ◌≤◌, ◌⊎◌, ◌∷◌, ◌++◌, if◌then◌else◌, is_some, true, false, Option, None, List, [], ℕ, length, map, slice_get, take};
ghost use Rattle.chunk_header.specs.Chunks.{ChunkValue};
ghost use Rattle.chunk_reader.specs.Faults.{HasNoFault};
ghost use Rattle.meta_chunk.specs.Files.{totals_of, IsReadable, IsWellFormed, AreRecordsOf, ArePlaced};
ghost use Rattle.meta_chunk.specs.Chains.{IsWellFormedChain};
ghost use Rattle.record_join.specs.Joined.{joined};
ghost use Rattle.show_command.specs.Readings.{refused_file_text};
ghost use Rattle.join_command.specs.CollectCommand.{AreCollectedIn, IsCollectAnswer, collected_file, collected_lines};
ghost use Rattle.join_command.specs.JoinCommand.{AreJoinedIn, AreJoinedToFaultIn, IsJoinAnswer};
ghost use Rattle.record_group.specs.Records.{AreRecords};
ghost use Rattle.record_values.specs.Bytes.{AreBytes};
ghost use Rattle.record_io.specs.Puts.{Made, Out, Notes, puts_to, bytes_to};
ghost use Rattle.record_seek.specs.Found.{BytesStandBefore, OnlyFrontStandsBefore};
ghost use Rattle.record_seek.specs.FirstRecords.{IsFirstAt};
ghost use Rattle.record_writer.specs.Feeds.{Rest};
ghost use Rattle.record_writer.specs.Written.{file_under};
ghost use Rattle.record_writer.specs.OptionLimits.{AreInLimits};
ghost use Rattle.damage_skip.specs.FilePieces.{placed_in};
ghost use Rattle.repair_copy.specs.RepairPuts.{chunks_in};
ghost use Rattle.repair_copy.specs.RelaidFiles.{relaid};
ghost use Rattle.command_frame.specs.Answers.{Answer, line};
ghost use Rattle.riegeli_tool.specs.Commands.{accepted};
ghost use Rattle.command_frame.specs.Meanings.{Read};
ghost use Rattle.riegeli_tool.specs.CommandAnswers.{meaning_of};
ghost use Rattle.riegeli_tool.specs.AnswersTo.{IsAnswerTo, answers_once};
ghost use Rattle.record_append.specs.Grown.{IsKeptTo, IsUnrefused};
ghost use Rattle.command_frame.specs.FileAnswers.{OfFile, most_file_bytes, report};
ghost use Rattle.show_command.specs.Readings.{bare, record_line};
ghost use Rattle.show_command.specs.RecordForms.{digits_alone};
ghost use Rattle.write_command.specs.Input.{taken_from};
ghost use Rattle.write_command.specs.LastLines.{with_last_end};
ghost use Rattle.recover_command.specs.RecoverCommand.{IsRecovered};
ghost use Rattle.record_ranges.specs.RangesCommand.{AreOneFile, IsRangesAnswer, MayBeRead, most_range_bytes};
ghost use Rattle.riegeli_tool.specs.AppendCommand.{IsAppended, IsLeft, grown_answer, grown_text, lines_taken};
ghost use Rattle.riegeli_tool.specs.RepairCommand.{end_puts, IsRepaired};
ghost use Rattle.command_frame.specs.Runs.{Runs};
ghost use Rattle.command_frame.specs.NoFaults.{HadNoFault};
ghost use Rattle.command_frame.specs.RunReads.{IfAnswered};
ghost use Rattle.command_frame.specs.RunAnswers.{IsWhole};
ghost use Rattle.command_frame.specs.RunObjects.{Seen};
ghost use Rattle.sample_command.specs.SampleCommand.{sampled, sample_answer, sample_file, sample_summary};
ghost use Rattle.show_command.specs.ShowCommand.{IsShown};
ghost use Rattle.show_command.specs.VerifyCommand.{IsVerified};
ghost use Rattle.damage_skip.specs.Bounds.{walked, refused_in};
ghost use Rattle.damage_skip.specs.Regions.{regions_in, walk_text};
ghost use Rattle.seek_command.specs.Searches.{IsBelow};
ghost use Rattle.seek_command.specs.SeekCommand.{IsSeekAnswer, found_answer};
ghost use Rattle.seek_command.specs.declared.seek_words.By.TheVariants.{At, Key};
ghost use Rattle.seek_command.specs.declared.seek_words.SeekWords.{SeekWords};
ghost use Rattle.write_command.specs.WriteCommand.{stop_text, answer_to, write_answer};
ghost use Rattle.riegeli_tool.specs.declared.append_words.AppendWords.{AppendWords};
ghost use Rattle.riegeli_tool.specs.declared.command.Command.{Command};
ghost use Rattle.recover_command.specs.declared.recover_words.RecoverWords.{RecoverWords};
ghost use Rattle.riegeli_tool.specs.declared.repair_words.RepairWords.{RepairWords};
ghost use Rattle.sample_command.specs.declared.sample_words.SampleWords.{SampleWords};
ghost use Rattle.show_command.specs.declared.show_words.ShowWords.{ShowWords};
ghost use Rattle.command_frame.specs.declared.status.Status.{Status};
ghost use Rattle.command_frame.specs.declared.status.Status.TheVariants as status;
ghost use Rattle.write_command.specs.declared.write_words.WriteWords.{WriteWords};

use record_writer::WriteOptions;
use simple_chunk::Records;

/// Words have one answer at most, of what is read, unless they search by key or collect. Own.
pub fn answers_are_one()
    ensures one { (words : List (List ℕ)) (r : Read) (a b : Answer)
        → answers_once (accepted words (length r.files)) ≡ true
        → IsAnswerTo (accepted words (length r.files)) r a → IsAnswerTo (accepted words (length r.files)) r b → a ≡ b }
{}

/// Where no object that a command uses had a fault, the status of a run of it is one of a whole answer, or tells want of memory:
/// an answer's, where what it reads is shown, or that one. So the status of a fault never stands without one. Own.
pub fn no_fault_without_a_cause()
    ensures whole { (command : Option Command) (before after : Seen) (ended : Status)
        → Runs (meaning_of command) before after ended → HadNoFault (meaning_of command).uses before after
        → IsWhole ended ⊎ (ended ≡ status.Memory) }
    ensures answers { (command : Option Command) (before after : Seen) (ended : Status)
        → Runs (meaning_of command) before after ended → HadNoFault (meaning_of command).uses before after
        → IfAnswered (meaning_of command) before (λ answer. (ended ≡ answer.status)
        ⊎ (ended ≡ status.Memory)) }
{}

/// Words that are no command end with the status of usage, or with that of a fault of notes. Own.
pub fn no_command_is_usage()
    ensures usage { (before after : Seen) (ended : Status)
        → Runs (meaning_of None) before after ended → (ended ≡ status.Usage) ⊎ (ended ≡ status.Notes) }
{}

/// An answer doesn't depend on what its command doesn't use. Own.
pub fn answers_stand_on_what_is_used()
    ensures input { (words : List (List ℕ)) (r : Read) (other : List ℕ) (a : Answer)
        → (meaning_of (accepted words (length r.files))).uses.input ≡ false
        → IsAnswerTo (accepted words (length r.files)) r a → IsAnswerTo (accepted words (length r.files)) (record r { input = other }) a }
    ensures files { (words : List (List ℕ)) (count : ℕ) (r : Read) (others : List (List ℕ)) (a : Answer)
        → (meaning_of (accepted words count)).uses.files ≡ false
        → IsAnswerTo (accepted words count) r a → IsAnswerTo (accepted words count) (record r { files = others }) a }
    ensures grown { (words : List (List ℕ)) (r : Read) (other : List ℕ) (a : Answer)
        → (meaning_of (accepted words (length r.files))).uses.grown ≡ false
        → IsAnswerTo (accepted words (length r.files)) r a → IsAnswerTo (accepted words (length r.files)) (record r { grown = other }) a }
{}

/// Each file of bytes has an answer of `show`, whatever its words, also of those that go on past damage, one of `verify`,
/// one of `seek` for each position and key, one of `repair`, and with each input one of `append`; and files have one of `join`, one
/// of `collect`, and one of `ranges` where they are one file, once their sizes let it be read. So all words have an answer, of the
/// bytes of any input and files of which holds what the command supposes. Own.
pub fn file_answers_exist()
    ensures show { (words : ShowWords) (file : List ℕ) → AreBytes file → (answer : Answer) × IsShown words file answer }
    ensures recover { (words : RecoverWords) (file : List ℕ) → AreBytes file → (answer : Answer) × IsRecovered words file answer }
    ensures verify { (file : List ℕ) → AreBytes file → (answer : Answer) × IsVerified file answer }
    ensures seek { (words : SeekWords) (file : List ℕ) → AreBytes file → (answer : Answer) × IsSeekAnswer words file answer }
    ensures repair { (words : RepairWords) (file : List ℕ) → AreBytes file → (answer : Answer) × IsRepaired words file answer }
    ensures join { (files : List (List ℕ)) → files ≢ [] → AllByRecursion AreBytes files → (answer : Answer) × IsJoinAnswer files answer }
    ensures collect { (files : List (List ℕ)) → AllByRecursion AreBytes files → (answer : Answer) × IsCollectAnswer files answer }
    ensures ranges { (files : List (List ℕ)) → files ≢ [] → AllByRecursion AreBytes files
        → (MayBeRead (map length files) → AreOneFile files) → (answer : Answer) × IsRangesAnswer files answer }
    ensures append { (words : AppendWords) (input file : List ℕ) → AreBytes file
        → (answer : Answer) × OfFile (IsAppended words (lines_taken words input)) (file ∷ []) answer }
    ensures all { (words : List (List ℕ)) (r : Read)
        → AllByRecursion AreBytes r.files → AreBytes r.grown → (meaning_of (accepted words (length r.files))).supposes r
        → (answer : Answer) × IsAnswerTo (accepted words (length r.files)) r answer }
{}

/// What each stream takes of an answer: the made file, standard output and notes. Of `verify`, of `seek` and of words that are
/// no command the definition says it: their answers go to one stream. Own.
pub fn streams_take_their_parts()
    ensures write { (words : WriteWords) (rest : Rest)
        → (bytes_to Made (answer_to words rest).puts ≡ file_under words.options rest.records)
        × (bytes_to Out (answer_to words rest).puts ≡ [])
        × (bytes_to Notes (answer_to words rest).puts ≡ stop_text (length rest.records) rest.stop) }
    ensures show { (words : ShowWords) (file : List ℕ) (answer : Answer) (is : IsShown words file answer)
        → (bytes_to Made answer.puts ≡ [])
        × (bytes_to Out answer.puts ≡ flat_map (record_line words.form) is.placed)
        × (bytes_to Notes answer.puts ≡ is.said) }
    ensures recover { (words : RecoverWords) (file : List ℕ) (answer : Answer) (is : IsRecovered words file answer)
        → (bytes_to Made answer.puts ≡ [])
        × (bytes_to Out answer.puts ≡ flat_map (record_line words.show.form) (placed_in (walked words.most is.events)))
        × (bytes_to Notes answer.puts ≡ walk_text (regions_in (walked words.most is.events)) (refused_in words.most is.events)) }
    ensures repair { (words : RepairWords) (file : List ℕ) (answer : Answer) (is : IsRepaired words file answer)
        → (bytes_to Made answer.puts ≡ relaid (walked words.most is.events))
        × (bytes_to Out answer.puts ≡ bytes_to Out (end_puts (refused_in words.most is.events) (chunks_in (walked words.most is.events))))
        × (bytes_to Notes answer.puts ≡ walk_text (regions_in (walked words.most is.events)) (refused_in words.most is.events)) }
    ensures sample { (words : SampleWords)
        → (bytes_to Made (sample_answer words).puts ≡ sample_file words)
        × (bytes_to Out (sample_answer words).puts ≡ sample_summary words)
        × (bytes_to Notes (sample_answer words).puts ≡ []) }
    ensures join { (files : List (List ℕ)) (answer : Answer) (is : AreJoinedIn files answer)
        → (bytes_to Made answer.puts ≡ joined files)
        × (bytes_to Out answer.puts ≡ report (totals_of is.chunks))
        × (bytes_to Notes answer.puts ≡ []) }
    ensures refused_join { (files : List (List ℕ)) (answer : Answer) (is : AreJoinedToFaultIn files answer)
        → (bytes_to Made answer.puts ≡ joined (take is.index files))
        × (bytes_to Out answer.puts ≡ [])
        × (bytes_to Notes answer.puts ≡ refused_file_text is.index is.fault) }
    ensures ranges { (files : List (List ℕ)) (answer : Answer) → IsRangesAnswer files answer
        → (bytes_to Made answer.puts ≡ [])
        × (answer.status ≢ status.Ok → bytes_to Out answer.puts ≡ [])
        × (answer.status ≡ status.Ok → bytes_to Notes answer.puts ≡ []) }
    ensures append { (words : AppendWords) (file : List ℕ) (place : ℕ) (rest : Rest)
        → (bytes_to Made (grown_answer words file place rest).puts ≡ [])
        × (bytes_to Out (grown_answer words file place rest).puts ≡ (if is_some rest.stop then [] else grown_text words file place rest.records))
        × (bytes_to Notes (grown_answer words file place rest).puts ≡ stop_text (length rest.records) rest.stop) }
    ensures collect { (files : List (List ℕ)) (answer : Answer) (is : AreCollectedIn files answer)
        → (bytes_to Made answer.puts ≡ collected_file is.made.records)
        × (bytes_to Out answer.puts ≡ collected_lines is.made)
        × (bytes_to Notes answer.puts ≡ []) }
{}

/// Where all stores show one file, of at most 2^28 bytes, `ranges` ends as `show` of that file, without options, does, and says
/// the same in notes; and where the file has no fault it prints the same: the records as they are, with nothing before them. Own.
pub fn ranges_print_what_show_prints()
    ensures same { (words : ShowWords) (files : List (List ℕ)) (file : List ℕ) (shown answer : Answer)
        → files ≢ [] → AllByRecursion (λ other. other ≡ file) files → length file ≤ most_range_bytes → words.form ≡ bare
        → IsShown words file shown → IsRangesAnswer files answer
        → (answer.status ≡ shown.status) × (bytes_to Notes answer.puts ≡ bytes_to Notes shown.puts)
        × (HasNoFault false file → answer ≡ shown) }
{}

/// Of a file without fault nothing is skipped: where it goes on past damage, `show` prints what it prints else, and says
/// nothing. Own.
pub fn recovering_shows_files_without_fault()
    ensures same { (words : RecoverWords) (file : List ℕ) (a b : Answer)
        → HasNoFault false file → IsShown words.show file a → IsRecovered words file b → b ≡ a }
    ensures ok { (words : RecoverWords) (file : List ℕ) (answer : Answer)
        → HasNoFault false file → IsRecovered words file answer → (bytes_to Notes answer.puts ≡ []) × (answer.status ≡ status.Ok) }
{}

/// In a file without fault, of at most 2^60 bytes, `seek` is never refused. For a position it prints the record of least position
/// at or past it, and for a key the first record that isn't less, where those of a front are less and no others; where there
/// is no such record it says so. Own.
pub fn seek_finds_records_of_files_without_fault()
    ensures position { (words : SeekWords) (position : ℕ) (ks : List ChunkValue) (file : List ℕ) (placed : List (ℕ × List ℕ)) (answer : Answer)
        → words.by ≡ At position → IsReadable ks file → length file ≤ 2 ^ 60 → ArePlaced ks placed
        → IsSeekAnswer words file answer
        → (found : Option (ℕ × List ℕ)) × IsFirstAt placed position found × (answer ≡ found_answer words.hex found) }
    ensures key { (words : SeekWords) (key : List ℕ) (ks : List ChunkValue) (file : List ℕ) (placed : List (ℕ × List ℕ)) (count : ℕ) (answer : Answer)
        → words.by ≡ Key key → IsReadable ks file → length file ≤ 2 ^ 60 → ArePlaced ks placed
        → OnlyFrontStandsBefore (BytesStandBefore (IsBelow key)) placed count → IsSeekAnswer words file answer
        → answer ≡ found_answer words.hex (slice_get placed count) }
{}

/// Records of at most 2^24 bytes each, written under a size of at most 2^24, read back: their file has no fault, and
/// its records are these, at positions that rise. Own.
pub fn read_back(records: &Records, options: &WriteOptions)
    requires short { AllByRecursion (λ bytes. length bytes ≤ 2 ^ 24) records.now }
    requires size { options.now.size ≤ 2 ^ 24 }
    ensures faultless { HasNoFault false (file_under options.now records.now) }
    ensures records { (ks : List ChunkValue) → IsReadable ks (file_under options.now records.now)
        → AreRecordsOf ks records.now }
    ensures placed { (ks : List ChunkValue) (placed : List (ℕ × List ℕ))
        → IsReadable ks (file_under options.now records.now) → ArePlaced ks placed
        → (map (λ p. p.1) placed ≡ records.now) × IsStrictlyIncreasing (map (λ p. p.0) placed) }
{
    let _values = records.values();
}

/// `show` of the file that `write` made, which is never too large to be read, prints the records that `write` took, each
/// as a line, and says nothing. Where nothing stopped `write`, which read no hexadecimal form, it prints the input, with a
/// byte 10 behind the last line too. Own.
pub fn show_prints_what_was_written()
    ensures fits { (write : WriteWords) (input : List ℕ) → length (bytes_to Made (write_answer write input).puts) ≤ most_file_bytes }
    ensures records { (write : WriteWords) (words : ShowWords) (input : List ℕ) (answer : Answer)
        → AreInLimits write.options → AreBytes input → words.form ≡ bare
        → IsShown words (bytes_to Made (write_answer write input).puts) answer
        → answer ≡ record { puts = puts_to Out (flat_map line (taken_from input write.hex (2 ^ 40)).records); status = status.Ok } }
    ensures input { (write : WriteWords) (words : ShowWords) (input : List ℕ) (answer : Answer)
        → AreInLimits write.options → AreBytes input → write.hex ≡ false → words.form ≡ bare
        → (write_answer write input).status ≡ status.Ok
        → IsShown words (bytes_to Made (write_answer write input).puts) answer
        → answer ≡ record { puts = puts_to Out (with_last_end input); status = status.Ok } }
{}

/// What `sample` makes has no fault, and its records are those of the seed. Own.
pub fn samples_read_back()
    ensures faultless { (words : SampleWords) → AreInLimits words.options → HasNoFault false (sample_file words) }
    ensures records { (words : SampleWords) (ks : List ChunkValue)
        → AreInLimits words.options → IsReadable ks (sample_file words)
        → AreRecordsOf ks (sampled words) }
{}

/// What `append` leaves of a file that isn't refused reads back: it has the records of the chunks that are kept of that, and then
/// those of the input's lines. Of a file without fault it leaves one. Own.
pub fn grown_files_read_back()
    ensures kept { (words : AppendWords) (input file held : List ℕ) (place : ℕ) (ks : List ChunkValue) (old : List (List ℕ))
        → AreInLimits words.write.options → AreBytes input → length file ≤ most_file_bytes → IsUnrefused words.cut file
        → IsWellFormedChain ks file place → IsKeptTo file place → AreRecordsOf ks old
        → IsLeft words (lines_taken words input) file held
        → (new : List ChunkValue) × IsWellFormed (ks ++ new) held
        × AreRecordsOf (ks ++ new) (old ++ (lines_taken words input).records) }
    ensures faultless { (words : AppendWords) (input file held : List ℕ) (ks : List ChunkValue) (old : List (List ℕ))
        → AreInLimits words.write.options → AreBytes input → length file ≤ most_file_bytes
        → IsReadable ks file → AreRecordsOf ks old
        → IsLeft words (lines_taken words input) file held
        → (new : List ChunkValue) × IsReadable (ks ++ new) held
        × AreRecordsOf (ks ++ new) (old ++ (lines_taken words input).records) }
{}

/// Records that `show` prints in the hexadecimal form, without positions, are those that `write` takes of the text in that form,
/// where it is no longer than `write` reads. Own.
pub fn digits_are_read_back()
    ensures { (placed : List (ℕ × List ℕ)) (limit : ℕ) → AreRecords (map (λ p. p.1) placed)
        → length (flat_map (record_line digits_alone) placed) ≤ limit
        → taken_from (flat_map (record_line digits_alone) placed) true limit ≡ record { records = map (λ p. p.1) placed; stop = None } }
{}
