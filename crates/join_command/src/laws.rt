//! Laws of the definitions that contracts cite. Nothing runs here.

ghost use Rattle.std.specs.Prelude.{◌≡◌, ◌≢◌, List, ℕ};
ghost use Rattle.record_io.specs.Puts.{Notes, bytes_to};
ghost use Rattle.record_collect.specs.Gatherings.{AreRecordsOfEach, AreWoven, GatheredValue};
ghost use Rattle.command_frame.specs.Answers.{Answer};
ghost use Rattle.command_frame.specs.declared.status.Status.TheVariants as status;
ghost use Rattle.join_command.specs.CollectCommand.{AreCollectedIn, IsCollectAnswer, collected_answer};

/// Two answers to the same files have the same status and say the same in notes, and where the status isn't that of a whole run
/// they are one. Where it is, the answer is that of a weave of the files' records, and each weave of these gives an answer. Own.
pub fn answers_differ_by_their_weave()
    ensures status { (files : List (List ℕ)) (a b : Answer) → IsCollectAnswer files a → IsCollectAnswer files b → a.status ≡ b.status }
    ensures notes { (files : List (List ℕ)) (a b : Answer) → IsCollectAnswer files a → IsCollectAnswer files b
        → bytes_to Notes a.puts ≡ bytes_to Notes b.puts }
    ensures one { (files : List (List ℕ)) (a b : Answer) → IsCollectAnswer files a → IsCollectAnswer files b
        → a.status ≢ status.Ok → a ≡ b }
    ensures woven { (files : List (List ℕ)) (answer : Answer) → IsCollectAnswer files answer → answer.status ≡ status.Ok
        → AreCollectedIn files answer }
    ensures each { (files : List (List ℕ)) (answer : Answer) (lists : List (List (List ℕ))) (made : GatheredValue)
        → IsCollectAnswer files answer → answer.status ≡ status.Ok
        → AreRecordsOfEach files lists → AreWoven lists made.records made.numbers → IsCollectAnswer files (collected_answer made) }
{}
