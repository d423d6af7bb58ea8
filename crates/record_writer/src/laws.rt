//! Laws of the definitions that contracts cite. Nothing runs here.

ghost use Rattle.std.specs.Prelude.{◌≡◌, ℕ, List, ◌++◌};
ghost use Rattle.meta_chunk.specs.Files.{signature_bytes};
ghost use Rattle.record_writer.specs.declared.options.WriteOptions.{WriteOptions};
ghost use Rattle.record_writer.specs.Written.{file_under};
ghost use Rattle.record_writer.specs.WriteAnswers.{tail_under};

/// The file of records is the signature's 64 bytes and, behind them, the chunks of records from there on. Own.
pub fn file_is_signature_and_tail()
    ensures { (options : WriteOptions) (records : List (List ℕ))
        → file_under options records ≡ signature_bytes ++ tail_under options 64 records }
{}
