ghost use Rattle.std.specs.Prelude.{◌≡◌, ℕ, ◌++◌, ◌<◌, ◌∷◌, IfOk, OnOk, decimal, length};
ghost use Rattle.std.specs.List.{AllByRecursion};
ghost use Rattle.record_collect.specs.Batches.{numbers_in, numbers_in_span};
ghost use Rattle.command_frame.specs.Answers.{line};
ghost use Rattle.join_command.specs.CollectCommand.{collected_lines, file_lines, files_lines};

use command_frame::DEFAULT_CHUNK_SIZE;
use itoa::Buffer;
use record_collect::{Batches, Numbers, Span, places_in_turn};
use std::alloc::{AllocError, Global};

/// The lines of the gathered records of so many files.
pub(crate) fn lines_of(
    alloc: Global,
    gathered: &Batches,
    files: usize,
) -> Result<Vec<u8>, AllocError>
    requires { length gathered.now.numbers ≡ files }
    ensures { IfOk result (λ text. text.items ≡ collected_lines gathered.now) }
{
    let places = places_in_turn(alloc, gathered.batches(), DEFAULT_CHUNK_SIZE)?;
    lines_at(alloc, gathered, &places, files)
}

/// Those of records that stand at these positions.
fn lines_at(
    alloc: Global,
    gathered: &Batches,
    places: &Numbers,
    files: usize,
) -> Result<Vec<u8>, AllocError>
    requires many { length gathered.now.numbers ≡ files }
    requires placed { AllByRecursion (AllByRecursion (λ n. n < length places.now)) gathered.now.numbers }
    ensures { IfOk result (λ text. text.items ≡ files_lines places.now gathered.now.numbers) }
{
    let mut text = Vec::new(alloc);
    for file in 0..files {
        push_file(&mut text, file as u64, gathered.spans(file), places)?;
    }
    Ok(text)
}

/// Appends a line for each record of a file, by their numbers among all that were gathered.
fn push_file(
    text: &mut Vec<u8>,
    file: u64,
    spans: &[Span],
    places: &Numbers,
) -> Result<(), AllocError>
    requires { AllByRecursion (λ n. n < length places.now) (numbers_in spans.now) }
    ensures { OnOk result (text.new.items ≡ text.old.items ++ file_lines places.now (file, numbers_in spans.now)) }
{
    let mut buffer = Buffer::new();
    let file_number = buffer.format(file).as_bytes();
    for i in 0..spans.len() {
        push_span(text, file_number, spans[i], places)?;
    }
    Ok(())
}

/// Appends a line for each record of a span of numbers, with the number of its file.
fn push_span(
    text: &mut Vec<u8>,
    file: &[u8],
    span: Span,
    places: &Numbers,
) -> Result<(), AllocError>
    requires { AllByRecursion (λ n. n < length places.now) (numbers_in_span span) }
    ensures { (number : ℕ) → file.now ≡ decimal number
        → OnOk result (text.new.items ≡ text.old.items ++ file_lines places.now (number, numbers_in_span span)) }
{
    for number in span.first..span.first + span.count {
        push_place(text, file, places.get(number as usize))?;
    }
    Ok(())
}

/// Appends the line of a record, which begins with the number of its file.
fn push_place(text: &mut Vec<u8>, file: &[u8], place: u64) -> Result<(), AllocError>
    ensures { OnOk result (text.new.items ≡ text.old.items ++ line (file.now ++ 32 ∷ decimal place)) }
{
    let mut position = Buffer::new();
    text.extend_from_slice(file)?;
    text.push(b' ')?;
    text.extend_from_slice(position.format(place).as_bytes())?;
    text.push(b'\n')?;
    Ok(())
}
