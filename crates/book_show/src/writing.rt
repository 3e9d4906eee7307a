ghost use Rattle.std.specs.Prelude.{◌≡◌, Ok, Some};
ghost use Rattle.book_export.specs.Export.{IsExport};
ghost use Rattle.book_show.specs.Shown.{HasAnswered, HasFault, IsSomeText};

use crate::ShowError;
use book_commodity::{OutOfMemory, Text};
use book_export::ExportError;
use book_keeper::{Sink, write_all};
use book_listings::PresentBook;
use std::alloc::Global;

/// Writes a text, where there was memory for it.
/// OutOfMemory: there wasn't. Output: the output failed.
pub(crate) fn write_text<O: Sink>(
    output: &mut O,
    text: Result<Text, OutOfMemory>,
) -> Result<(), ShowError>
    ensures written { HasAnswered (O.written output.old) (O.written output.new)
        (λ answer. IsSomeText answer (λ it. text ≡ Ok it)) result }
    ensures faults { HasFault (O.faults output.old) (O.faults output.new) result }
{
    match text {
        Ok(text) => write_bytes(output, text.as_str().as_bytes()),
        Err(_) => Err(ShowError::OutOfMemory),
    }
}

/// Writes the text that was found, where there was memory for it.
/// Unknown: there is none. OutOfMemory: there was no memory. Output: the output failed.
pub(crate) fn write_found<O: Sink>(
    output: &mut O,
    found: Result<Option<Text>, OutOfMemory>,
) -> Result<(), ShowError>
    ensures written { HasAnswered (O.written output.old) (O.written output.new) (λ answer. found ≡ Ok answer) result }
    ensures faults { HasFault (O.faults output.old) (O.faults output.new) result }
{
    match found {
        Ok(Some(text)) => write_bytes(output, text.as_str().as_bytes()),
        Ok(None) => Err(ShowError::Unknown),
        Err(_) => Err(ShowError::OutOfMemory),
    }
}

/// Writes bytes.
fn write_bytes<O: Sink>(output: &mut O, bytes: &[u8]) -> Result<(), ShowError>
    ensures written { HasAnswered (O.written output.old) (O.written output.new) (λ answer. answer ≡ Some bytes.now)
        result }
    ensures faults { HasFault (O.faults output.old) (O.faults output.new) result }
{
    match write_all(output, bytes) {
        Ok(()) => Ok(()),
        Err(_) => Err(ShowError::Output),
    }
}

/// Writes the whole book as a journal, one piece after another.
/// OutOfMemory: the program is out of memory. Output: the output failed.
pub(crate) fn write_journal<O: Sink>(
    alloc: Global,
    book: &PresentBook,
    output: &mut O,
) -> Result<(), ShowError>
    ensures written { HasAnswered (O.written output.old) (O.written output.new)
        (λ answer. IsSomeText answer (IsExport book.now)) result }
    ensures faults { HasFault (O.faults output.old) (O.faults output.new) result }
{
    match book.write_to(alloc, output) {
        Ok(()) => Ok(()),
        Err(ExportError::Memory) => Err(ShowError::OutOfMemory),
        Err(ExportError::Output) => Err(ShowError::Output),
    }
}
