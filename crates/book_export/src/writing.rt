ghost use Rattle.std.specs.Prelude.{◌≡◌, ℕ, List, IfOk};
ghost use Rattle.book_export.specs.Export.{HasFault, HasWritten};

use crate::ExportError;
use book_commodity::OutOfMemory;
use book_keeper::{Sink, write_all};

/// Writes a piece, where there was memory for it.
/// Memory: there wasn't. Output: the output failed.
pub(crate) fn write_piece<O: Sink>(
    output: &mut O,
    piece: Result<Vec<u8>, OutOfMemory>,
) -> Result<(), ExportError>
    ensures written { (text : List ℕ) → IfOk piece (λ bytes. bytes.items ≡ text)
        → HasWritten (O.written output.old) (O.written output.new) text result }
    ensures faults { HasFault (O.faults output.old) (O.faults output.new) result }
{
    match piece {
        Ok(bytes) => write_bytes(output, bytes.as_slice()),
        Err(_) => Err(ExportError::Memory),
    }
}

/// Writes bytes.
fn write_bytes<O: Sink>(output: &mut O, bytes: &[u8]) -> Result<(), ExportError>
    ensures written { HasWritten (O.written output.old) (O.written output.new) bytes.now result }
    ensures faults { HasFault (O.faults output.old) (O.faults output.new) result }
{
    match write_all(output, bytes) {
        Ok(()) => Ok(()),
        Err(_) => Err(ExportError::Output),
    }
}
