ghost use Rattle.std.specs.Prelude.{OnOk, OnErr};
ghost use Rattle.book_keeper.specs.Faults.{HasCause};
ghost use Rattle.book_keeper.specs.Stream.{Wrote, WrotePart};

use crate::{Failed, Sink};

/// Writes all the bytes, in as many calls as the sink wants; the sink's count of faults stays. Failed where a call
/// failed: then a front part of the bytes was written and not all, and the count rose.
pub fn write_all<O: Sink>(output: &mut O, bytes: &[u8]) -> Result<(), Failed>
    ensures ok { OnOk result (Wrote (O.written output.old) (O.written output.new) bytes.now) }
    ensures err { OnErr result (WrotePart (O.written output.old) (O.written output.new) bytes.now) }
    ensures cause { HasCause (O.faults output.old) (O.faults output.new) result }
{
    let mut rest = bytes;
    while !rest.is_empty() {
        let count = output.write(rest)?;
        rest = &rest[count..];
    }
    Ok(())
}
