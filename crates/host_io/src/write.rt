ghost use Rattle.std.specs.Prelude.{◌≤◌};
ghost use Rattle.host_io.specs.Faults.{CountsFaults};
ghost use Rattle.host_io.specs.Writes.{WritesWhole};

use crate::failed::Failed;
use crate::sink::Sink;

/// Writes all of `bytes`, in as many calls as the sink needs.
///
/// # Errors
/// `Failed` at the first call that fails. What was appended by then is a prefix of `bytes` that is
/// shorter than `bytes`.
pub fn write_whole<S: Sink>(sink: &mut S, bytes: &[u8]) -> Result<(), Failed>
    ensures written { WritesWhole (S.contents sink.old) (S.contents sink.new) result bytes.now }
    ensures counted { CountsFaults (S.faults sink.old) (S.faults sink.new) result }
    ensures grows { S.faults sink.old ≤ S.faults sink.new }
{
    let mut done = 0;
    while done < bytes.len() {
        done += sink.write(&bytes[done..])?;
    }
    Ok(())
}
