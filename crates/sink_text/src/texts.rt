//! Texts on one sink.

ghost use Rattle.std.specs.Prelude.{◌≡◌, ℕ, List, IfOk, string_bytes};
ghost use Rattle.sink_text.specs.TextOnSink.{WritesOn};

use guest_model::NoMemory;
use guest_streams::OutputFault;
use host_io::{Failed, Sink, write_whole};

/// Writes bytes whole.
///
/// # Errors
/// `Write` where the sink failed. It has a beginning of the bytes then.
pub fn write_bytes<O: Sink>(bytes: &[u8], out: &mut O) -> Result<(), OutputFault>
    ensures { WritesOn O.Sink out.old out.new bytes.now result }
{
    match write_whole(out, bytes) {
        Ok(()) => Ok(()),
        Err(Failed) => Err(OutputFault::Write),
    }
}

/// Writes a text whole.
///
/// # Errors
/// `Write` where the sink failed. It has a beginning of the text then.
pub fn write_text<O: Sink>(text: &str, out: &mut O) -> Result<(), OutputFault>
    ensures { WritesOn O.Sink out.old out.new text.now result }
{
    write_bytes(text.as_bytes(), out)
}

/// Writes a text whole, if there was room for it.
///
/// # Errors
/// `Write` where the sink failed, which has a beginning of the text then, and `NoMemory` where there was no room for the
/// text, of which nothing is written then.
pub fn write_made<O: Sink>(made: Result<String, NoMemory>, out: &mut O) -> Result<(), OutputFault>
    ensures { (text : List ℕ) → IfOk made (λ line. string_bytes line ≡ text) → WritesOn O.Sink out.old out.new text result }
{
    match made {
        Ok(text) => write_text(text.as_str(), out),
        Err(NoMemory) => Err(OutputFault::NoMemory),
    }
}
