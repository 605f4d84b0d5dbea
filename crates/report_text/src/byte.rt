//! Bytes as text.

ghost use Rattle.std.specs.Prelude.{◌≡◌, ◌++◌, OnOk, flat_map, string_bytes};
ghost use Rattle.report_text.specs.Texts.{byte_text};

use basic_types::NoMemory;
use std::fmt;

/// A byte, which prints as two hexadecimal digits in lower case.
#[derive(Clone, Copy)]
struct ByteText(u8);

#[tactic(auto, using(std::proofs::lemmas::Fmt::hex_byte))]
impl fmt::Display for ByteText {
    ghost use Rattle.std.specs.Prelude.{Some};
    ghost use Rattle.report_text.specs.Texts.{byte_text};

    ghost output = { λ b. Some (byte_text b.0) };

    fn fmt<W: fmt::Write>(&self, f: &mut fmt::Formatter<W>) -> fmt::Result {
        let byte = self.0;
        write!(f, "{byte:02x}")
    }
}

/// Adds two hexadecimal digits in lower case for each byte.
///
/// # Errors
/// `NoMemory` where there is no room for them. The text has a beginning of them then.
pub fn write_digits(bytes: &[u8], text: &mut String) -> Result<(), NoMemory>
    ensures { OnOk result (string_bytes text.new ≡ string_bytes text.old ++ flat_map byte_text bytes.now) }
{
    for byte in bytes {
        let digits = ByteText(*byte);
        write!(text, "{digits}")?;
    }
    Ok(())
}
