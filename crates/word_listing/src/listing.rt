//! The words of an image's initial memory as text.

ghost use Rattle.std.specs.Prelude.{◌≡◌, ◌+◌, ◌≤◌, ◌^◌, ◌++◌, length, OnOk, string_bytes};
ghost use Rattle.guest_model.specs.AreaMap.{IsPageAligned, IsWithinSpace};
ghost use Rattle.elf32_loader.specs.LoadedImage.{image_of_loaded};
ghost use Rattle.sink_text.specs.TextOnSink.{WritesOn};
ghost use Rattle.word_listing.specs.Listing.{listing_text, listing_line};
ghost use Rattle.word_listing.specs.Pieces.{area_lines, bytes_lines};

use basic_types::NoMemory;
use elf32_loader::{Area, Loaded};
use guest_model::PAGE_SIZE;
use guest_streams::OutputFault;
use host_io::Sink;
use report_text::Address;
use rv32_text::WordText;
use sink_text::write_text;
use std::alloc::Global;

/// How many bytes of memory are listed at a time.
const PIECE: usize = PAGE_SIZE as usize;

/// Writes a line for each word of the initial memory that isn't 0, by rising addresses: the address in eight hexadecimal
/// digits, a space, the text of the word and a line feed. Each mapped address counts that is a multiple of 4, whatever
/// its word is for.
///
/// # Errors
/// `Write` where the sink failed, and `NoMemory` where there was no room for the lines of a page. The sink has a
/// beginning of the lines then.
pub fn write_listing<O: Sink>(
    alloc: Global,
    loaded: &Loaded,
    out: &mut O,
) -> Result<(), OutputFault>
    ensures { WritesOn O.Sink out.old out.new (listing_text (image_of_loaded loaded.now)) result }
{
    let mut lines = String::new(alloc);
    for area in loaded.areas.as_slice() {
        write_area(area, &mut lines, out)?;
    }
    Ok(())
}

/// Writes the lines of an area, a page at a time. `lines` has the room for a page's.
fn write_area<O: Sink>(area: &Area, lines: &mut String, out: &mut O) -> Result<(), OutputFault>
    requires aligned { IsPageAligned area.now }
    requires within { IsWithinSpace area.now }
    ensures { WritesOn O.Sink out.old out.new (area_lines area.now) result }
{
    let bytes = area.bytes.as_slice();
    for page in 0..bytes.len() / PIECE {
        let start = page * PIECE;
        lines.clear();
        let made = push_page(
            area.base + start as u32,
            &bytes[start..start + PIECE],
            lines,
        );
        if let Err(NoMemory) = made {
            return Err(OutputFault::NoMemory);
        }
        write_text(lines.as_str(), out)?;
    }
    Ok(())
}

/// Adds the lines of the words of a page that starts at this address.
fn push_page(base: u32, page: &[u8], lines: &mut String) -> Result<(), NoMemory>
    requires { base + length page.now ≤ 2 ^ 32 }
    ensures { OnOk result (string_bytes lines.new ≡ string_bytes lines.old ++ bytes_lines base page.now) }
{
    let (words, _) = page.as_chunks::<4>();
    for (index, word) in words.iter().enumerate() {
        let word = u32::from_le_bytes(*word);
        if word != 0 {
            push_line(base + 4 * index as u32, word, lines)?;
        }
    }
    Ok(())
}

/// Adds the line of a word at an address.
fn push_line(address: u32, word: u32, lines: &mut String) -> Result<(), NoMemory>
    ensures { OnOk result (string_bytes lines.new ≡ string_bytes lines.old ++ listing_line address word) }
{
    let address = Address(address);
    let word = WordText(word);
    write!(lines, "{address} {word}\n")?;
    Ok(())
}
