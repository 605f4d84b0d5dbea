//! Reading an image, the input, and other files.

ghost use Rattle.std.specs.Prelude.{◌≡◌, ◌≢◌, false, IsOk};
ghost use Rattle.fasttrack_program.specs.Plan.{bytes_in, image_in, input_in};
ghost use Rattle.fasttrack_program.specs.declared.answer.Answer.TheVariants.{ReadFault};
ghost use Rattle.fasttrack_program.specs.Reading.{CountsReadFault, Reads, loaded_image};

use crate::answer::Answer;
use basic_types::MOST_INPUT;
use elf32_loader::{ImageFault, Loaded, load};
use guest_model::Bytes;
use host_io::{Files, Source, Took, take_file, take_source};
use std::alloc::Global;

/// The most bytes of an image file.
const IMAGE_LIMIT: u64 = 33_554_432;

/// Reads the image file `name` and loads its image.
///
/// # Errors
/// `ReadFault` where a read failed, `ImageTooLong` and `BadImage` where the file is refused, and `NoMemory`.
pub fn read_image<F: Files>(alloc: Global, files: &mut F, name: &str) -> Result<Loaded, Answer>
    ensures reads { Reads image_in (F.contents files.old name.now) (loaded_image result) }
    ensures counted { CountsReadFault (F.faults files.old) (F.faults files.new) result }
    ensures held { F.contents files.new ≡ F.contents files.old }
{
    match take_file(alloc, files, name, IMAGE_LIMIT) {
        Took::Failed => Err(Answer::ReadFault),
        Took::TooLong => Err(Answer::ImageTooLong),
        Took::NoMemory => Err(Answer::NoMemory),
        Took::Whole(bytes) => match load(alloc, bytes.as_slice()) {
            Ok(loaded) => Ok(loaded),
            Err(ImageFault::NoMemory) => Err(Answer::NoMemory),
            Err(fault) => Err(Answer::BadImage(fault)),
        },
    }
}

/// Reads the input whole, if it is wanted; else it is left unread, and the guest's is empty.
///
/// # Errors
/// `ReadFault` where a read failed, `InputTooLong` where the input is refused, and `NoMemory`.
pub fn read_input<I: Source>(alloc: Global, wanted: bool, input: &mut I) -> Result<Bytes, Answer>
    ensures reads { Reads (input_in wanted) (I.remaining input.old) result }
    ensures counted { CountsReadFault (I.faults input.old) (I.faults input.new) result }
    ensures unread { wanted ≡ false → (input.new ≡ input.old) × IsOk result }
{
    if !wanted {
        return Ok(Bytes::new(alloc));
    }
    match take_source(alloc, input, MOST_INPUT) {
        Took::Failed => Err(Answer::ReadFault),
        Took::TooLong => Err(Answer::InputTooLong),
        Took::NoMemory => Err(Answer::NoMemory),
        Took::Whole(bytes) => Ok(bytes),
    }
}

/// Reads the file `name` whole, if it has at most `limit` bytes.
///
/// # Errors
/// `ReadFault` where a read failed, `too_long` where there are more bytes, and `NoMemory`.
pub fn read_file<F: Files>(
    alloc: Global,
    files: &mut F,
    name: &str,
    limit: u64,
    too_long: Answer,
) -> Result<Bytes, Answer>
    requires { too_long ≢ ReadFault }
    ensures reads { Reads (bytes_in limit too_long) (F.contents files.old name.now) result }
    ensures counted { CountsReadFault (F.faults files.old) (F.faults files.new) result }
    ensures held { F.contents files.new ≡ F.contents files.old }
{
    match take_file(alloc, files, name, limit) {
        Took::Failed => Err(Answer::ReadFault),
        Took::TooLong => Err(too_long),
        Took::NoMemory => Err(Answer::NoMemory),
        Took::Whole(bytes) => Ok(bytes),
    }
}
