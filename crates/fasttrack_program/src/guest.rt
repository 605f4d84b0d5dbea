//! The guest on which a task is done.

ghost use Rattle.std.specs.Prelude.{◌≡◌, not, Ok, Some, IfOk, IsTrue};
ghost use Rattle.guest_model.specs.Image.{image};
ghost use Rattle.elf32_loader.specs.LoadedImage.{image_of_loaded};
ghost use Rattle.program_words.specs.CommandLine.{asked};
ghost use Rattle.rv32_asm.specs.Generated.{generated};
ghost use Rattle.fasttrack_program.specs.Finding.{FindsGuest, FindsProgram, ReadsFor};
ghost use Rattle.fasttrack_program.specs.Plan.{bench_regions, runs_guest, takes_program};
ghost use Rattle.fasttrack_program.specs.Reading.{known_of};

use crate::answer::Answer;
use crate::read::{read_image, read_input};
use elf32_loader::{ImageFault, Loaded, load};
use guest_model::{Bytes, NoMemory};
use host_io::{Files, Source};
use program_words::{Request, Task};
use rv32_asm::generate;
use std::alloc::Global;

/// How many regions the guest of a bench has.
const REGIONS: u32 = 64;

/// The guest of a task.
#[derive(Debug, Drop)]
pub struct LoadedGuest {
    /// Its image.
    pub loaded: Loaded,
    /// Its input.
    pub input: Bytes,
}

/// Finds the guest of the task of a request: reads the image file and, unless it is to be left unread, the input. The
/// guest of a bench is generated, has no input, and nothing is read for it.
///
/// # Errors
/// `ReadFault` where a read failed, `ImageTooLong`, `BadImage` and `InputTooLong` where what was read is refused, and
/// `NoMemory`.
pub fn find_guest<F: Files, I: Source>(
    alloc: Global,
    request: &Request<'_>,
    files: &mut F,
    input: &mut I,
) -> Result<LoadedGuest, Answer>
    requires { IsTrue (runs_guest request.now.task) }
    ensures found { let r = asked request.now in FindsGuest r (known_of F.Files I.Source (Some r) files.old input.old) result }
    ensures reads { ReadsFor F.Files I.Source (asked request.now) files.old files.new input.old input.new result }
    ensures held { F.contents files.new ≡ F.contents files.old }
{
    if let Task::Bench(number) = request.task {
        return match load_bench(alloc, number) {
            Ok(loaded) => Ok(LoadedGuest {
                loaded,
                input: Bytes::new(alloc),
            }),
            Err(NoMemory) => Err(Answer::NoMemory),
        };
    }
    read_program(alloc, request, files, input)
}

/// Reads the program of a request: the image file and, unless it is to be left unread, the input.
///
/// # Errors
/// `ReadFault` where a read failed, `ImageTooLong`, `BadImage` and `InputTooLong` where what was read is refused, and
/// `NoMemory`.
pub fn read_program<F: Files, I: Source>(
    alloc: Global,
    request: &Request<'_>,
    files: &mut F,
    input: &mut I,
) -> Result<LoadedGuest, Answer>
    requires { IsTrue (takes_program request.now.task) }
    ensures found { let r = asked request.now in FindsProgram (not r.no_input) (known_of F.Files I.Source (Some r) files.old input.old) result }
    ensures reads { ReadsFor F.Files I.Source (asked request.now) files.old files.new input.old input.new result }
    ensures held { F.contents files.new ≡ F.contents files.old }
{
    let loaded = match read_image(alloc, files, request.image) {
        Ok(loaded) => loaded,
        Err(answer) => return Err(answer),
    };
    match read_input(alloc, !request.no_input, input) {
        Ok(input) => Ok(LoadedGuest { loaded, input }),
        Err(answer) => Err(answer),
    }
}

/// The loaded image of the guest of the bench of this number, which has no fault.
///
/// # Errors
/// `NoMemory` where there is no room for it.
fn load_bench(alloc: Global, number: u32) -> Result<Loaded, NoMemory>
    ensures { IfOk result (λ l. image (generated number bench_regions) ≡ Ok (image_of_loaded l)) }
{
    let bytes = generate(alloc, number, REGIONS)?;
    match load(alloc, bytes.as_slice()) {
        Ok(loaded) => Ok(loaded),
        Err(ImageFault::NoMemory) => Err(NoMemory),
        Err(_) => unreachable!(),
    }
}
