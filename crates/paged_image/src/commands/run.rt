ghost use Rattle.std.specs.Prelude.{◌≡◌, ◌<◌, ◌^◌, true, length, take, All, OnOk, OnErr, IfErr};
ghost use Rattle.guest_model.specs.ByteMap.{Stores};
ghost use Rattle.paged_image.specs.Image.{content};
ghost use Rattle.paged_image.specs.Commands.{contents, bytes_of, stored, change_at, with_copy, after_one, after, IsShort};

use super::{Command, Data};
use crate::image::PagedImage;
use basic_types::NoMemory;
use guest_model::{Memory, StoreFault};

/// Carries out these commands, in order.
///
/// # Errors
/// The number of commands that were carried out before there was no host memory for the next one, which changed no
/// byte.
pub fn run_commands(images: &mut Vec<PagedImage>, commands: &[Command]) -> Result<(), usize>
    requires { All IsShort commands.now }
    ensures ok { OnOk result (contents images.new.items ≡ after commands.now (contents images.old.items)) }
    ensures err { IfErr result (λ done. (done < length commands.now) × (contents images.new.items ≡ after (take done commands.now) (contents images.old.items))) }
{
    for (done, command) in commands.iter().enumerate() {
        if carry_out(images, command).is_err() {
            return Err(done);
        }
    }
    Ok(())
}

fn carry_out(images: &mut Vec<PagedImage>, command: &Command) -> Result<(), NoMemory>
    requires { IsShort command.now }
    ensures ok { OnOk result (contents images.new.items ≡ after_one (contents images.old.items) command.now) }
    ensures err { OnErr result (contents images.new.items ≡ contents images.old.items) }
{
    match command {
        Command::Store { image, at, data } => store_in(images, *image, *at, data),
        Command::Snapshot { image } => snapshot_of(images, *image),
    }
}

fn store_in(
    images: &mut Vec<PagedImage>,
    image: usize,
    at: u32,
    value: &Data,
) -> Result<(), NoMemory>
    requires { length (bytes_of value.now) < 2 ^ 32 }
    ensures ok { OnOk result (contents images.new.items ≡ change_at (contents images.old.items) image (λ m. stored m at (bytes_of value.now))) }
    ensures err { OnErr result (contents images.new.items ≡ contents images.old.items) }
{
    if image >= images.len() {
        return Ok(());
    }
    let target = &mut images[image];
    match store(target, at, value) {
        Ok(()) => Ok(()),
        Err(StoreFault::Unmapped) => Ok(()),
        Err(StoreFault::NoMemory) => Err(NoMemory),
    }
}

fn store(image: &mut PagedImage, at: u32, value: &Data) -> Result<(), StoreFault>
    requires { length (bytes_of value.now) < 2 ^ 32 }
    ensures { Stores true (content image.old) (content image.new) at (bytes_of value.now) result }
{
    match value {
        Data::Byte(v) => image.store8(at, *v),
        Data::Half(v) => image.store16(at, *v),
        Data::Word(v) => image.store32(at, *v),
        Data::Block(bytes) => image.copy_in(at, bytes.as_slice()),
    }
}

fn snapshot_of(images: &mut Vec<PagedImage>, image: usize) -> Result<(), NoMemory>
    ensures ok { OnOk result (contents images.new.items ≡ with_copy (contents images.old.items) image) }
    ensures err { OnErr result (contents images.new.items ≡ contents images.old.items) }
{
    if image >= images.len() {
        return Ok(());
    }
    let target = &mut images[image];
    let copy = target.snapshot()?;
    images.push(copy)?;
    Ok(())
}
