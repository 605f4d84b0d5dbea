//! The tasks that show a text.

ghost use Rattle.std.specs.Prelude.{◌≡◌};
ghost use Rattle.elf32_loader.specs.LoadedImage.{image_of_loaded};
ghost use Rattle.guest_streams.specs.GuestStreams.{Sinks, with_out};
ghost use Rattle.track_board.specs.Value.{IsSettings};
ghost use Rattle.fasttrack_program.specs.Finding.{showing_of};
ghost use Rattle.fasttrack_program.specs.Promise.{settings_of};
ghost use Rattle.fasttrack_program.specs.Serving.{IsShown, shown};
ghost use Rattle.fasttrack_program.specs.Showing.{OfJournal, OfStates, OfWords, OfText};

use crate::answer::{Answer, answer_of_check, answer_of_fault};
use crate::guest::LoadedGuest;
use crate::options::{Options, settings_in};
use crate::served::{Served, plain};
use crate::subject::Subject;
use check_report::write_checked;
use elf32_loader::Loaded;
use guest_streams::OutputFault;
use host_io::Sink;
use journal_check::check;
use sink_text::write_bytes;
use state_listing::{CountsFault, read_counts, write_states};
use std::alloc::Global;
use std::sync::Arc;
use word_listing::{PackFault, pack, write_listing};

/// Shows the text of a subject on `out`.
pub fn show<O: Sink>(alloc: Global, subject: Subject, options: &Options, out: &mut O) -> Served
    requires { IsSettings (settings_of options.now) }
    // Whatever notes hold, they are left alone; so it is below.
    ensures { (s : Sinks) → IsShown (showing_of options.now subject) (with_out O.Sink out.old s) (with_out O.Sink out.new s) result }
{
    match subject {
        Subject::Journal(guest, journal) => {
            show_check(alloc, guest, journal.as_slice(), options, out)
        }
        Subject::States(guest, counts) => show_states(alloc, &guest, counts.as_slice(), out),
        Subject::Words(loaded) => show_words(alloc, &loaded, out),
        Subject::Text(text) => show_image(alloc, text.as_slice(), out),
    }
}

/// Checks a journal of a program, and shows what it tells.
fn show_check<O: Sink>(
    alloc: Global,
    guest: LoadedGuest,
    journal: &[u8],
    options: &Options,
    out: &mut O,
) -> Served
    requires { IsSettings (settings_of options.now) }
    ensures { (s : Sinks) → IsShown (OfJournal (image_of_loaded guest.loaded) guest.input (settings_of options.now) journal.now)
        (with_out O.Sink out.old s) (with_out O.Sink out.new s) result }
{
    let LoadedGuest { loaded, input } = guest;
    let Ok(input) = Arc::new(alloc, input) else {
        return plain(Answer::NoMemory);
    };
    match check(alloc, &loaded, input, settings_in(options), journal) {
        Ok(checked) => shown(write_checked(alloc, &checked, out)),
        Err(fault) => plain(answer_of_check(fault)),
    }
}

/// Shows the states of a program that a file of counts asks for.
fn show_states<O: Sink>(alloc: Global, guest: &LoadedGuest, counts: &[u8], out: &mut O) -> Served
    ensures { (s : Sinks) → IsShown (OfStates (image_of_loaded guest.now.loaded) guest.now.input counts.now)
        (with_out O.Sink out.old s) (with_out O.Sink out.new s) result }
{
    let LoadedGuest { loaded, input } = guest;
    match read_counts(alloc, counts) {
        Ok(requests) => shown(write_states(
            alloc,
            loaded,
            input.as_slice(),
            requests.as_slice(),
            out,
        )),
        Err(CountsFault::Line(line)) => plain(Answer::BadCounts(line)),
        Err(CountsFault::NoMemory) => plain(Answer::NoMemory),
    }
}

/// Shows the words of an image.
fn show_words<O: Sink>(alloc: Global, loaded: &Loaded, out: &mut O) -> Served
    ensures { (s : Sinks) → IsShown (OfWords (image_of_loaded loaded.now)) (with_out O.Sink out.old s) (with_out O.Sink out.new s) result }
{
    shown(write_listing(alloc, loaded, out))
}

/// Shows the image of the words of a text, byte by byte.
fn show_image<O: Sink>(alloc: Global, text: &[u8], out: &mut O) -> Served
    ensures { (s : Sinks) → IsShown (OfText text.now) (with_out O.Sink out.old s) (with_out O.Sink out.new s) result }
{
    match pack(alloc, text) {
        Ok(image) => shown(write_bytes(image.as_slice(), out)),
        Err(PackFault::Text(place)) => plain(Answer::BadText(place)),
        Err(PackFault::NoMemory) => plain(Answer::NoMemory),
    }
}

/// How the call ends that has written a text, or a beginning of it.
fn shown(written: Result<(), OutputFault>) -> Served
    ensures { result ≡ shown written }
{
    match written {
        Ok(()) => plain(Answer::Shown),
        Err(fault) => plain(answer_of_fault(fault)),
    }
}
