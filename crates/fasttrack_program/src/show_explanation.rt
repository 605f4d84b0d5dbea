//! The task `explain`: the report of an image's regions, with what is told of each that isn't kept.

ghost use Rattle.std.specs.Prelude.{◌≤◌, ◌^◌};
ghost use Rattle.guest_streams.specs.GuestStreams.{Sinks, with_out};
ghost use Rattle.program_words.specs.declared.request.Task.TheVariants.{Explain};
ghost use Rattle.fasttrack_program.specs.Promise.{promise_of};
ghost use Rattle.fasttrack_program.specs.Serving.{KeepsPromise};
ghost use Rattle.fasttrack_program.specs.Tracks.{given_of};

use crate::answer::{Answer, answer_of_fault};
use crate::guest::LoadedGuest;
use crate::options::Options;
use crate::served::{Served, plain};
use host_io::Sink;
use region_account::write_explanation;
use std::alloc::Global;

/// Runs both versions of each region of the guest, and writes the explanation of the program on `out`. What the guest writes
/// is dropped.
pub fn show_explanation<O: Sink>(
    alloc: Global,
    guest: &LoadedGuest,
    options: &Options,
    out: &mut O,
) -> Served
    requires within { options.now.budget ≤ 2 ^ 40 }

    // Whatever notes hold, they are left alone.
    ensures { (s : Sinks) → KeepsPromise (promise_of Explain) (given_of guest.now.loaded guest.now.input options.now)
        (with_out O.Sink out.old s) (with_out O.Sink out.new s) result }
{
    let input = guest.input.as_slice();
    match write_explanation(alloc, &guest.loaded, input, options.budget, out) {
        Ok(()) => plain(Answer::Shown),
        Err(fault) => plain(answer_of_fault(fault)),
    }
}
