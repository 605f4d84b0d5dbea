//! The text of a batch on one sink.

ghost use Rattle.std.specs.Prelude.{◌≡◌, ◌∷◌, ◌++◌, [], All, IfOk, codes, length, string_bytes};
ghost use Rattle.fault_text.specs.FaultTexts.{fault_text};
ghost use Rattle.sink_text.specs.TextOnSink.{WritesOn};
ghost use Rattle.job_listing.specs.Listing.{HasEnd, HasFinish, jobs_text, job_text, of_job, outcome_line, ran_text, sizes_line, stream_text};

use crate::report::JobReport;
use basic_types::{Bytes, NoMemory};
use elf32_loader::ImageFault;
use fault_text::FaultText;
use guest_streams::OutputFault;
use host_io::Sink;
use job_batch::{JobEnd, JobOutcome};
use report_text::end_text;
use sink_text::{write_bytes, write_made, write_text};
use std::alloc::Global;

/// Writes the text of a batch: of each job its number and sizes, the bytes of its two streams, and its end; or why it did not
/// run. What is required holds of the reports that are joined of the ends of a batch (`laws::batches_can_be_written`).
///
/// # Errors
/// `Write` where the sink failed, and `NoMemory` where there was no room for a line. The sink has a beginning of the text
/// then.
pub fn write_jobs<O: Sink>(
    alloc: Global,
    reports: &[JobReport],
    out: &mut O,
) -> Result<(), OutputFault>
    requires { All HasEnd reports.now }
    ensures { WritesOn O.Sink out.old out.new (jobs_text reports.now) result }
{
    for (number, report) in reports.iter().enumerate() {
        write_job(alloc, number, report, out)?;
    }
    Ok(())
}

/// Writes the text of the job of this number.
fn write_job<O: Sink>(
    alloc: Global,
    number: usize,
    report: &JobReport,
    out: &mut O,
) -> Result<(), OutputFault>
    requires { HasEnd report.now }
    ensures { WritesOn O.Sink out.old out.new (job_text number report.now) result }
{
    match report {
        JobReport::TooLong => write_made(long_text(alloc, number), out),
        JobReport::BadImage(fault) => write_made(bad_text(alloc, number, *fault), out),
        JobReport::Ran(end) => write_ran(alloc, number, end, out),
    }
}

/// Writes the text of a job that ran.
fn write_ran<O: Sink>(
    alloc: Global,
    number: usize,
    end: &JobEnd,
    out: &mut O,
) -> Result<(), OutputFault>
    requires { HasFinish end.now.outcome }
    ensures { WritesOn O.Sink out.old out.new (ran_text number end.now) result }
{
    write_made(sizes_text(alloc, number, end), out)?;
    write_stream(&end.out, out)?;
    write_stream(&end.notes, out)?;
    write_made(outcome_text(alloc, &end.outcome), out)
}

/// Writes the bytes of a stream and a line feed.
fn write_stream<O: Sink>(bytes: &Bytes, out: &mut O) -> Result<(), OutputFault>
    ensures { WritesOn O.Sink out.old out.new (stream_text bytes.now) result }
{
    write_bytes(bytes.as_slice(), out)?;
    write_text("\n", out)
}

/// The line of a job whose image is too long.
fn long_text(alloc: Global, number: usize) -> Result<String, NoMemory>
    ensures { IfOk result (λ text. string_bytes text ≡ of_job number (codes " image too long" ++ 10 ∷ [])) }
{
    Ok(format!(in alloc; "job {number} image too long\n")?)
}

/// The line of a job whose image has this fault.
fn bad_text(alloc: Global, number: usize, fault: ImageFault) -> Result<String, NoMemory>
    ensures { IfOk result (λ text. string_bytes text ≡ of_job number (codes " bad image: " ++ (fault_text fault ++ 10 ∷ []))) }
{
    let fault = FaultText(fault);
    Ok(format!(in alloc; "job {number} bad image: {fault}\n")?)
}

/// The line of a job that ran, with the numbers of bytes of its two streams.
fn sizes_text(alloc: Global, number: usize, end: &JobEnd) -> Result<String, NoMemory>
    ensures { IfOk result (λ text. string_bytes text ≡ sizes_line number (length end.now.out) (length end.now.notes)) }
{
    let out = end.out.len();
    let notes = end.notes.len();
    Ok(format!(in alloc; "job {number} out {out} notes {notes}\n")?)
}

/// The line of a job's end.
fn outcome_text(alloc: Global, outcome: &JobOutcome) -> Result<String, NoMemory>
    requires { HasFinish outcome.now }
    ensures { IfOk result (λ text. string_bytes text ≡ outcome_line outcome.now) }
{
    match outcome {
        JobOutcome::Done(outcome) => match &outcome.finished {
            Some(finished) => end_text(alloc, &finished.end),
            None => unreachable!(),
        },
        JobOutcome::NoMemory => Ok(format!(in alloc; "end no memory\n")?),
    }
}
