//! The top calls: words, the file of IMAGE, input, further files, the task, and the answer's line, in this order.

ghost use Rattle.std.specs.Prelude.{◌≡◌, ◌≤◌, ◌+◌, IfOk, IfSome, Some, length, map, option_map, string_bytes, vec_len, vec_capacity};
ghost use Rattle.guest_streams.specs.GuestStreams.{sinks_of};
ghost use Rattle.program_words.specs.CommandLine.{asked, request_of};
ghost use Rattle.fasttrack_program.specs.AnswerLine.{Concludes};
ghost use Rattle.fasttrack_program.specs.Completeness.{NothingFailed, IsComplete};
ghost use Rattle.fasttrack_program.specs.Reading.{ReadsInOrder, known_of};
ghost use Rattle.fasttrack_program.specs.Serving.{IsServed};
ghost use Rattle.fasttrack_program.specs.TopCall.{IsAnswered, IsRequest, NoneForWorkers, histories_in, most_histories, needs_workers, with_histories};

use crate::answer::Answer;
use crate::answer_line::conclude;
use crate::histories::{Histories, hand_out, has_tracks, make_room};
use crate::serve::{serve_request, serve_with_workers};
use crate::served::{Served, plain};
use board_events::Entries;
use guest_model::NoMemory;
use host_io::{Files, Sink, Source};
use program_words::{Request, Task, WordsFault, read_words};
use std::alloc::Global;
use std::rt::Clock;
use std::sync::Wait;
use std::thread::Threads;
use worker_gate::Gate;

/// Does all that the program does, and answers how it ended. `words` are those behind the program's own name. Each worker
/// passes the gate before each turn and each slice; a gate that waits changes nothing of what the call promises.
///
/// What is promised holds for every order in which threads get their turns, if the call returns. For words that ask for no
/// workers, and for no batch, it is `plain_main`, which returns.
///
/// - **Answer and output** (`answered`). The call keeps the plan that the words, the files and the input ask for:
///   `specs/Promise.antt` says of each task on a guest what it writes on `out` and `notes`, and what it answers once all of
///   that is written; `specs/Jobs.antt` says of a batch what is reported of each of its jobs; `specs/Showing.antt` says of
///   each other task the text that it shows, or why what was read is refused. What the two got is always a beginning of it.
///   WriteFault comes only where one of them failed, and then at a byte of its own; NoMemory anywhere. Behind it `notes` get
///   one line for every answer but Exited and Shown. `told` gets the history of a task with tracks, exactly where it was done
///   whole and its answer's line was not lost: without workers the serial history, with workers a legal one that has a finish,
///   whose loans went to seats up to their number. Of a batch that was shown whole it gets one for each job that is done, in
///   their order.
/// - **Completeness** (`complete`). Where no count of faults rose, all of the plan was done, or memory ran out. With
///   `laws::good_calls_are_done`, `laws::good_batches_are_shown` and `laws::good_texts_are_shown`: accepted words, an image
///   without a fault and an input within its limit give the program's own end with all of its output, or Shown with the whole
///   report or text.
/// - **Order and refusals** (`answered`, `reads`). The first that refuses decides: the words (Usage); whether the image
///   file can be read (ReadFault), its length, at most 33,554,432 bytes (ImageTooLong), and its first fault (BadImage), or,
///   for a batch, whether the list can be read (ReadFault) and is of its form (BadList); unless it is to be left unread,
///   whether the input can be read (ReadFault) and its length, at most 16,777,216 bytes (InputTooLong); whether the file of
///   `--with` can be read (ReadFault), the length of a journal, at most 33,554,432 bytes (JournalTooLong), its first bad line
///   (BadJournal), and that of a file of counts (BadCounts), or, for a batch, whether each file of the list can be read
///   (ReadFault). Then the task is done. Of the text that is packed, IMAGE names the file: its first bad line and place
///   (BadText) stand behind its read.
/// - **Reads** (`reads`). Files and input are left alone where the task reads none of them. The input is read behind an image
///   without a fault, or a list. Where the input was touched, a file of `--with`, or one that a list names, fails only behind
///   both. Where the input is as it was, which file failed is not told. A read that fails is counted, and ends the call.
/// - **Files** (`held`). What `files` hold is as before.
pub fn fasttrack_main<
    R: Threads + Wait + Clock + Sync,
    F: Files,
    I: Source,
    O: Sink,
    N: Sink,
    G: Gate + Sync,
>(
    rt: &R,
    alloc: Global,
    words: &[String],
    files: &mut F,
    input: &mut I,
    out: &mut O,
    notes: &mut N,
    gate: &G,
    told: &mut Histories,
) -> Answer
    ensures answered { let request = request_of (map string_bytes words.now) in
        IsAnswered request (known_of F.Files I.Source request files.old input.old)
        (sinks_of O.Sink N.Sink out.old notes.old) (sinks_of O.Sink N.Sink out.new notes.new) told.old told.new result }
    ensures complete { let request = request_of (map string_bytes words.now) in
        let before = sinks_of O.Sink N.Sink out.old notes.old in
        let after = sinks_of O.Sink N.Sink out.new notes.new in
        NothingFailed F.Files I.Source files.old files.new input.old input.new before after
        → IsComplete request (known_of F.Files I.Source request files.old input.old) before after result }
    ensures reads { ReadsInOrder F.Files I.Source (request_of (map string_bytes words.now)) files.old files.new input.old input.new result }
    ensures held { F.contents files.new ≡ F.contents files.old }
{
    let histories = &mut told.histories;
    let served = serve_words_with(rt, alloc, words, files, input, out, notes, gate, histories);
    end_call(alloc, served, notes, &mut told.histories)
}

/// Does the same on one thread, for words that ask for no workers, and for no batch. It never waits, and it returns.
///
/// The clauses are those of [`fasttrack_main`], with one more.
///
/// - **Workers** (`workers`). None exactly where the words ask for workers or for a batch, unless memory ran out; nothing was read,
///   written or told then.
pub fn plain_main<F: Files, I: Source, O: Sink, N: Sink>(
    alloc: Global,
    words: &[String],
    files: &mut F,
    input: &mut I,
    out: &mut O,
    notes: &mut N,
    told: &mut Histories,
) -> Option<Answer>
    ensures answered { let request = request_of (map string_bytes words.now) in
        IfSome result (IsAnswered request (known_of F.Files I.Source request files.old input.old)
        (sinks_of O.Sink N.Sink out.old notes.old) (sinks_of O.Sink N.Sink out.new notes.new) told.old told.new) }
    ensures complete { let request = request_of (map string_bytes words.now) in
        let before = sinks_of O.Sink N.Sink out.old notes.old in
        let after = sinks_of O.Sink N.Sink out.new notes.new in
        IfSome result (λ answer. NothingFailed F.Files I.Source files.old files.new input.old input.new before after
        → IsComplete request (known_of F.Files I.Source request files.old input.old) before after answer) }
    ensures reads { IfSome result (ReadsInOrder F.Files I.Source (request_of (map string_bytes words.now)) files.old files.new input.old input.new) }
    ensures workers { NoneForWorkers (request_of (map string_bytes words.now)) result
        ((files.new ≡ files.old) × (input.new ≡ input.old) × (out.new ≡ out.old) × (notes.new ≡ notes.old) × (told.new ≡ told.old)) }
    ensures held { F.contents files.new ≡ F.contents files.old }
{
    let histories = &mut told.histories;
    let served = serve_words(alloc, words, files, input, out, notes, histories)?;
    Some(end_call(alloc, served, notes, &mut told.histories))
}

/// The end of a call: the answer's line, and the histories that go with the answer.
fn end_call<N: Sink>(
    alloc: Global,
    served: Served,
    notes: &mut N,
    histories: &mut Vec<Entries>,
) -> Answer
    requires room { vec_len histories.old + length (histories_in served.told) ≤ vec_capacity histories.old }
    ensures line { Concludes (N.contents notes.old) (N.contents notes.new) (N.faults notes.old) (N.faults notes.new) served.answer result }
    ensures histories { histories.new.items ≡ with_histories histories.old.items served.told result }
{
    let Served { answer, told } = served;
    let answer = conclude(alloc, answer, notes);
    hand_out(histories, told, answer);
    answer
}

/// All but the end of a call, on as many threads as the words ask for.
fn serve_words_with<
    R: Threads + Wait + Clock + Sync,
    F: Files,
    I: Source,
    O: Sink,
    N: Sink,
    G: Gate + Sync,
>(
    rt: &R,
    alloc: Global,
    words: &[String],
    files: &mut F,
    input: &mut I,
    out: &mut O,
    notes: &mut N,
    gate: &G,
    histories: &mut Vec<Entries>,
) -> Served
    ensures served { let request = request_of (map string_bytes words.now) in
        IsServed request (known_of F.Files I.Source request files.old input.old)
        (sinks_of O.Sink N.Sink out.old notes.old) (sinks_of O.Sink N.Sink out.new notes.new) result }
    ensures reads { ReadsInOrder F.Files I.Source (request_of (map string_bytes words.now)) files.old files.new input.old input.new result.answer }
    ensures held { F.contents files.new ≡ F.contents files.old }
    ensures items { histories.new.items ≡ histories.old.items }
    ensures room { vec_len histories.new + length (histories_in result.told) ≤ vec_capacity histories.new }
{
    match read_request(alloc, words, histories) {
        Ok(request) if asks_for_workers(&request) => {
            serve_with_workers(rt, alloc, &request, files, input, out, notes, gate)
        }
        Ok(request) => serve_request(alloc, &request, files, input, out, notes),
        Err(answer) => plain(answer),
    }
}

/// All but the end of a call, on one thread. None where the call may wait.
fn serve_words<F: Files, I: Source, O: Sink, N: Sink>(
    alloc: Global,
    words: &[String],
    files: &mut F,
    input: &mut I,
    out: &mut O,
    notes: &mut N,
    histories: &mut Vec<Entries>,
) -> Option<Served>
    ensures served { let request = request_of (map string_bytes words.now) in
        IfSome result (IsServed request (known_of F.Files I.Source request files.old input.old)
        (sinks_of O.Sink N.Sink out.old notes.old) (sinks_of O.Sink N.Sink out.new notes.new)) }
    ensures reads { IfSome result (λ served. ReadsInOrder F.Files I.Source (request_of (map string_bytes words.now)) files.old files.new input.old input.new served.answer) }
    ensures workers { NoneForWorkers (request_of (map string_bytes words.now)) (option_map (λ served. served.answer) result)
        ((files.new ≡ files.old) × (input.new ≡ input.old) × (out.new ≡ out.old) × (notes.new ≡ notes.old)) }
    ensures held { F.contents files.new ≡ F.contents files.old }
    ensures items { histories.new.items ≡ histories.old.items }
    ensures room { IfSome result (λ served. vec_len histories.new + length (histories_in served.told) ≤ vec_capacity histories.new) }
{
    match read_request(alloc, words, histories) {
        Ok(request) if asks_for_workers(&request) => None,
        Ok(request) => Some(serve_request(alloc, &request, files, input, out, notes)),
        Err(answer) => Some(plain(answer)),
    }
}

/// The request of the words. There is room for the histories that go with its answer.
///
/// # Errors
/// `Usage` where the words are no call of the program, and `NoMemory`.
fn read_request<'a>(
    alloc: Global,
    words: &'a [String],
    histories: &mut Vec<Entries>,
) -> Result<Request<'a>, Answer>
    ensures request { IsRequest (request_of (map string_bytes words.now)) result }
    ensures items { histories.new.items ≡ histories.old.items }
    ensures room { IfOk result (λ r. vec_len histories.new + most_histories r.task ≤ vec_capacity histories.new) }
{
    let request = match read_words(alloc, words) {
        Ok(request) => request,
        Err(WordsFault::Usage) => return Err(Answer::Usage),
        Err(WordsFault::NoMemory) => return Err(Answer::NoMemory),
    };
    match make_room(histories, request.task) {
        Ok(()) => Ok(request),
        Err(NoMemory) => Err(Answer::NoMemory),
    }
}

/// Whether a request is one whose call may wait: one for tracks with workers, or a batch, which goes by locks whatever the
/// number of workers.
fn asks_for_workers(request: &Request<'_>) -> bool
    ensures { result ≡ needs_workers (Some (asked request.now)) }
{
    match request.task {
        Task::Batch => true,
        task => has_tracks(task) && request.workers >= 1,
    }
}
