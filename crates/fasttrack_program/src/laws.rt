//! Laws about definitions, each the contract of a function that does nothing.

ghost use Rattle.std.specs.Prelude.{◌≡◌, ◌≤◌, ◌⊎◌, ℕ, false, IsTrue, if◌then◌else◌, List, [], ◌++◌, length, Ok, Err, Option, Some};
ghost use Rattle.std.specs.List.{AllZip};
ghost use Rattle.host_io.specs.Faults.{Rose};
ghost use Rattle.guest_model.specs.Image.{Image, image};
ghost use Rattle.program_words.specs.CommandLine.{Request};
ghost use Rattle.program_words.specs.declared.request.Task.{Task};
ghost use Rattle.program_words.specs.declared.request.Task.TheVariants as Tasks;
ghost use Rattle.program_words.specs.declared.request.Task.TheVariants.{Alone, Run, Trial, Explain, Bench, Check, At, Pack};
ghost use Rattle.guest_streams.specs.GuestStreams.{Sinks, StopsShort};
ghost use Rattle.speculation.specs.Core.{verified};
ghost use Rattle.speculation.specs.Events.{event};
ghost use Rattle.speculation.specs.declared.history.Entry.{Entry};
ghost use Rattle.speculation.specs.declared.history.Entry.TheVariants.{Release};
ghost use Rattle.speculation.specs.declared.history.Settings.{Settings};
ghost use Rattle.guest_model.specs.Rv32.{rv32};
ghost use Rattle.track_board.specs.Value.{GuestCore};
ghost use Rattle.serial_run.specs.Quiet.{IsQuiet};
ghost use Rattle.job_batch.specs.declared.ends.JobEnd.{JobEnd};
ghost use Rattle.job_batch.specs.declared.ends.JobOutcome.TheVariants.{Done};
ghost use Rattle.job_listing.specs.Lists.{names_in};
ghost use Rattle.track_board.specs.declared.outcome.Outcome.{Outcome};
ghost use Rattle.fasttrack_program.specs.Completeness.{DoesAll, ShowsAll, TellsAll, IsComplete};
ghost use Rattle.fasttrack_program.specs.Jobs.{Batch, IsEndFor, IsOwnEnd, IsOwnPart};
ghost use Rattle.fasttrack_program.specs.Plan.{Does, Found, batch_of, bench_image, image_limit, input_limit, journal_limit, options_of, plan, runs_file, shows};
ghost use Rattle.fasttrack_program.specs.Promise.{Given, promise_of, settings_of};
ghost use Rattle.fasttrack_program.specs.Reading.{Known};
ghost use Rattle.fasttrack_program.specs.Showing.{Showing, OfJournal, OfStates, OfWords, OfText, Tells};
ghost use Rattle.region_account.specs.Explanation.{explanation};
ghost use Rattle.fasttrack_program.specs.Reports.{program_report, bench_report};
ghost use Rattle.sink_text.specs.TextOnSink.{StoppedInText};
ghost use Rattle.fasttrack_program.specs.declared.answer.Answer.{Answer};

/// Where `trial` or `bench` can't write its report, or `explain` its explanation, the count of `out` rose, and `out` got a
/// beginning of it that is shorter.
pub fn reports_fail_on_out()
    ensures trial { (given : Given) (entries : List Entry) (old new : Sinks) → StopsShort old new ((promise_of Trial).writes given entries)
        → StoppedInText old.out new.out (program_report given.image given.input given.options.budget) × Rose old.out_faults new.out_faults }
    ensures explain { (given : Given) (entries : List Entry) (old new : Sinks) → StopsShort old new ((promise_of Explain).writes given entries)
        → StoppedInText old.out new.out (explanation given.image given.input given.options.budget) × Rose old.out_faults new.out_faults }
    ensures bench { (number : ℕ) (given : Given) (entries : List Entry) (old new : Sinks) → StopsShort old new ((promise_of (Bench number)).writes given entries)
        → StoppedInText old.out new.out (bench_report number given.image given.input given.options.budget) × Rose old.out_faults new.out_faults }
{}

/// A request for a task on a guest is done, and not refused, where the image file is within its limit and has no fault, and
/// the input is within its limit, if it is wanted. A bench needs neither.
pub fn good_calls_run()
    ensures image { (request : Request) (found : Found) (i : Image) → IsTrue (runs_file request.task) → length found.file ≤ image_limit → image found.file ≡ Ok i → (request.no_input ≡ false → length found.input ≤ input_limit)
        → plan (Some request) found ≡ Does (promise_of request.task) (record { image = i; input = if request.no_input then [] else found.input; options = options_of request }) }
    ensures bench { (request : Request) (found : Found) (number : ℕ) → request.task ≡ Bench number
        → (i : Image) × (plan (Some request) found ≡ Does (promise_of (Bench number)) (record { image = i; input = []; options = options_of request })) }
{}

/// Completeness. A call that is complete, as every call is in which nothing failed, answers the end of the program alone
/// with all of its output written, or Shown with the whole report, or memory ran out: where its words are accepted, the
/// image file is within its limit and has no fault, and the input is within its limit, if it is wanted. A bench needs
/// neither.
pub fn good_calls_are_done()
    ensures image { (request : Request) (known : Known) (file input : List ℕ) (i : Image) (old new : Sinks) (answer : Answer) → IsComplete (Some request) known old new answer
        → IsTrue (runs_file request.task) → known.file ≡ Some file → length file ≤ image_limit → image file ≡ Ok i
        → (request.no_input ≡ false → (known.input ≡ Some input) × (length input ≤ input_limit))
        → (answer ≡ Answer.NoMemory) ⊎ DoesAll (promise_of request.task) (record { image = i; input = if request.no_input then [] else input; options = options_of request }) old new answer }
    ensures bench { (request : Request) (known : Known) (number : ℕ) (old new : Sinks) (answer : Answer) → IsComplete (Some request) known old new answer
        → request.task ≡ Bench number → (answer ≡ Answer.NoMemory) ⊎ ((i : Image) × DoesAll (promise_of (Bench number)) (record { image = i; input = []; options = options_of request }) old new answer) }
{}

/// The same of the tasks that show a text: the whole text is shown, or what was read is refused with its own answer, or memory
/// ran out.
pub fn good_texts_are_shown()
    ensures check { (request : Request) (known : Known) (file input : List ℕ) (i : Image) → known.file ≡ Some file → length file ≤ image_limit → image file ≡ Ok i
        → (request.no_input ≡ false → (known.input ≡ Some input) × (length input ≤ input_limit))
        → (journal : List ℕ) (old new : Sinks) (answer : Answer) → IsComplete (Some request) known old new answer → request.task ≡ Check → known.beside ≡ Some journal → length journal ≤ journal_limit
        → (answer ≡ Answer.NoMemory) ⊎ ShowsAll (OfJournal i (if request.no_input then [] else input) (settings_of (options_of request)) journal) old new answer }
    ensures at_counts { (request : Request) (known : Known) (file input : List ℕ) (i : Image) → known.file ≡ Some file → length file ≤ image_limit → image file ≡ Ok i
        → (request.no_input ≡ false → (known.input ≡ Some input) × (length input ≤ input_limit))
        → (counts : List ℕ) (old new : Sinks) (answer : Answer) → IsComplete (Some request) known old new answer → request.task ≡ At → known.beside ≡ Some counts
        → (answer ≡ Answer.NoMemory) ⊎ ShowsAll (OfStates i (if request.no_input then [] else input) counts) old new answer }
    ensures list { (request : Request) (known : Known) (file : List ℕ) → known.file ≡ Some file → (old new : Sinks) (answer : Answer) (i : Image) → IsComplete (Some request) known old new answer
        → request.task ≡ Tasks.List → length file ≤ image_limit → image file ≡ Ok i → (answer ≡ Answer.NoMemory) ⊎ ShowsAll (OfWords i) old new answer }
    ensures pack { (request : Request) (known : Known) (file : List ℕ) → known.file ≡ Some file → (old new : Sinks) (answer : Answer) → IsComplete (Some request) known old new answer
        → request.task ≡ Pack → (answer ≡ Answer.NoMemory) ⊎ ShowsAll (OfText file) old new answer }
{}

/// The same of a batch: each job is reported, or memory ran out, where the list is one, its files can all be read, and the
/// input is within its limit, if it is wanted. A file that is no image stops no other job.
pub fn good_batches_are_shown()
    ensures { (request : Request) (known : Known) (list input : List ℕ) (names images : List (List ℕ)) → known.file ≡ Some list → names_in list ≡ Some names
        → (request.no_input ≡ false → (known.input ≡ Some input) × (length input ≤ input_limit)) → AllZip (λ name bytes. known.named name ≡ Some bytes) names images
        → (old new : Sinks) (answer : Answer) → IsComplete (Some request) known old new answer → request.task ≡ Tasks.Batch
        → (answer ≡ Answer.NoMemory) ⊎ TellsAll (batch_of request images (if request.no_input then [] else input)) old new answer }
{}

/// What is reported of a job is of the program of its own image alone, whatever the other jobs are: always a beginning of what
/// it writes; and where the job is done all of it, with the program's own end and ledger, and a legal history of it that has a
/// finish.
pub fn jobs_have_their_own_ends()
    ensures done { (b : Batch) (i : Image) (e : JobEnd) (o : Outcome) → IsEndFor b i e → e.outcome ≡ Done o → IsOwnEnd b i e o }
    ensures part { (b : Batch) (i : Image) (e : JobEnd) → IsEndFor b i e → IsOwnPart b i e }
{}

/// What was read has a text or a refusal, and never both. So a call that is complete shows the text of whatever is not refused.
pub fn what_is_shown_is_not_refused()
    ensures { (x : Showing) (text : List ℕ) (answer : Answer) → Tells x (Ok text) → Tells x (Err answer) → ⊥ }
{}

/// The image of the bench of every number has no fault. So no bench is refused for its image.
pub fn bench_images_load()
    ensures { (number : ℕ) → (i : Image) × (bench_image number ≡ Ok i) }
{}

/// Fast versions have no effect, right or wrong: `run` promises the output and the end that `alone` promises, whose
/// program never takes a fast version. What is asked for behind the output is the one difference.
pub fn fast_versions_have_no_effect()
    ensures output { (given : Given) (entries others : List Entry) → given.options.report ≡ false → given.options.journal ≡ false
        → (promise_of Run).writes given entries ≡ (promise_of Alone).writes given others }
    ensures end { (given : Given) → (promise_of Run).answer given ≡ (promise_of Alone).answer given }
{}

/// A report or an explanation never depends on how many regions may be open.
pub fn reports_never_depend_on_tracks()
    ensures trial { (given : Given) (tracks : ℕ) (entries : List Entry)
        → (promise_of Trial).writes (record given { options = record given.options { tracks = tracks } }) entries ≡ (promise_of Trial).writes given entries }
    ensures explain { (given : Given) (tracks : ℕ) (entries : List Entry)
        → (promise_of Explain).writes (record given { options = record given.options { tracks = tracks } }) entries ≡ (promise_of Explain).writes given entries }
    ensures run { (given : Given) (tracks : ℕ) (entries others : List Entry) → given.options.journal ≡ false
        → (promise_of Run).writes (record given { options = record given.options { tracks = tracks } }) entries ≡ (promise_of Run).writes given others }
{}

/// Nor does anything else that is written but a journal, nor any answer, depend on how many workers there are, or on the
/// order in which they get their turns.
pub fn output_never_depends_on_workers()
    ensures writes { (task : Task) (given : Given) (workers : ℕ) (entries others : List Entry) → given.options.journal ≡ false
        → (promise_of task).writes (record given { options = record given.options { workers = workers } }) entries ≡ (promise_of task).writes given others }
    ensures answers { (task : Task) (given : Given) (workers : ℕ)
        → (promise_of task).answer (record given { options = record given.options { workers = workers } }) ≡ (promise_of task).answer given }
    // What the tasks that show a text show doesn't either. Of a batch, `jobs_have_their_own_ends` says it of each job that is
    // done.
    ensures texts { (request : Request) (found : Found) (workers : ℕ) → IsTrue (shows request.task)
        → plan (Some (record request { workers = workers })) found ≡ plan (Some request) found }
{}

/// Output waits until it is verified: a release hands out exactly the verified bytes, which are those of judged tracks and
/// those that the oldest track wrote within the budget. No other entry of a history hands out anything.
pub fn output_waits_until_it_is_verified()
    ensures release { (input : List ℕ) (settings : Settings) (core new : GuestCore) (count : ℕ)
        → event (rv32 input) settings core (Release count) ≡ Some new → new.released ≡ core.released ++ verified settings core }
    ensures others { (input : List ℕ) (settings : Settings) (core new : GuestCore) (entry : Entry) → IsQuiet entry
        → event (rv32 input) settings core entry ≡ Some new → new.released ≡ core.released }
{}
