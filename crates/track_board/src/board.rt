//! The board and what it always knows.

ghost use Rattle.std.specs.Prelude.{◌≡◌, IfOk};
ghost use Rattle.speculation.specs.declared.tracks.Kind.TheVariants.{Segment};
ghost use Rattle.guest_model.specs.Image.{start_of};
ghost use Rattle.elf32_loader.specs.LoadedImage.{image_of_loaded};
ghost use Rattle.track_state.specs.Views.{view_of, begun};

use crate::loan::Lent;
use crate::outcome::Outcome;
use crate::ready::Ready;
use crate::region::Region;
use crate::slot::Slot;
use basic_types::{Bytes, NoMemory};
use board_events::Entries;
use elf32_loader::Loaded;
use guest_model::Regs;
use paged_image::PagedImage;
use region_ledger::{Finished, Row, Rows};
use seniority_queue::Queue;
use speculation::{Entry, Kind, Settings};
use std::alloc::Global;
use std::marker::Model;
use std::snapshot::Snapshot;
use std::sync::Arc;
use track_state::{Track, TrackState};

/// The tracks of one run, and its journal.
#[derive(Drop)]
pub struct Board {
    pub(crate) alloc: Global,
    pub(crate) settings: Settings,
    /// The image: only contracts read it.
    pub(crate) loaded: Snapshot<Loaded>,
    pub(crate) input: Arc<Bytes>,
    /// The verified instructions before the front.
    pub(crate) base: u64,
    pub(crate) ready: Vec<Ready>,
    pub(crate) rows: Vec<Row>,
    /// How many discards there were.
    pub(crate) generation: u64,
    /// The last region number since the last discard.
    pub(crate) last: u64,
    pub(crate) regions: Queue<Region>,
    /// The fast version of the youngest region, or the segment behind it.
    pub(crate) lead: Slot,
    pub(crate) loans: Vec<Lent>,
    pub(crate) finish: Option<Finished>,
    pub(crate) halted: bool,
    pub(crate) entries: Vec<Entry>,
}

impl Model for Board {
    ghost use Rattle.track_board.specs.Value.{Posted};

    ghost Value = { Posted };

    ghost use Rattle.track_board.specs.Invariant.{view_of_board, Stands};

    ghost view = { view_of_board };

    ghost invariant = { Stands };
}

impl Board {
    ghost use Rattle.std.specs.Prelude.{◌≡◌, ◌≤◌, [], IsTrue, if◌then◌else◌, IfOk};
    ghost use Rattle.speculation.specs.declared.history.Entry.TheVariants as E;
    ghost use Rattle.speculation.specs.Core.{over};
    ghost use Rattle.guest_model.specs.Image.{start_of};
    ghost use Rattle.track_board.specs.Value.{IsSettings, IsKnown, core_of, posted};
    ghost use Rattle.track_board.specs.Settles.{finish_of, IsOutcome};

    /// A board of this image and input, on which nothing has happened yet. The image is read once and not kept.
    ///
    /// # Errors
    /// `NoMemory` where there is no room for the pages or the first entry.
    pub fn new(
        alloc: Global,
        loaded: &Loaded,
        input: Arc<Bytes>,
        settings: Settings,
    ) -> Result<Board, NoMemory>
        requires { IsSettings settings }
        ensures { IfOk result (λ b. b ≡ record { settings = settings; loaded = loaded.now; input = input.value; entries = [] }) }
    {
        let lead = start_lead(alloc, loaded, settings.budget)?;
        // Room for the entry that halts the board.
        let mut entries = Vec::new(alloc);
        entries.reserve(1)?;
        Ok(Board {
            alloc,
            settings,
            loaded: Snapshot::of(loaded),
            input,
            base: 0,
            ready: Vec::new(alloc),
            rows: Vec::new(alloc),
            generation: 0,
            last: 0,
            regions: Queue::new(alloc),
            lead: Slot::Home(lead),
            loans: Vec::new(alloc),
            finish: None,
            halted: false,
            entries,
        })
    }

    /// Whether the run has a finish or was halted. Nothing but loans that come home can happen then.
    pub fn over(&self) -> bool
        ensures result { result ≡ over (core_of self.now) }
        ensures known { IsKnown self.now }
    {
        self.finish.is_some() || self.halted
    }

    /// The end and the count of the program: None exactly where the board has no finish.
    pub fn finished(&self) -> Option<Finished>
        ensures result { finish_of result ≡ (core_of self.now).finish }
        ensures known { IsKnown self.now }
    {
        self.finish
    }

    /// Ends the run in the name of this seat. A board that is over stays as it is. It takes no memory.
    pub fn halt(&mut self, seat: u64)
        ensures entry { self.new ≡ (if over (core_of self.old) then self.old else posted self.old (E.Halt seat)) }
        ensures over { IsTrue (over (core_of self.new)) }
        ensures known { IsKnown self.new }
    {
        if self.over() {
            return;
        }
        self.entries.push_reserved(Entry::Halt { seat });
        self.halted = true;
    }

    /// Copies of finish, rows and entries.
    ///
    /// # Errors
    /// `NoMemory` where there is no room for the copies.
    pub fn outcome(&self) -> Result<Outcome, NoMemory>
        ensures { IfOk result (IsOutcome self.now) }
    {
        let rows = Vec::from_slice(self.alloc, &self.rows)?;
        let entries = Vec::from_slice(self.alloc, &self.entries)?;
        Ok(Outcome {
            finished: self.finish,
            rows: Rows::from_vec(rows),
            entries: Entries::from_vec(entries),
        })
    }
}

/// The first lead: the segment at the program's start.
fn start_lead(alloc: Global, loaded: &Loaded, budget: u64) -> Result<Track, NoMemory>
    ensures { IfOk result (λ lead. view_of lead ≡ begun Segment (start_of (image_of_loaded loaded.now)) budget) }
{
    let start = TrackState {
        regs: Regs::start(loaded.entry),
        memory: PagedImage::from_areas(alloc, loaded.areas.as_slice())?,
        place: 0,
        heap: loaded.heap,
    };
    Track::begin(alloc, Kind::Segment, start, budget)
}
