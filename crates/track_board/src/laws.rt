//! The law of histories at the image of a board, and that a board's entries are such a history, each as the contract of a
//! function that does nothing.

ghost use Rattle.std.specs.Prelude.{◌≡◌, Some};
ghost use Rattle.speculation.specs.Core.{Finished};
ghost use Rattle.speculation.specs.Law.{IsHistory, IsPartial, IsComplete};
ghost use Rattle.guest_model.specs.declared.end.End.{End};
ghost use Rattle.guest_model.specs.Image.{start_of};
ghost use Rattle.guest_model.specs.Rv32.{rv32};
ghost use Rattle.elf32_loader.specs.LoadedImage.{image_of_loaded};
ghost use Rattle.track_board.specs.Value.{GuestCore, IsKnown};

use crate::board::Board;
use basic_types::Bytes;
use board_events::Entries;
use elf32_loader::Loaded;
use speculation::Settings;

/// Where these entries are a legal history of these settings, this image and this input: what was released and what may be is a
/// prefix of what the program alone writes within the budget, and the rows are a prefix of its ledger; where the history has
/// a finish, end and count are the program's own, and both are whole.
pub fn law_of_histories(loaded: &Loaded, input: &Bytes, settings: Settings, entries: &Entries)
    ensures partial { (c : GuestCore) → IsHistory (rv32 input.now) settings (start_of (image_of_loaded loaded.now)) entries.now c → IsPartial (rv32 input.now) settings (start_of (image_of_loaded loaded.now)) c }
    ensures complete { (c : GuestCore) (f : Finished End) → IsHistory (rv32 input.now) settings (start_of (image_of_loaded loaded.now)) entries.now c → c.finish ≡ Some f → IsComplete (rv32 input.now) settings (start_of (image_of_loaded loaded.now)) c f }
{}

/// The entries of a board are a legal history of its settings, its image and its input.
pub fn entries_are_legal(board: &Board)
    ensures { IsKnown board.now }
{
    let _ = board.over();
}
