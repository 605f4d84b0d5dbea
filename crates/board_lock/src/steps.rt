//! The steps that passes make on the table of a lock.
ghost use Rattle.std.specs.Prelude.{◌≡◌, ◌%◌, ◌<◌, ◌^◌, ◌-◌, ◌∷◌, [], ℕ, length, Some, None};
ghost use Rattle.board_lock.specs.declared.known.Stage.TheVariants.{Waits, Holds, Idle};
ghost use Rattle.board_lock.specs.Entries.{Appends};
ghost use Rattle.board_lock.specs.Steps.{staged, Resumes, OneMore, giver, given};
ghost use Rattle.board_lock.specs.Places.{IsLockTable, IsSameSeat, IsAtRest, IsInTurn, HasTicket, HasTurn};

use crate::kept::Kept;
use crate::known::{Place, Top};
use crate::plays::{Add, Draw, Give, Look, PassOn, Target};
use std::marker::Brand;
use std::sync::Wait;
use std::thread;

/// The word with the next ticket.
pub(crate) const TICKET: usize = 0;
/// The word with the ticket that is served.
pub(crate) const SERVING: usize = 1;
/// The word with the number of entries.
const COUNT: usize = 2;
/// The slot with the value.
pub(crate) const VALUE: usize = 0;

/// How often a pass that waits lets other threads run before it sleeps.
const YIELDS: u32 = 32;

/// Draws the next ticket.
pub(crate) fn draw<T: Kept>(top: &Top<T>, place: &mut Place<T>) -> u64
    requires table { IsLockTable top.now.table_id × (place.old.table_id ≡ top.now.table_id) }
    requires idle { IsAtRest place.old.me }
    ensures seat { IsSameSeat place.old place.new }
    ensures ticket { HasTicket place.old.me.0 result place.new.me }
{
    top.fetch_add::<Draw>(place, TICKET, 1)
}

/// Waits until the ticket is served, and takes the value out. A pass that waits long sleeps until
/// the next turn ends.
pub(crate) fn take_turn<T: Kept, R: Wait>(
    rt: &R,
    top: &Top<T>,
    place: &mut Place<T>,
    ticket: u64,
) -> T
    requires table { IsLockTable top.now.table_id × (place.old.table_id ≡ top.now.table_id) }
    requires ticket { HasTicket place.old.me.0 ticket place.old.me }
    ensures seat { IsSameSeat place.old place.new }
    ensures value { Resumes T.fixed T.entries T.belongs place.old.me.0 result }
    ensures turn { HasTurn place.old.me.0 (T.entries result) place.new.me }
{
    let mut yields = 0;
    for _ in rt.forever() {
        let serving = top.load::<Look<T>>(place, SERVING);
        if serving == ticket {
            return top.exchange(place, VALUE, None).unwrap();
        }
        if yields < YIELDS {
            yields += 1;
            thread::yield_now();
        } else {
            top.park(rt, SERVING, (serving % (1 << 32)) as u32);
        }
    }
    unreachable!()
}

/// Makes the next entry of the value known.
fn add_one<T: Kept, J: Target<T::Item>>(top: &Top<T>, place: &mut Place<T>, value: &T)
    requires table { IsLockTable top.now.table_id × (place.old.table_id ≡ top.now.table_id) }
    requires target { J.target ≡ T.entries value.now }
    requires turn { IsInTurn place.old.me }
    requires appends { Appends T.belongs place.old.me.0.seat place.old.me.0.seen (T.entries value.now) }
    requires more { length place.old.me.0.seen < length (T.entries value.now) }
    ensures seat { IsSameSeat place.old place.new }
    ensures entry { OneMore (T.entries value.now) place.old.me place.new.me }
{
    let _ = value;
    top.fetch_add::<Add<J>>(place, COUNT, 1);
}

/// Makes all entries of the value known, of which the first `seen` are.
pub(crate) fn add_all<T: Kept>(top: &Top<T>, place: &mut Place<T>, value: &T, seen: u64)
    requires table { IsLockTable top.now.table_id × (place.old.table_id ≡ top.now.table_id) }
    requires turn { IsInTurn place.old.me }
    requires appends { Appends T.belongs place.old.me.0.seat place.old.me.0.seen (T.entries value.now) }
    requires seen { seen ≡ length place.old.me.0.seen }
    ensures seat { IsSameSeat place.old place.new }
    ensures entries { place.new.me
        ≡ (staged place.old.me.0 (T.entries value.now) place.old.me.0.stage, place.old.me.1) }
{
    for _ in seen..value.length() {
        add_one::<T, Brand>(top, place, value);
    }
}

/// Puts the value in, and serves the next ticket.
pub(crate) fn end_turn<T: Kept>(top: &Top<T>, place: &mut Place<T>, value: T)
    requires table { IsLockTable top.now.table_id × (place.old.table_id ≡ top.now.table_id) }
    requires turn { HasTurn place.old.me.0 place.old.me.0.seen place.old.me }
    requires fixed { T.fixed value ≡ place.old.me.0.fixed }
    requires entries { T.entries value ≡ place.old.me.0.seen }
    ensures seat { IsSameSeat place.old place.new }
    ensures idle { place.new.me ≡ (staged place.old.me.0 place.old.me.0.seen Idle, []) }
{
    let vacant = top.exchange(place, VALUE, Some(value));
    let None = vacant else { unreachable!() };
    let served = top.fetch_add::<PassOn>(place, SERVING, 1);
    // No pass sleeps where the next ticket is not drawn yet.
    if top.peek(TICKET) != served.wrapping_add(1) {
        top.wake_all(SERVING);
    }
}

/// Gives the least seat number of the stock to a new seat.
pub(crate) fn give<T: Kept>(top: &Top<T>, place: &mut Place<T>) -> Place<T>
    requires table { IsLockTable top.now.table_id × (place.old.table_id ≡ top.now.table_id) }
    requires idle { IsAtRest place.old.me }
    requires stock { place.old.me.0.stock < 2 ^ 64 - 1 }
    ensures giver { IsSameSeat place.old place.new
        × (place.new.me ≡ (giver place.old.me.0, [])) }
    ensures given { (result.table_id ≡ place.old.table_id)
        × (result.me ≡ (given place.old.me.0, [])) }
{
    top.split_seat::<Give>(place)
}
