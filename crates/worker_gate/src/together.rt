//! One lead and several helpers, each on a thread of its own.

ghost use Rattle.std.specs.Prelude.{All};
ghost use Rattle.std.specs.Thread.{IsSend, IsSync};

use crate::gate::Gate;
use std::rt::Clock;
use std::sync::Wait;
use std::thread;
use std::thread::Threads;

/// What each of several threads does with a value of its own and one that all share.
pub trait Help<L, P>: Sync {
    /// What it asks of the two.
    ghost ready: { L → P → Type 0 };

    /// Does it, with this gate. It may wait.
    fn help<R: Wait + Clock, G: Gate>(rt: &R, shared: &L, own: &mut P, gate: &G)
        requires { Self.ready shared.now own.old };
}

/// Each helps with its own value, on threads where they can be made.
fn all_help<A: Help<L, P>, R: Threads + Wait + Clock + Sync, L: Sync, P: Send, G: Gate + Sync>(
    rt: &R,
    shared: &L,
    owns: &mut [P],
    gate: &G,
)
    requires { All (A.ready shared.now) owns.old }
{
    let threads = owns.len().saturating_add(1);
    thread::for_each_mut(
        rt,
        owns,
        threads,
        &|_, own: &mut P|
            requires { A.ready shared.now own.now }
        { A::help(rt, shared, own, gate) },
    );
}

/// Runs the lead here, and beside it a helper for each of these values. All have ended when it returns. Where no thread
/// can be made the helpers come after the lead.
pub fn beside<
    A: Help<L, P>,
    R: Threads + Wait + Clock + Sync,
    L: Sync,
    P: Send,
    G: Gate + Sync,
    T,
    F: FnMut() -> T,
>(rt: &R, shared: &L, owns: &mut [P], gate: &G, lead: &mut F) -> T
    requires ready { All (A.ready shared.now) owns.old }
    requires lead { F.pre lead.old }
    ensures { F.step lead.old result lead.new }
{
    let ((), led) = thread::join_mut(
        rt,
        &mut ||
            requires { IsSync R.row × IsSync L.row × IsSync A.row × IsSync G.row × IsSend P.row × All (A.ready shared.now) owns.now }
        { all_help::<A, R, L, P, G>(rt, shared, owns, gate) },
        lead,
    );
    led
}
