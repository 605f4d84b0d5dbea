//! What each step on the table tells.
ghost use Rattle.std.specs.Prelude.{[], List};
ghost use Rattle.board_lock.specs.Steps.{drew, looked, OneMore, passed, giver, given};

use crate::kept::Kept;
use crate::known::Known;
use atomic_table::{Play, Split};
use std::marker::{Brand, PhantomData};

/// Draws a ticket.
pub(crate) struct Draw;

impl<T, F, I> Play<Option<T>, Known<F, I>> for Draw {
    ghost then = { λ _. drew };
}

/// Looks which ticket is served, and takes the slot where it is the pass's own.
pub(crate) struct Look<T> {
    value: PhantomData<T>,
}

impl<T: Kept> Play<Option<T>, Known<T::Fixed, T::Item>> for Look<T> {
    ghost then = { λ _. looked T.fixed T.entries T.belongs };
}

/// The entries that a turn leaves, which are made known one by one.
pub trait Target<I> {
    ghost target: { List I };
}

impl<I> Target<I> for Brand {
    ghost target = { [] };
}

/// Makes the next entry of the target known.
pub(crate) struct Add<J> {
    target: PhantomData<J>,
}

impl<T, F, I, J: Target<I>> Play<Option<T>, Known<F, I>> for Add<J> {
    ghost then = { λ _ m _ n. OneMore J.target m n };
}

/// Serves the next ticket, and gives the slot back.
pub(crate) struct PassOn;

impl<T, F, I> Play<Option<T>, Known<F, I>> for PassOn {
    ghost then = { λ _ m _ n. passed m n };
}

/// Gives a seat number to a new pass.
pub(crate) struct Give;

impl<F, I> Split<Known<F, I>> for Give {
    ghost left = { giver };

    ghost right = { given };
}
