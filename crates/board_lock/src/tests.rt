ghost use Rattle.std.specs.Prelude.{◌≡◌, ◌≢◌, ◌<◌, [], ◌∷◌, ◌++◌, false, Some, OnOk, OnErr, IfOk, All, ◌+◌, ◌^◌};

use crate::laws::law_of_seats;
use crate::marks::{Marks, append};
use crate::{Busy, Kept, Pass, Turn, TurnLock};
use basic_types::NoMemory;
use std::alloc::Global;
use std::process::Abort;
use std::sync::Wait;
use std::test::Fail;
use std::thread::{for_each_mut, join_mut};

/// Whether the marks of the seat have the numbers below `count`, in their order.
fn are_in_order(value: &Marks, seat: u64, count: u64) -> bool {
    let mut next = 0u64;
    for mark in &value.marks {
        if mark.0 == seat {
            if mark.1 != next {
                return false;
            }
            next = next.wrapping_add(1);
        }
    }
    next == count
}

/// A turn for each number below `count`. True if all marks were appended.
fn append_all<R: Wait>(rt: &R, lock: &TurnLock<Marks>, pass: &mut Pass<Marks>, count: u64) -> bool
    requires lock { pass.old.lock ≡ lock.now }
    requires idle { pass.old.in_turn ≡ false }
    ensures lock { pass.new.lock ≡ lock.now }
    ensures idle { pass.new.in_turn ≡ false }
{
    let mut all = true;
    for number in 0..count {
        all &= append(rt, lock, pass, number).is_ok();
    }
    all
}

#[test]
fn a_turn_begins_with_what_others_appended(rt: HostRuntime) -> Result<(), Fail> {
    let (lock, mut first) = TurnLock::new(rt.alloc(), Marks::new(rt.alloc(), 7))?;
    let mut second = lock.split(&mut first)?;
    assert!(rt; append_all(&rt, &lock, &mut first, 3));
    let mut turn = lock.enter(&rt, &mut second);
    law_of_seats(turn.get());
    let begins = turn.get().marks.as_slice() == [(0, 0), (0, 1), (0, 2)].as_slice();
    lock.leave(turn, &mut second);
    assert!(rt; begins && first.seat() == 0 && second.seat() == 1);
    Ok(())
}

#[test]
fn two_threads_append_in_turns(rt: HostRuntime) -> Result<(), Fail> {
    let (lock, mut first) = TurnLock::new(rt.alloc(), Marks::new(rt.alloc(), 7))?;
    let mut second = lock.split(&mut first)?;
    let (one, other) = join_mut(
        &rt,
        &mut || append_all(&rt, &lock, &mut first, 100),
        &mut || append_all(&rt, &lock, &mut second, 100),
    );
    assert!(rt; one && other);
    let value = closed(&rt, lock, first);
    assert!(rt; value.length() == 200 && value.name == 7);
    assert!(rt; are_in_order(&value, 0, 100) && are_in_order(&value, 1, 100));
    Ok(())
}

/// This many new passes.
fn passes(
    alloc: Global,
    lock: &TurnLock<Marks>,
    first: &mut Pass<Marks>,
    count: u64,
) -> Result<Vec<Pass<Marks>>, NoMemory>
    requires lock { first.old.lock ≡ lock.now }
    requires idle { first.old.in_turn ≡ false }
    requires stock { first.old.stock + count < 2 ^ 64 }
    ensures first { (first.new.lock ≡ lock.now) × (first.new.in_turn ≡ false) }
    ensures passes { IfOk result
        (λ made. All (λ p. (p.lock ≡ lock.now) × (p.in_turn ≡ false)) made.items) }
{
    let mut made = Vec::new(alloc);
    for _ in 0..count {
        made.push(lock.split(first)?)?;
    }
    Ok(made)
}

#[test]
fn eight_threads_append_in_turns(rt: HostRuntime) -> Result<(), Fail> {
    let (lock, mut first) = TurnLock::new(rt.alloc(), Marks::new(rt.alloc(), 7))?;
    let mut workers = passes(rt.alloc(), &lock, &mut first, 8)?;
    for_each_mut(
        &rt,
        workers.as_mut_slice(),
        8,
        &|_, pass| {
            append_all(&rt, &lock, pass, 1000);
        },
    );
    let value = closed(&rt, lock, first);
    assert!(rt; value.length() == 8000);
    for seat in 1..9 {
        assert!(rt; are_in_order(&value, seat, 1000), "seat {seat}");
    }
    Ok(())
}

/// The value of a lock of which no ticket is out.
fn closed(rt: &impl Abort, lock: TurnLock<Marks>, pass: Pass<Marks>) -> Marks
    requires lock { pass.lock ≡ lock }
    requires idle { pass.in_turn ≡ false }
{
    match lock.close(pass) {
        Ok(value) => value,
        Err(busy) => panic!(rt; "{busy:?}"),
    }
}

#[test]
fn a_lock_closes_unless_a_turn_is_out(rt: HostRuntime) -> Result<(), Fail> {
    let (lock, mut first) = TurnLock::new(rt.alloc(), Marks::new(rt.alloc(), 7))?;
    append(&rt, &lock, &mut first, 5)?;
    assert!(rt; closed(&rt, lock, first).marks.as_slice() == [(0, 5)].as_slice());

    let (lock, mut first) = TurnLock::new(rt.alloc(), Marks::new(rt.alloc(), 7))?;
    let mut second = lock.split(&mut first)?;
    append(&rt, &lock, &mut first, 5)?;
    let Turn { value } = lock.enter(&rt, &mut second);
    let busy = lock.close(first).err();
    assert!(rt;
        busy == Some(Busy {
            drawn: 2,
            served: 1
        }) && value.length() == 1
    );
    Ok(())
}
