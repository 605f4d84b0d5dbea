ghost use Rattle.std.specs.Prelude.{◌≡◌, ◌+◌, ◌-◌, ◌^◌, ◌<◌, OnOk};

use crate::{Key, Queue};
use std::process::Abort;
use std::test::Fail;

/// A key whose element has left isn't found, also where its index is used again.
#[test]
fn used_index_has_a_new_name(rt: HostRuntime) -> Result<(), Fail> {
    let mut queue = Queue::new(rt.alloc());
    queue.reserve(1)?;
    let first = queue.push_back('a');
    assert_eq!(rt; queue.pop_front(), Some('a'));
    queue.reserve(1)?;
    let second = queue.push_back('b');
    assert_eq!(rt; second.index, first.index);
    assert_eq!(rt; queue.get(first), None);
    assert_eq!(rt; queue.get(second), Some(&'b'));
    Ok(())
}

/// What was cut off is spare, and its keys find nothing.
#[test]
fn cut_nodes_are_used_again(rt: HostRuntime) -> Result<(), Fail> {
    let mut queue = Queue::new(rt.alloc());
    queue.reserve(3)?;
    let a = queue.push_back('a');
    let b = queue.push_back('b');
    let c = queue.push_back('c');
    queue.cut_after(a);
    let d = queue.push_back('d');
    let e = queue.push_back('e');
    for (key, value) in [
        (a, Some('a')),
        (b, None),
        (c, None),
        (d, Some('d')),
        (e, Some('e')),
    ] {
        assert_eq!(rt; queue.get(key).copied(), value, "at {key:?}");
    }
    for (key, next) in [(a, Some(d)), (d, Some(e)), (e, None), (b, None)] {
        assert_eq!(rt; queue.after(key), next, "after {key:?}");
    }
    assert_eq!(rt; queue.front(), Some(a));
    assert_eq!(rt; queue.back_key(), Some(e));
    assert_eq!(rt; e.name, 4);
    Ok(())
}

/// An empty queue has no key, and a value can be replaced in place.
#[test]
fn values_are_owned(rt: HostRuntime) -> Result<(), Fail> {
    let mut queue = Queue::new(rt.alloc());
    assert_eq!(rt; queue.front(), None);
    assert_eq!(rt; queue.back_key(), None);
    queue.reserve(2)?;
    let key = queue.push_back(String::from_str(rt.alloc(), "old")?);
    if let Some(text) = queue.get_mut(key) {
        text.push_str(" and new")?;
    }
    assert_eq!(rt; queue.len(), 1);
    let last = queue.pop_front();
    assert_eq!(rt; last.map(|text| text.len()), Some(11));
    assert_eq!(rt; queue.get_mut(key).is_some(), false);
    Ok(())
}

/// A linear congruential generator, by Knuth's constants.
#[derive(Drop)]
struct Random(u64);

impl Random {
    fn draw(&mut self) -> u64 {
        self.0 = self
            .0
            .wrapping_mul(6364136223846793005)
            .wrapping_add(1442695040888963407);
        self.0 >> 33
    }
}

/// The plain list of keys and values that a queue is to agree with, and the keys that left.
#[derive(Drop)]
struct Plain {
    items: Vec<(Key, u64)>,
    gone: Vec<Key>,
}

fn push(rt: &impl Abort, queue: &mut Queue<u64>, plain: &mut Plain, value: u64) -> Result<(), Fail>
    requires { queue.old.made < 2 ^ 64 - 1 }
    ensures { OnOk result (queue.new.made ≡ queue.old.made + 1) }
{
    assert!(rt; queue.len() < 1000);
    queue.reserve(1)?;
    let key = queue.push_back(value);
    plain.items.push((key, value))?;
    Ok(())
}

fn pop(rt: &impl Abort, queue: &mut Queue<u64>, plain: &mut Plain) -> Result<(), Fail>
    ensures { OnOk result (queue.new.made ≡ queue.old.made) }
{
    let popped = queue.pop_front();
    if plain.items.is_empty() {
        assert_eq!(rt; popped, None);
    } else {
        let (key, value) = plain.items.remove(0);
        assert_eq!(rt; popped, Some(value));
        plain.gone.push(key)?;
    }
    Ok(())
}

fn cut(rt: &impl Abort, queue: &mut Queue<u64>, plain: &mut Plain, place: usize) -> Result<(), Fail>
    ensures { OnOk result (queue.new.made ≡ queue.old.made) }
{
    let Some((key, _)) = plain.items.get(place).copied() else {
        return Ok(());
    };
    assert!(rt; queue.get(key).is_some());
    queue.cut_after(key);
    for (key, _) in plain.items.iter().skip(place + 1) {
        plain.gone.push(*key)?;
    }
    plain.items.truncate(place + 1);
    Ok(())
}

fn write(rt: &impl Abort, queue: &mut Queue<u64>, plain: &mut Plain, place: usize, value: u64)
    ensures { queue.new.made ≡ queue.old.made }
{
    if let Some(item) = plain.items.get_mut(place) {
        item.1 = value;
        match queue.get_mut(item.0) {
            Some(held) => *held = value,
            None => assert!(rt; false),
        }
    }
}

/// The queue's keys and values, from the front on, are those of the list, and no key that left finds a value.
fn agree(rt: &impl Abort, queue: &Queue<u64>, plain: &Plain) {
    assert_eq!(rt; queue.len(), plain.items.len());
    let mut next = queue.front();
    for (key, value) in plain.items.iter() {
        assert_eq!(rt; next, Some(*key));
        assert_eq!(rt; queue.get(*key), Some(value));
        next = queue.after(*key);
    }
    assert_eq!(rt; next, None);
    assert_eq!(rt; queue.back_key(), plain.items.last().map(|item| item.0));
    for key in plain.gone.iter().rev().take(20) {
        assert_eq!(rt; queue.get(*key), None);
    }
}

/// Ten thousand calls, after each of which the queue is what a plain list is.
#[test]
fn agrees_with_a_plain_list(rt: HostRuntime) -> Result<(), Fail> {
    let mut queue = Queue::new(rt.alloc());
    let mut plain = Plain {
        items: Vec::new(rt.alloc()),
        gone: Vec::new(rt.alloc()),
    };
    let mut random = Random(1);
    for turn in 0..10_000 {
        let place = (random.draw() % 16) as usize;
        match random.draw() % 8 {
            0..=3 => push(&rt, &mut queue, &mut plain, turn)?,
            4 | 5 => pop(&rt, &mut queue, &mut plain)?,
            6 => cut(&rt, &mut queue, &mut plain, place)?,
            _ => write(&rt, &mut queue, &mut plain, place, turn),
        }
        agree(&rt, &queue, &plain);
    }
    Ok(())
}
