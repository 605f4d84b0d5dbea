ghost use Rattle.std.specs.Prelude.{◌≡◌, ◌+◌, ◌^◌, ◌<◌, ◌≤◌, ◌-◌, ◌↔◌, length, max, take, drop, slice_get, Some, All, option_map, option_copied, IsTrue, IfSome, IsOk, OnOk, OnErr};
ghost use Rattle.std.specs.Option.{option_copied_mut};
ghost use Rattle.std.specs.Borrow.{sem};
ghost use Rattle.seniority_queue.specs.Listing.{empty_listing, get, IsLive, IsGone, first_key, last_key, key_after, through, younger, keeping, pushed, IsSound};

use crate::key::Key;
use crate::links::{find, key_at, link_after, link_before, occupy, push_free, vacate};
use crate::node::Node;
use basic_types::NoMemory;
use std::alloc::Global;
use std::marker::Model;

/// A queue in order of seniority, seen as the list of its live nodes, oldest first, each with its key and its value, and
/// as two numbers: `spare`, how many more elements it takes without memory, and `made`, how many were ever put in.
///
/// The nodes stand in one vector, linked by index in both directions; those that are free form a chain through the same
/// links. Every call takes constant time, but `cut_after` takes time for each element that it drops, and `reserve` for
/// each node that it adds. Only `reserve` takes memory.
#[derive(Drop)]
pub struct Queue<T> {
    nodes: Vec<Node<T>>,
    // The oldest live node, the youngest, and the first free one.
    front: Option<u32>,
    back: Option<u32>,
    free: Option<u32>,
    // How many nodes are live.
    len: usize,
    // How many nodes were ever put in: the next name.
    made: u64,
}

impl<T> Model for Queue<T> {
    ghost use Rattle.seniority_queue.specs.Listing.{Listing, listing_code};

    ghost Value = { Listing T };

    ghost coded = { listing_code T.code };

    ghost use Rattle.seniority_queue.specs.Stands.{listing_of, Stands};

    ghost view = { λ s. listing_of s.nodes.items s.front s.len s.made };

    ghost invariant = { λ s. Stands s.nodes.items s.front s.back s.free s.len s.made };
}

impl<T> Queue<T> {
    ghost use Rattle.seniority_queue.specs.Lends.{lends_get, lends_value};

    /// An empty queue, which holds no memory yet.
    pub fn new(alloc: Global) -> Queue<T>
        ensures { result ≡ empty_listing }
    {
        Queue {
            nodes: Vec::new(alloc),
            front: None,
            back: None,
            free: None,
            len: 0,
            made: 0,
        }
    }

    /// How many elements are in the queue.
    pub fn len(&self) -> usize
        ensures count { result ≡ length self.now.nodes }
        ensures sound { IsSound self.now }
    {
        self.len
    }

    /// Makes `spare` at least `n`, so that as many elements may be put in without memory.
    ///
    /// Errors: `NoMemory`, and then nothing has changed. It can't come where `spare` is at least `n` already.
    pub fn reserve(&mut self, n: u32) -> Result<(), NoMemory>
        requires { length self.old.nodes + n < 2 ^ 32 }
        ensures ok { OnOk result (self.new ≡ record self.old { spare = max self.old.spare n }) }
        ensures err { OnErr result (self.new ≡ self.old) }
        ensures succeeds { n ≤ self.old.spare → IsOk result }
        ensures sound { IsSound self.new }
    {
        let wanted = n as usize;
        let missing = wanted.saturating_sub(self.nodes.len() - self.len);
        self.nodes.reserve(missing)?;
        while self.nodes.len() - self.len < wanted {
            push_free(&mut self.nodes, &mut self.free);
        }
        Ok(())
    }

    /// Puts an element in at the end, as the youngest, and answers its key, whose name is `made` as it was.
    ///
    /// It takes no memory, but a spare node: there must be one, as after `reserve(1)`.
    pub fn push_back(&mut self, value: T) -> Key
    where
        T: Drop,
        requires spare { 0 < self.old.spare }
        requires made { self.old.made < 2 ^ 64 - 1 }
        ensures pushed { self.new ≡ pushed self.old result value }
        ensures name { result.name ≡ self.old.made }
        ensures fresh { IsGone self.old result }
        ensures sound { IsSound self.new }
    {
        let name = self.made;
        let node = Node {
            name,
            value: Some(value),
            before: self.back,
            after: None,
        };
        let index = occupy(&mut self.nodes, &mut self.free, node);
        link_after(&mut self.nodes, &mut self.front, self.back, Some(index));
        self.back = Some(index);
        self.len += 1;
        self.made += 1;
        Key { index, name }
    }

    /// Takes the oldest element out: None exactly where there is none. Its node is spare then.
    pub fn pop_front(&mut self) -> Option<T>
        ensures value { result ≡ option_map (λ n. n.value) (slice_get self.old.nodes 0) }
        ensures popped { self.new ≡ keeping self.old (drop 1 self.old.nodes) }
        ensures gone { IfSome (first_key self.old.nodes) (IsGone self.new) }
        ensures sound { IsSound self.new }
    {
        let index = self.front?;
        let younger = self.nodes[index as usize].after;
        link_before(&mut self.nodes, &mut self.back, younger, None);
        self.front = younger;
        self.len -= 1;
        Some(vacate(&mut self.nodes, &mut self.free, index))
    }

    // Takes the youngest element out.
    fn pop_back(&mut self) -> Option<T>
        ensures popped { self.new ≡ keeping self.old (take (length self.old.nodes - 1) self.old.nodes) }
        ensures sound { IsSound self.new }
    {
        let index = self.back?;
        let older = self.nodes[index as usize].before;
        link_after(&mut self.nodes, &mut self.front, older, None);
        self.back = older;
        self.len -= 1;
        Some(vacate(&mut self.nodes, &mut self.free, index))
    }

    /// Drops every element that is younger than the one with this key, the youngest first. Their nodes are spare then, and
    /// the keys of those that stay are as valid as before.
    pub fn cut_after(&mut self, key: Key)
    where
        T: Drop,
        requires { IsLive self.old key }
        ensures cut { self.new ≡ keeping self.old (through key self.old.nodes) }
        ensures gone { All (λ n. IsGone self.new n.key) (younger key self.old.nodes) }
        ensures sound { IsSound self.new }
    {
        prove!(self.is_live(key));
        while self.after(key).is_some() {
            self.pop_back();
        }
    }

    /// The key of the oldest element.
    pub fn front(&self) -> Option<Key>
        ensures key { result ≡ first_key self.now.nodes }
        ensures sound { IsSound self.now }
    {
        key_at(&self.nodes, self.front)
    }

    /// The key of the youngest element.
    pub fn back_key(&self) -> Option<Key>
        ensures key { result ≡ last_key self.now.nodes }
        ensures sound { IsSound self.now }
    {
        key_at(&self.nodes, self.back)
    }

    /// The key of the element that follows the one with this key: the next younger one. None where there is no such
    /// element, or where no element has this key.
    pub fn after(&self, key: Key) -> Option<Key>
        ensures key { result ≡ key_after key self.now.nodes }
        ensures sound { IsSound self.now }
    {
        let node = find(&self.nodes, key)?;
        key_at(&self.nodes, node.after)
    }

    /// The value at this key: None exactly where no element has this key, as after it has left.
    pub fn get(&self, key: Key) -> Option<&T>
        ensures value { option_copied result ≡ get self.now key }
        ensures sound { IsSound self.now }
    {
        find(&self.nodes, key)?.value.as_ref()
    }

    /// The value at this key, to be changed: None exactly where no element has this key.
    pub fn get_mut(&mut self, key: Key) -> Option<&mut T>
        ensures* writes_back { sem 𝓛 (lends_get T.row self.entry key result) }
        ensures value { option_copied_mut result ≡ get self.old key }
        ensures sound { IsSound self.old }
    {
        if self.is_live(key) {
            Some(self.value_mut(key))
        } else {
            None
        }
    }

    fn is_live(&self, key: Key) -> bool
        ensures live { IsTrue result ↔ IsLive self.now key }
        ensures sound { IsSound self.now }
    {
        find(&self.nodes, key).is_some()
    }

    fn value_mut(&mut self, key: Key) -> &mut T
        requires { IsLive self.old key }
        ensures* writes_back { sem 𝓛 (lends_value T.row self.entry key result) }
        ensures value { get self.old key ≡ Some result.now }
    {
        self.nodes[key.index as usize].value_mut()
    }
}
