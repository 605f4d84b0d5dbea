ghost use Rattle.std.specs.Prelude.{◌≡◌, ◌<◌, Some, is_some, IsSome, if◌then◌else◌, vec_len, ◌+◌, ◌^◌, ◌∷◌, ◌++◌, [], length, None, option_map, option_copied, vec_capacity};
ghost use Rattle.std.specs.Option.{ForSome};
ghost use Rattle.seniority_queue.specs.Links.{SetsAfter, SetsBefore, Writes, Vacates, HoldsValue};
ghost use Rattle.seniority_queue.specs.Node.{after_at, key_of, node_with};

use crate::key::Key;
use crate::node::Node;

/// Makes `younger` the node after `older`, or the front where there is no older node.
pub(crate) fn link_after<T>(
    nodes: &mut Vec<Node<T>>,
    front: &mut Option<u32>,
    older: Option<u32>,
    younger: Option<u32>,
)
    requires { ForSome older (λ i. i < vec_len nodes.old) }
    ensures nodes { SetsAfter nodes.old.items nodes.new.items older younger }
    ensures front { front.new ≡ (if is_some older then front.old else younger) }
{
    match older {
        Some(index) => nodes[index as usize].after = younger,
        None => *front = younger,
    }
}

/// Makes `older` the node before `younger`, or the back where there is no younger node.
pub(crate) fn link_before<T>(
    nodes: &mut Vec<Node<T>>,
    back: &mut Option<u32>,
    younger: Option<u32>,
    older: Option<u32>,
)
    requires { ForSome younger (λ i. i < vec_len nodes.old) }
    ensures nodes { SetsBefore nodes.old.items nodes.new.items younger older }
    ensures back { back.new ≡ (if is_some younger then back.old else older) }
{
    match younger {
        Some(index) => nodes[index as usize].before = older,
        None => *back = older,
    }
}

/// Takes the value of a live node, and puts the node at the head of the free chain.
pub(crate) fn vacate<T>(nodes: &mut Vec<Node<T>>, free: &mut Option<u32>, index: u32) -> T
    requires inside { index < vec_len nodes.old }
    requires live { HoldsValue nodes.old.items index }
    ensures nodes { Vacates nodes.old.items nodes.new.items index free.old result }
    ensures free { free.new ≡ Some index }
{
    let node = &mut nodes[index as usize];
    node.before = None;
    node.after = *free;
    *free = Some(index);
    node.value.take().unwrap()
}

/// Writes this node over the first free one, and answers its index.
pub(crate) fn occupy<T: Drop>(
    nodes: &mut Vec<Node<T>>,
    free: &mut Option<u32>,
    node: Node<T>,
) -> u32
    requires free { IsSome free.old }
    requires inside { ForSome free.old (λ i. i < vec_len nodes.old) }
    ensures index { free.old ≡ Some result }
    ensures nodes { Writes nodes.old.items nodes.new.items result node }
    ensures free { free.new ≡ after_at nodes.old.items result }
{
    let index = free.unwrap();
    *free = nodes[index as usize].after;
    nodes[index as usize] = node;
    index
}

/// Adds a node at the head of the free chain.
pub(crate) fn push_free<T>(nodes: &mut Vec<Node<T>>, free: &mut Option<u32>)
    requires room { vec_len nodes.old < vec_capacity nodes.old }
    requires fits { vec_len nodes.old + 1 < 2 ^ 32 }
    ensures nodes { nodes.new.items ≡ nodes.old.items ++ record { name = 0; value = None; before = None; after = free.old } ∷ [] }
    ensures free { free.new ≡ Some (vec_len nodes.old) }
    ensures len { vec_len nodes.new ≡ vec_len nodes.old + 1 }
    ensures capacity { vec_capacity nodes.new ≡ vec_capacity nodes.old }
{
    let index = nodes.len() as u32;
    nodes.push_reserved(Node {
        name: 0,
        value: None,
        before: None,
        after: *free,
    });
    *free = Some(index);
}

/// The key of the node at `index`, if there is one.
pub(crate) fn key_at<T>(nodes: &[Node<T>], index: Option<u32>) -> Option<Key>
    requires { ForSome index (λ i. i < length nodes.now) }
    ensures { result ≡ option_map (key_of nodes.now) index }
{
    let index = index?;
    let name = nodes[index as usize].name;
    Some(Key { index, name })
}

/// The live node with this key.
pub(crate) fn find<T>(nodes: &[Node<T>], key: Key) -> Option<&Node<T>>
    ensures { option_copied result ≡ node_with key nodes.now }
{
    let node = nodes.get(key.index as usize)?;
    if node.name == key.name && node.value.is_some() {
        Some(node)
    } else {
        None
    }
}
