/// What finds one element of a `Queue` for as long as it is in the queue.
///
/// `index` is the place of the element's node, which is used again once the element has left. `name` is the number of
/// elements that were put in before it, which no other element of that queue ever has.
#[derive(Clone, Copy, Debug, PartialEq, Eq)]
pub struct Key {
    pub index: u32,
    pub name: u64,
}
