ghost use Rattle.std.specs.Prelude.{◌≡◌, Some, IsSome};
ghost use Rattle.std.specs.Borrow.{Lends, sem};

/// One place of the vector: a live node, with a value, or a free one.
#[derive(Drop)]
pub(crate) struct Node<T> {
    pub(crate) name: u64,
    pub(crate) value: Option<T>,
    /// The index of the next older live node. A free node has none.
    pub(crate) before: Option<u32>,
    /// The index of the next younger live node, or of the next free node.
    pub(crate) after: Option<u32>,
}

impl<T> Node<T> {
    ghost use Rattle.seniority_queue.specs.contracts.node.Node.{the_row};
    ghost use Rattle.seniority_queue.specs.Node.{with_value};

    pub(crate) fn value_mut(&mut self) -> &mut T
        requires { IsSome self.old.value }
        ensures* lends { sem 𝓛 (Lends (the_row T.row) T.row self.entry result (with_value self.entry.now)) }
        ensures value { self.old.value ≡ Some result.now }
    {
        match &mut self.value {
            Some(value) => value,
            None => unreachable!(),
        }
    }
}
