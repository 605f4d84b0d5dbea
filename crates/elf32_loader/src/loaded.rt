//! An image that was loaded.

ghost use Rattle.std.specs.Prelude.{◌≡◌, ◌-◌, ◌%◌, IsTrue};
ghost use Rattle.guest_model.specs.AreaMap.{areas_bytes, IsLayout};
ghost use Rattle.guest_model.specs.ByteMap.{mapped};
ghost use Rattle.guest_model.specs.ImageFault.{stack_base, stack_end};

use guest_model::{Areas, Heap};

/// What a program starts with.
#[derive(Debug, Drop)]
pub struct Loaded {
    /// The address of the first instruction.
    pub entry: u32,
    /// The initial memory: whole pages, in rising order and without a common address, the stack and the heap among them.
    pub areas: Areas,
    /// The heap: whole pages behind the last segment, at most 4 MiB and maybe none; the break stands at its start.
    pub heap: Heap,
    pub ghost layout: { IsLayout areas },
    pub ghost stack_is_mapped: { IsTrue (mapped (areas_bytes areas) stack_base (stack_end - stack_base)) },
    pub ghost heap_is_mapped: { IsTrue (mapped (areas_bytes areas) heap.start heap.size) },
    pub ghost heap_is_aligned: { heap.start % 4096 ≡ 0 },
    pub ghost break_at_start: { heap.brk ≡ heap.start },
    pub ghost entry_is_aligned: { entry % 4 ≡ 0 },
    pub ghost entry_is_mapped: { IsTrue (mapped (areas_bytes areas) entry 4) },
}
