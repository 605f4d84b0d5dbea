use basic_types::Bytes;

/// What is stored: with which call, and which bytes.
#[derive(Drop)]
pub enum Data {
    /// By `store8`.
    Byte(u8),
    /// By `store16`.
    Half(u16),
    /// By `store32`.
    Word(u32),
    /// By `copy_in`.
    Block(Bytes),
}

/// A call on one of several images, which is named by its place in the list of them. Where the list has no such image,
/// nothing is done.
#[derive(Drop)]
pub enum Command {
    /// A store at an address. Where a byte of the range is unmapped, nothing is stored.
    Store { image: usize, at: u32, data: Data },
    /// A snapshot, which is put at the end of the list.
    Snapshot { image: usize },
}
