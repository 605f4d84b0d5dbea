use crate::owner::Owner;

/// A mapped page: its number, which is its first address by 4,096, and who may write it.
#[derive(Drop)]
pub struct Entry {
    pub number: u32,
    pub page: Owner,
}
