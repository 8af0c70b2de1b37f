//! The answer: areas, offsets and sizes.

/// Areas of storage, each of the objects that lie in one storage sequence, numbered by their first objects.
#[derive(Drop)]
pub struct Layout {
    /// The area of each object.
    pub area: Vec<u32>,
    /// The storage unit of its area, from 0, at which each object begins.
    pub offset: Vec<u32>,
    /// How many storage units each area has.
    pub size: Vec<u32>,
    /// The common block whose sequence each area is.
    pub block: Vec<Option<u32>>,
}
