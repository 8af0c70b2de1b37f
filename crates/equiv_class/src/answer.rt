//! The answer: classes, offsets and sizes.

/// The classes of objects that ties join, numbered by their first objects.
#[derive(Drop)]
pub struct Classes {
    /// The class of each object.
    pub class: Vec<u32>,
    /// The storage unit of its class, from 0, at which each object begins.
    pub offset: Vec<u32>,
    /// How many storage units each class has.
    pub size: Vec<u32>,
}
