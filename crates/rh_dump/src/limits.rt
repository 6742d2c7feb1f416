//! The limits of dumps and of their texts.

/// The most roots of a dump, which are those of all owners.
pub const MAX_ROOTS: u32 = 4_096;

/// The most objects of a dump, and the most names of the graph that it is made of.
pub const MAX_OBJECTS: u32 = 16_777_216;

/// The greatest number of an object.
pub const LAST_OBJECT: u32 = 16_777_215;

/// The most bytes of a dump.
pub const MAX_DUMP_BYTES: usize = 268_435_456;

/// The most reads of a dump, interrupted ones with them.
pub const MAX_DUMP_READS: u32 = 536_870_912;
