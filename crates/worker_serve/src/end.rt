//! How the serving of a worker ends.
/// How the serving of a worker ends. The places are numbers of bytes that stand before, and stop at 2^62.
#[derive(Clone, Copy, Debug, PartialEq, Eq)]
pub enum ServeEnd {
    /// The input ended between two frames.
    End,
    /// What follows is no frame.
    Torn { at: u64 },
    /// The input ended inside the frame that begins there.
    Cut { at: u64 },
    /// The frame that begins there isn't taken: it is out of place, its program has no class, the part isn't whole, or the
    /// world refuses the order.
    Refused { at: u64 },
    /// 2^62 bytes were taken.
    TooLong,
    /// The source failed.
    ReadFault,
    /// The sink failed.
    WriteFault,
    /// Memory was wanting.
    Memory,
}
