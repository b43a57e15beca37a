//! What the lock asks of the value.
ghost use Rattle.std.specs.Prelude.{List};

/// A value that contracts see as a list of parts, one for each seat. The lock neither makes nor copies one.
pub trait Parted: Send + Drop {
    /// What contracts see of one part: plain data. No value of it is made.
    type Part;

    // The parts of what contracts see of the value, in the order of the seats.
    ghost parts: { Self → List Self.Part };
}
