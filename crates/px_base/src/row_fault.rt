//! Why a text is no program row.
/// The first fault of a program row. Fields count from 1.
#[derive(Clone, Copy, Debug, PartialEq, Eq)]
pub enum RowFault {
    /// The row has fewer fields, or the field is empty.
    Missing {
        /// The number of the field.
        field: u8,
    },
    /// The words of the field have none of its shapes.
    Unknown {
        /// The number of the field.
        field: u8,
    },
    /// The words have a shape, and a word in a number's place is no such number.
    Number {
        /// The number of the field.
        field: u8,
    },
    /// The six fields are right, and a `;` follows the sixth.
    Trailing,
}
