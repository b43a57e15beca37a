//! Programs by name and by row, and the values that their vertices start at.
#![tactic(auto)]

mod field_words;
mod laws;
mod numbers;
mod program_names;
mod row_fields;
mod row_reading;
mod row_writing;
mod start_values;

pub use laws::rows_read_back;
pub use program_names::builtin;
pub use px_base::RowFault;
pub use row_reading::read_row;
pub use row_writing::write_row;
pub use start_values::{core_starts, starts};
