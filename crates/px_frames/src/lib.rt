//! Frames between a worker and whoever started it: one spelling each, and a decoder that takes the bytes in any pieces.
#![tactic(auto)]

mod decoder;
mod front;
mod laws;
mod write;

pub use decoder::{Decoder, FeedFault};
pub use frame_bodies::{boundary_fits, frame_fits, mirrors_fit, order_fits, reads_fit, starts_fit};
pub use laws::spellings_are_apart;
pub use px_base::{Frame, Setup, Triple};
pub use write::{
    write_boundary, write_frame, write_mirrors, write_order, write_reads, write_starts,
};
