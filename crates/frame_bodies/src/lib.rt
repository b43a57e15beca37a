//! The bodies of frames, one reader and one writer for each kind, and which frames fit.
#![tactic(auto)]

mod answers;
mod codes;
mod fits;
mod kinds;
mod lists;
mod loads;
mod numbers;
mod orders;
mod read_codes;
mod setup;
mod take;

pub use answers::{answer_kind, answer_length, put_answer};
pub use fits::{
    boundary_fits, frame_fits, mirrors_fit, never_fall, order_fits, reads_fit, starts_fit,
};
pub use kinds::{
    BOUNDARY, MIRRORS, READS, READY, REPORTED, SETUP, STARTS, body_length, kind_of, read_body,
};
pub use lists::{
    pairs_length, put_pairs, put_triples, put_values, put_vertices, triples_length, values_length,
    vertices_length,
};
pub use numbers::{put, put_four};
pub use orders::{order_kind, order_length, put_order};
pub use px_base::{Frame, Setup, Triple};
pub use setup::{SETUP_LENGTH, put_setup};
