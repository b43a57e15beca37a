//! The updates that wait for each worker, in slots that are found in constant time.
#![tactic(auto)]

mod each;
mod inbox;
mod inboxes;
mod laws;
mod owners;
mod places;
mod slots;
mod vertices;

pub use inboxes::Inboxes;
pub use laws::routes_fit_inboxes;
