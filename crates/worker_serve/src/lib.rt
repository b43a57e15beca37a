//! A worker that is served over bytes: frames come in, and a frame goes out for each order.
#![tactic(auto)]

mod end;
mod serving;
mod session;
mod stage;

pub use end::ServeEnd;
pub use serving::serve;
pub use session::Session;
