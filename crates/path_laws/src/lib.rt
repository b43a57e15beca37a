//! What answers are in words of walks and paths. There are laws alone here.
#![tactic(auto)]

mod laws;

pub use laws::{
    answers_are_best_walks, built_in_answers, built_in_answers_on_edges, built_in_texts,
    ordered_answers_are_best_walks, walks_follow_edges,
};
