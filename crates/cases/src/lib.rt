// The worked cases of the documents, proved over the definitions that the contracts cite.
#![tactic(auto)]

mod queues_cases;
mod shows_cases;

pub use queues_cases::queue_cases_stand;
pub use shows_cases::show_cases_stand;
