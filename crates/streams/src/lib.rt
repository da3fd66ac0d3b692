// The run of a command stream over a show and a panel, and the lines of its release list.
#![tactic(auto)]

mod calls;
mod closed;
mod figures;
mod play;
mod playing;
mod printed;
pub mod run;
mod settings;
mod stage;
