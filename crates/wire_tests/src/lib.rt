// Commands and lines as their users write and read them.
#![tactic(auto)]

#[cfg(test)]
mod tests;
