// What a row gives telegrams: the tests of one that is to enter and its slot, and the slots of many, one after another.
#![tactic(auto)]

pub mod book;
pub mod slot;
pub mod trial;
mod zoned;
