// What the readers and writers of bytes share: bytes put into a buffer, what is refused under which number, and the
// layers that refuse under which letters.
#![tactic(auto)]

pub mod bytes;
pub mod faults;
pub mod layers;
