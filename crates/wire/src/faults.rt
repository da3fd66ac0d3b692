// What is refused on the wire.
pub use buffers::faults::WireFault;
