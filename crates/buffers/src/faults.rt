// What this layer refuses, and under which numbers.
ghost use Rattle.std.specs.Prelude.{◌≡◌};
ghost use Rattle.buffers.specs.Faults.{number_of};

// Why bytes are no command, or a buffer is not written to, with the number under which that is reported
// (docs/REFUSALS.md).
#[derive(Clone, Copy, PartialEq, Eq, Debug)]
pub enum WireFault {
    // the command byte is none of 01 to 08
    Unknown = 14,
    // fewer operand bytes are left than the command takes
    CutOff = 15,
    // a buffer to write into has under 96 bytes
    Buffer = 17,
}

impl WireFault {
    // The number by which a refusal is reported.
    pub fn number(self) -> u8
        ensures { result ≡ number_of self }
    {
        self as u8
    }
}
