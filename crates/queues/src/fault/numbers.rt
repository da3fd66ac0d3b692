ghost use Rattle.std.specs.Prelude.{◌≡◌};
ghost use Rattle.queues.specs.Faults.{number as number_of};

use super::QueueFault;

impl QueueFault {
    // The number under which the fault is reported (docs/REFUSALS.md).
    pub fn number(self) -> u8
        ensures { result ≡ number_of self }
    {
        self as u8
    }
}
