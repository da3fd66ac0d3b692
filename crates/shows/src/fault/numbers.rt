ghost use Rattle.std.specs.Prelude.{◌≡◌};
ghost use Rattle.shows.specs.Faults.{number as number_of, layer as layer_of};
ghost use Rattle.shows.specs.declared.fault.ForecastFault.TheVariants.{Whole};
ghost use Rattle.shows.specs.declared.fault.ShowFault.TheVariants.{Queue};

use super::{ForecastFault, ShowFault};
use buffers::layers::Layer;
use queues::fault::QueueFault;

impl ShowFault {
    // The number under which the fault is reported. The queue's own is carried along, which no number beside a
    // variant can say.
    pub fn number(self) -> u8
        ensures { result ≡ number_of self }
    {
        match self {
            ShowFault::Time => 1,
            ShowFault::Row => 2,
            ShowFault::Length => 3,
            ShowFault::Count => 4,
            ShowFault::Overrun => 5,
            ShowFault::Yellow => 6,
            ShowFault::Red => 7,
            ShowFault::Queue(fault) => fault.number(),
            ShowFault::Early => 9,
            ShowFault::Card => 10,
            ShowFault::Times => 17,
        }
    }

    // The layer that refuses: the queue, or the show.
    pub fn layer(self) -> Layer
        ensures { result ≡ layer_of self }
    {
        match self {
            ShowFault::Queue(_) => Layer::Queue,
            _ => Layer::Show,
        }
    }
}

// A queue's fault is carried whole. Written by hand, as each such turn of a fault: a contract knows of `?` what
// `from_gives` says, and a derive says nothing.
impl From<QueueFault> for ShowFault {
    ghost from_gives = { λ e r. r ≡ Queue e };

    fn from(refusal: QueueFault) -> ShowFault {
        ShowFault::Queue(refusal)
    }
}

// A fault by which a forecast is refused as a whole.
impl From<ShowFault> for ForecastFault {
    ghost from_gives = { λ e r. r ≡ Whole e };

    fn from(refusal: ShowFault) -> ForecastFault {
        ForecastFault::Whole(refusal)
    }
}
