ghost use Rattle.std.specs.Prelude.{◌≡◌, [], ◌∷◌};
ghost use Rattle.runs.specs.Events.{refused_line};
ghost use Rattle.runs.specs.Faults.{number as number_of, layer as layer_of};
ghost use Rattle.runs.specs.declared.fault.StreamFault.TheVariants.{Wire as OfWire, Show as OfShow, Panel as OfPanel};

use super::{Placed, StreamFault};
use panels::panel::PanelFault;
use shows::fault::ShowFault;
use wire::faults::WireFault;
use wire::lines::{Layer, Line};

impl StreamFault {
    // The number under which the fault is reported. Those of the lower layers are carried along, which no number
    // beside a variant can say.
    pub fn number(self) -> u8
        ensures { result ≡ number_of self }
    {
        match self {
            StreamFault::Long => 18,
            StreamFault::Stage => 13,
            StreamFault::Wire(fault) => fault.number(),
            StreamFault::Show(fault) => fault.number(),
            StreamFault::Panel(fault) => fault.number(),
        }
    }

    // The layer that refuses.
    pub fn layer(self) -> Layer
        ensures { result ≡ layer_of self }
    {
        match self {
            StreamFault::Show(fault) => fault.layer(),
            StreamFault::Panel(fault) => fault.layer(),
            _ => Layer::Stream,
        }
    }
}

impl Placed {
    // The line that reports the fault.
    pub fn line(self) -> Line
        ensures { result ∷ [] ≡ refused_line self.place self.fault }
    {
        Line::Refused {
            number: self.fault.number(),
            layer: self.fault.layer(),
            place: self.place,
        }
    }
}

// A fault of the bytes, carried whole. Written by hand, as the two below: a contract knows of `?` what
// `from_gives` says, and a derive says nothing.
impl From<WireFault> for StreamFault {
    ghost from_gives = { λ e r. r ≡ OfWire e };

    fn from(refusal: WireFault) -> StreamFault {
        StreamFault::Wire(refusal)
    }
}

// A fault of the show, carried whole.
impl From<ShowFault> for StreamFault {
    ghost from_gives = { λ e r. r ≡ OfShow e };

    fn from(refusal: ShowFault) -> StreamFault {
        StreamFault::Show(refusal)
    }
}

// A fault of the panel, carried whole.
impl From<PanelFault> for StreamFault {
    ghost from_gives = { λ e r. r ≡ OfPanel e };

    fn from(refusal: PanelFault) -> StreamFault {
        StreamFault::Panel(refusal)
    }
}
