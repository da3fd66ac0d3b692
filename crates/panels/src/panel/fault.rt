ghost use Rattle.std.specs.Prelude.{◌≡◌};
ghost use Rattle.panels.specs.Panels.{number as number_of, layer as layer_of};
ghost use Rattle.panels.specs.declared.panel.fault.PanelFault.TheVariants.{Queue};

use buffers::layers::Layer;
use queues::fault::QueueFault;

// Why a panel refuses.
#[derive(Clone, Copy, PartialEq, Eq, Debug)]
pub enum PanelFault {
    // the reading's row, position or target is out of bounds
    Reading,
    // the queue refuses
    Queue(QueueFault),
}

impl PanelFault {
    // The number under which the fault is reported. The queue's own is carried along, which no number beside a
    // variant can say.
    pub fn number(self) -> u8
        ensures { result ≡ number_of self }
    {
        match self {
            PanelFault::Reading => 16,
            PanelFault::Queue(fault) => fault.number(),
        }
    }

    // The layer that refuses: the panel, or the queue.
    pub fn layer(self) -> Layer
        ensures { result ≡ layer_of self }
    {
        match self {
            PanelFault::Reading => Layer::Panel,
            PanelFault::Queue(_) => Layer::Queue,
        }
    }
}

// A queue's fault is carried whole. Written by hand, as each such turn of a fault: a contract knows of `?` what
// `from_gives` says, and a derive says nothing.
impl From<QueueFault> for PanelFault {
    ghost from_gives = { λ e r. r ≡ Queue e };

    fn from(refusal: QueueFault) -> PanelFault {
        PanelFault::Queue(refusal)
    }
}
