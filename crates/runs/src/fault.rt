mod numbers;

use panels::panel::PanelFault;
use shows::fault::ShowFault;
use wire::faults::WireFault;

// Why a stream, or a command of it, is refused. A lower layer's fault is carried whole.
#[derive(Clone, Copy, PartialEq, Eq, Debug)]
pub enum StreamFault {
    // the stream is longer than 65,536 bytes
    Long,
    // the command does not suit the stage of the show
    Stage,
    // the bytes are no command
    Wire(WireFault),
    // the show refuses
    Show(ShowFault),
    // the panel refuses
    Panel(PanelFault),
}

// A fault, and where in the stream.
#[derive(Clone, Copy, PartialEq, Eq, Debug)]
pub struct Placed {
    // why the command was refused
    pub fault: StreamFault,
    // the place of its command byte, counted from 0
    pub place: u32,
}
