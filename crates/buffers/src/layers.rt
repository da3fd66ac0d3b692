// The layers of a cabinet, and under which letters they refuse.
ghost use Rattle.std.specs.Prelude.{◌≡◌};
ghost use Rattle.buffers.specs.Layers.{letter_of};

// The layer that refused a call.
#[derive(Clone, Copy, PartialEq, Eq, Debug)]
pub enum Layer {
    Show,
    Queue,
    Stream,
    Panel,
}

impl Layer {
    // The letter by which a line names the layer: U, Q, S or P. As the number of its variant a letter would have to
    // be written `b'U' as isize`, which is no plainer.
    pub fn letter(self) -> u8
        ensures { result ≡ letter_of self }
    {
        match self {
            Layer::Show => b'U',
            Layer::Queue => b'Q',
            Layer::Stream => b'S',
            Layer::Panel => b'P',
        }
    }
}
