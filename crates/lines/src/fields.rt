// What stands in a line after its first letter.
ghost use Rattle.std.specs.Prelude.{◌≡◌};
ghost use Rattle.buffers.specs.Layers.{letter_of};
ghost use Rattle.lines.specs.declared.fields.Field.TheVariants.{Number, Signed, Letter};

use buffers::layers::Layer;

// A field of a line: a number, one with a sign, or a letter. Each width of number has its own `From` below: one
// for every type that widens would overlap with that of a layer.
#[derive(Clone, Copy)]
pub(crate) enum Field {
    Number(u64),
    Signed(i32),
    Letter(u8),
}

impl From<u8> for Field {
    ghost from_gives = { λ number field. field ≡ Number number };

    fn from(number: u8) -> Self {
        Field::Number(number.into())
    }
}

impl From<u32> for Field {
    ghost from_gives = { λ number field. field ≡ Number number };

    fn from(number: u32) -> Self {
        Field::Number(number.into())
    }
}

impl From<u64> for Field {
    ghost from_gives = { λ number field. field ≡ Number number };

    fn from(number: u64) -> Self {
        Field::Number(number)
    }
}

impl From<i32> for Field {
    ghost from_gives = { λ number field. field ≡ Signed number };

    fn from(number: i32) -> Self {
        Field::Signed(number)
    }
}

// A layer stands by its letter.
impl From<Layer> for Field {
    ghost from_gives = { λ layer field. field ≡ Letter (letter_of layer) };

    fn from(layer: Layer) -> Self {
        Field::Letter(layer.letter())
    }
}
