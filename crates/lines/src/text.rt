// The text of one line in the making.
ghost use Rattle.std.specs.Prelude.{◌≡◌, ℕ, ◌+◌, ◌<◌, ◌≤◌, List, [], ◌∷◌, ◌++◌, map, length, take, decimal};
ghost use Rattle.std.specs.Fmt.{signed_decimal};
ghost use Rattle.wire.specs.declared.lines.Line.TheVariants.{Heading};
ghost use Rattle.wire.specs.Lines.{spaced, line_of, text_of};
ghost use Rattle.lines.specs.Fields.{field_text};

use crate::fields::Field;
use itoa::write_digits;
use std::marker::Model;
use wire::lines::Line;

// What is written of a line so far: at most 96 bytes of an array, with how many they are, since no heap is used
// here. The kit's `ArrayString` takes 1.3 times as long, its `ArrayVec` 1.7 times, and `Display` by `write!`, which
// would say the same, up to twice as long.
#[derive(Drop)]
pub(crate) struct Text {
    bytes: [u8; 96],
    len: usize,
}

impl Model for Text {
    ghost use Rattle.std.specs.Prelude.{ℕ, ◌≤◌, List, take};

    ghost Value = { List ℕ };

    ghost view = { λ text. take text.len text.bytes };

    ghost invariant = { λ text. text.len ≤ 96 };
}

// How many decimal digits a number has. `ilog10` would do, but nothing ties it to `decimal`.
fn digits_of(number: u64) -> usize
    ensures { result ≡ length (decimal number) }
{
    if number < 10 {
        return 1;
    }
    1 + digits_of(number / 10)
}

impl Text {
    // A text of no bytes.
    pub(crate) fn new() -> Text
        ensures { result ≡ [] }
    {
        Text {
            bytes: [0; 96],
            len: 0,
        }
    }

    // The bytes written.
    pub(crate) fn as_bytes(&self) -> &[u8]
        ensures value { result.now ≡ self.now }
        ensures short { length self.now ≤ 96 }
    {
        &self.bytes[0..self.len]
    }

    // Writes a byte.
    fn push(&mut self, byte: u8)
        requires { length self.old < 96 }
        ensures { self.new ≡ self.old ++ byte ∷ [] }
    {
        self.bytes[self.len] = byte;
        self.len += 1;
    }

    // Writes a number in decimal digits.
    fn push_decimal(&mut self, number: u64)
        requires { length self.old + 20 ≤ 96 }
        ensures text { self.new ≡ self.old ++ decimal number }
        ensures short { length self.new ≤ length self.old + 20 }
    {
        let end = self.len + digits_of(number);
        write_digits(number, &mut self.bytes, end);
        self.len = end;
    }

    // Writes a signed number in decimal digits, after a minus sign if it is negative.
    fn push_signed(&mut self, number: i32)
        requires { length self.old + 21 ≤ 96 }
        ensures text { self.new ≡ self.old ++ signed_decimal number }
        ensures short { length self.new ≤ length self.old + 21 }
    {
        if number < 0 {
            self.push(b'-');
        }
        self.push_decimal(u64::from(number.unsigned_abs()));
    }

    // Writes a field after one space.
    fn push_field(&mut self, field: Field)
        requires { length self.old + 22 ≤ 96 }
        ensures text { self.new ≡ self.old ++ spaced (field_text field) }
        ensures short { length self.new ≤ length self.old + 22 }
    {
        self.push(b' ');
        match field {
            Field::Number(number) => self.push_decimal(number),
            Field::Signed(number) => self.push_signed(number),
            Field::Letter(letter) => self.push(letter),
        }
    }

    // Makes it the heading.
    fn set_heading(&mut self)
        ensures { self.new ≡ text_of Heading }
    {
        let heading = b"hall list 1\n";
        self.bytes[0..heading.len()].copy_from_slice(heading);
        self.len = heading.len();
    }

    // Makes it a letter, fields each after one space, and a line feed.
    fn set_fields(&mut self, letter: u8, fields: &[Field])
        requires { length fields.now ≤ 4 }
        ensures { self.new ≡ line_of letter (map field_text fields.now) }
    {
        self.len = 0;
        self.push(letter);
        for field in fields {
            self.push_field(*field);
        }
        self.push(b'\n');
    }

    // Makes it the text of a line.
    pub(crate) fn set(&mut self, line: &Line)
        ensures { self.new ≡ text_of line.now }
    {
        match *line {
            Line::Heading => self.set_heading(),
            Line::Accepted {
                number,
                row,
                release,
            } => self.set_fields(b'A', &[number.into(), row.into(), release.into()]),
            Line::Displaced { number, row } => self.set_fields(b'X', &[number.into(), row.into()]),
            Line::Departed { number, row, at } => self.set_fields(
                b'D',
                &[number.into(), row.into(), at.into()],
            ),
            Line::Figure(figure) => self.set_fields(b'P', &[figure.into()]),
            Line::Totals {
                accepted,
                departed,
                displaced,
                held,
            } => self.set_fields(
                b'T',
                &[
                    accepted.into(),
                    departed.into(),
                    displaced.into(),
                    held.into(),
                ],
            ),
            Line::Refused {
                number,
                layer,
                place,
            } => self.set_fields(b'R', &[number.into(), layer.into(), place.into()]),
        }
    }
}
