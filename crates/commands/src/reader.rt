// Commands read from bytes.
ghost use Rattle.std.specs.Prelude.{◌≡◌, ℕ, ◌+◌, ◌-◌, ◌<◌, ◌≤◌, true, ◌⊎◌, List, [], ◌∷◌, ◌++◌, length, Some, None, Ok, Err, slice_index};
ghost use Rattle.wire.specs.Roundtrips.{ReadsBack, Within};
ghost use Rattle.wire.specs.Decoding.{width_of, whole, found, read_of};

use buffers::faults::WireFault;
use wire::commands::{Command, Found};

// How many operand bytes follow a command byte of docs/STREAM.md; none where it is no command. Bytes are told
// apart and named in slice patterns, a rule of the project.
fn width(byte: u8) -> Option<usize>
    ensures { result ≡ width_of byte }
{
    match byte {
        0x01 => Some(7),
        0x03 | 0x05 => Some(15),
        0x04 => Some(8),
        0x06 => Some(9),
        0x02 | 0x07 | 0x08 => Some(0),
        _ => None,
    }
}

// The admission or exchange at the front of bytes that hold it whole, and the bytes after it.
fn take_admission(bytes: &[u8]) -> (Command, &[u8])
    requires kind { (slice_index bytes.now 0 ≡ 3) ⊎ (slice_index bytes.now 0 ≡ 5) }
    requires room { 16 ≤ length bytes.now }
    ensures within { length result.1.now < length bytes.now }
    ensures answer { read_of bytes.now ≡ Ok (Some (found result.0 (length bytes.now - length result.1.now))) }
{
    let [byte, a7, a6, a5, a4, a3, a2, a1, a0, others @ ..] = bytes else {
        unreachable()
    };
    let [row, l1, l0, h3, h2, h1, h0, rest @ ..] = others else {
        unreachable()
    };
    let at = u64::from_be_bytes([*a7, *a6, *a5, *a4, *a3, *a2, *a1, *a0]);
    let length = u16::from_be_bytes([*l1, *l0]);
    let handle = u32::from_be_bytes([*h3, *h2, *h1, *h0]);
    if *byte == 0x03 {
        return (
            Command::Admit {
                at,
                row: *row,
                length,
                handle,
            },
            rest,
        );
    }
    (
        Command::Exchange {
            at,
            row: *row,
            length,
            handle,
        },
        rest,
    )
}

// The command at the front of bytes that hold it whole, and the bytes after it.
fn take_apart(bytes: &[u8]) -> (Command, &[u8])
    requires { whole bytes.now ≡ true }
    ensures within { length result.1.now < length bytes.now }
    ensures answer { read_of bytes.now ≡ Ok (Some (found result.0 (length bytes.now - length result.1.now))) }
{
    match bytes {
        [0x01, row, p1, p0, b3, b2, b1, b0, rest @ ..] => {
            let pace = u16::from_be_bytes([*p1, *p0]);
            let burst = u32::from_be_bytes([*b3, *b2, *b1, *b0]);
            (
                Command::SetRow {
                    row: *row,
                    pace,
                    burst,
                },
                rest,
            )
        }
        [0x02, rest @ ..] => (Command::Start, rest),
        [0x03 | 0x05, ..] => take_admission(bytes),
        [0x04, a7, a6, a5, a4, a3, a2, a1, a0, rest @ ..] => {
            let at = u64::from_be_bytes([*a7, *a6, *a5, *a4, *a3, *a2, *a1, *a0]);
            (Command::Release { at }, rest)
        }
        [0x06, row, p3, p2, p1, p0, t3, t2, t1, t0, rest @ ..] => {
            let position = i32::from_be_bytes([*p3, *p2, *p1, *p0]);
            let target = i32::from_be_bytes([*t3, *t2, *t1, *t0]);
            (
                Command::Reading {
                    row: *row,
                    position,
                    target,
                },
                rest,
            )
        }
        [0x07, rest @ ..] => (Command::Show, rest),
        [0x08, rest @ ..] => (Command::Close, rest),
        _ => unreachable(),
    }
}

// The command at the front of the bytes, with how many of them it takes; nothing at their end.
// Refuses a byte that is no command, then operands that are cut off.
pub fn read(bytes: &[u8]) -> Result<Option<Found>, WireFault>
    ensures answer { result ≡ read_of bytes.now }
    ensures within { Within bytes.now result }
    ensures back { ReadsBack bytes.now result }
{
    let [first, operands @ ..] = bytes else {
        return Ok(None);
    };
    // a rule of the project tests the byte before it looks up the width, though the lookup refuses the same bytes
    if !(0x01..=0x08).contains(first) {
        return Err(WireFault::Unknown);
    }
    let width = width(*first).ok_or(WireFault::Unknown)?;
    if operands.len() < width {
        return Err(WireFault::CutOff);
    }
    let (command, rest) = take_apart(bytes);
    Ok(Some(Found {
        command,
        taken: bytes.len() - rest.len(),
    }))
}
