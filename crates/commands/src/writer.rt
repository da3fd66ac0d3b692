// Commands written as bytes.
ghost use Rattle.std.specs.Prelude.{◌≡◌, ℕ, ◌+◌, ◌≤◌, List, [], ◌∷◌, ◌++◌, length, Some, None, Ok, Err, MatchResult};
ghost use Rattle.wire.specs.declared.commands.Command.TheVariants.{SetRow, Admit, Reading};
ghost use Rattle.buffers.specs.declared.faults.WireFault.TheVariants.{Buffer};
ghost use Rattle.buffers.specs.Buffers.{count_in, after};
ghost use Rattle.wire.specs.Decoding.{found, read_of};
ghost use Rattle.wire.specs.Encoding.{admission, encode, Fits};

use buffers::bytes::put;
use buffers::faults::WireFault;
use wire::commands::Command;

// The bytes of a row's card; the operands of a card fit. Here and below an array is whole: it has no length beside it.
fn set_row_bytes(row: u8, pace: u16, burst: u32) -> [u8; 8]
    ensures bytes { result ≡ encode (SetRow row pace burst) }
    ensures fits { Fits (SetRow row pace burst) }
{
    let [p1, p0] = pace.to_be_bytes();
    let [b3, b2, b1, b0] = burst.to_be_bytes();
    [0x01, row, p1, p0, b3, b2, b1, b0]
}

// The bytes of an admission or an exchange: a command byte, then the operands that the two share, which fit.
fn admission_bytes(byte: u8, at: u64, row: u8, units: u16, handle: u32) -> [u8; 16]
    ensures bytes { result ≡ byte ∷ admission at row units handle }
    ensures fits { Fits (Admit at row units handle) }
{
    let [a7, a6, a5, a4, a3, a2, a1, a0] = at.to_be_bytes();
    let [u1, u0] = units.to_be_bytes();
    let [h3, h2, h1, h0] = handle.to_be_bytes();
    [
        byte, a7, a6, a5, a4, a3, a2, a1, a0, row, u1, u0, h3, h2, h1, h0,
    ]
}

// The bytes of a reading; its operands fit.
fn reading_bytes(row: u8, position: i32, target: i32) -> [u8; 10]
    ensures bytes { result ≡ encode (Reading row position target) }
    ensures fits { Fits (Reading row position target) }
{
    let [p3, p2, p1, p0] = position.to_be_bytes();
    let [t3, t2, t1, t0] = target.to_be_bytes();
    [0x06, row, p3, p2, p1, p0, t3, t2, t1, t0]
}

// Writes the bytes of a command at the front of a buffer and answers their count; the bytes past them stay.
// Refuses a buffer of under 96 bytes, and leaves it. The test stands here and in the writer of lines, since `put`,
// in which both end, refuses nothing.
pub fn write(command: &Command, out: &mut [u8]) -> Result<usize, WireFault>
    ensures count { result ≡ count_in out.old (encode command.now) }
    ensures buffer { out.new ≡ after out.old (encode command.now) }
    ensures within { MatchResult result (λ n. n ≤ 96) (λ e. e ≡ Buffer) }
    ensures reads { 96 ≤ length out.old → read_of out.new ≡ Ok (Some (found command.now (length (encode command.now)))) }
{
    if out.len() < 96 {
        return Err(WireFault::Buffer);
    }
    // each command has operands of its own, which a match takes apart
    let count = match *command {
        Command::SetRow { row, pace, burst } => put(out, &set_row_bytes(row, pace, burst)),
        Command::Start => put(out, &[0x02]),
        Command::Admit {
            at,
            row,
            length,
            handle,
        } => put(out, &admission_bytes(0x03, at, row, length, handle)),
        Command::Release { at } => {
            let [a7, a6, a5, a4, a3, a2, a1, a0] = at.to_be_bytes();
            put(out, &[0x04, a7, a6, a5, a4, a3, a2, a1, a0])
        }
        Command::Exchange {
            at,
            row,
            length,
            handle,
        } => put(out, &admission_bytes(0x05, at, row, length, handle)),
        Command::Reading {
            row,
            position,
            target,
        } => put(out, &reading_bytes(row, position, target)),
        Command::Show => put(out, &[0x07]),
        Command::Close => put(out, &[0x08]),
    };
    Ok(count)
}
