// Each command and each line once, and each refusal.
use commands::{read, write};
use lines::write_line;
use std::process::Abort;
use std::test::Fail;
use wire::{Command, Found, Layer, Line, WireFault};

// The command is written as these bytes, and read from them again.
fn both_ways(rt: &impl Abort, command: Command, bytes: &[u8]) -> Result<(), Fail> {
    let mut out = [0xee; 96];
    let count = write(&command, &mut out)?;
    assert_eq!(rt; &out[0..count], bytes);
    assert_eq!(rt;
        read(bytes)?,
        Some(Found {
            command,
            taken: count,
        })
    );
    Ok(())
}

// The line is written as this text.
fn spells(rt: &impl Abort, line: Line, text: &[u8]) -> Result<(), Fail> {
    let mut out = [0xee; 96];
    let count = write_line(&line, &mut out)?;
    assert_eq!(rt; &out[0..count], text);
    Ok(())
}

#[test]
fn commands_have_their_bytes(rt: HostRuntime) -> Result<(), Fail> {
    both_ways(
        &rt,
        Command::SetRow {
            row: 5,
            pace: 258,
            burst: 50595078,
        },
        b"\x01\x05\x01\x02\x03\x04\x05\x06",
    )?;
    both_ways(&rt, Command::Start, b"\x02")?;
    both_ways(
        &rt,
        Command::Admit {
            at: 258,
            row: 3,
            length: 1024,
            handle: 7,
        },
        b"\x03\0\0\0\0\0\0\x01\x02\x03\x04\0\0\0\0\x07",
    )?;
    both_ways(&rt, Command::Release { at: 255 }, b"\x04\0\0\0\0\0\0\0\xff")?;
    both_ways(
        &rt,
        Command::Exchange {
            at: 1,
            row: 2,
            length: 3,
            handle: 4,
        },
        b"\x05\0\0\0\0\0\0\0\x01\x02\0\x03\0\0\0\x04",
    )?;
    both_ways(
        &rt,
        Command::Reading {
            row: 1,
            position: -2,
            target: 256,
        },
        b"\x06\x01\xff\xff\xff\xfe\0\0\x01\0",
    )?;
    both_ways(&rt, Command::Show, b"\x07")?;
    both_ways(&rt, Command::Close, b"\x08")
}

#[test]
fn lines_have_their_text(rt: HostRuntime) -> Result<(), Fail> {
    spells(&rt, Line::Heading, b"hall list 1\n")?;
    spells(
        &rt,
        Line::Accepted {
            number: 0,
            row: 63,
            release: 18446744073709551615,
        },
        b"A 0 63 18446744073709551615\n",
    )?;
    spells(&rt, Line::Displaced { number: 10, row: 9 }, b"X 10 9\n")?;
    spells(
        &rt,
        Line::Departed {
            number: 4294967295,
            row: 0,
            at: 1200,
        },
        b"D 4294967295 0 1200\n",
    )?;
    spells(&rt, Line::Figure(-2147483648), b"P -2147483648\n")?;
    spells(&rt, Line::Figure(40), b"P 40\n")?;
    spells(
        &rt,
        Line::Totals {
            accepted: 4,
            departed: 2,
            displaced: 1,
            held: 100,
        },
        b"T 4 2 1 100\n",
    )?;
    spells(
        &rt,
        Line::Refused {
            number: 17,
            layer: Layer::Stream,
            place: 305,
        },
        b"R 17 S 305\n",
    )
}

#[test]
fn refusals_have_their_numbers(rt: HostRuntime) -> Result<(), Fail> {
    assert_eq!(rt; read(b"")?, None);
    assert_eq!(rt; read(b"\0\x02"), Err(WireFault::Unknown));
    assert_eq!(rt; read(b"\x09"), Err(WireFault::Unknown));
    assert_eq!(rt;
        read(b"\x01\x05\x01\x02\x03\x04\x05"),
        Err(WireFault::CutOff)
    );
    let mut short = [0xee; 95];
    assert_eq!(rt; write(&Command::Start, &mut short), Err(WireFault::Buffer));
    assert_eq!(rt;
        write_line(&Line::Heading, &mut short),
        Err(WireFault::Buffer)
    );
    assert_eq!(rt; WireFault::Unknown.number(), 14);
    assert_eq!(rt; WireFault::CutOff.number(), 15);
    assert_eq!(rt; WireFault::Buffer.number(), 17);
    Ok(())
}
