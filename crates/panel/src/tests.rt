// What no clause says: that a run comes to its end, and what it leaves where a read or a write fails.
ghost use Rattle.std.specs.Prelude.{⊤};

use crate::causes::{Input, Output};
use crate::stream::run;
use std::io;
use std::io::{Error, ErrorKind, Read, Write};
use std::test::Fail;

// "Input (hexadecimal)": up 2, dispatch tick, Prune from 5.
const INPUT: [u8; 13] = [0, 2, 3, 2, 0, 2, 2, 1, 0, 3, 0, 5, 1];

// "Output", "the middle one scheduling EvictCache in 1,000".
const ANSWERS: [u8; 10] = [0, 0, 0, 4, 2, 0xe8, 7, 2, 0, 0];

// The numbers that Linux gives to two errors: the connection was reset, and no space is left.
const CONNECTION_RESET: i32 = 104;

const NO_SPACE: i32 = 28;

// Gives a byte a time, and fails when none is left.
#[derive(Drop)]
struct Broken<'a> {
    rest: &'a [u8],
}

impl Read for Broken<'_> {
    fn read(&mut self, buf: &mut [u8]) -> io::Result<usize> {
        let Some((first, rest)) = self.rest.split_first() else {
            return Err(Error::from_raw_os_error(CONNECTION_RESET));
        };
        if buf.is_empty() {
            return Ok(0);
        }
        buf[0] = *first;
        self.rest = rest;
        Ok(1)
    }
}

impl Input for Broken<'_> {
    ghost failed = { λ _ _. ⊤ };

    fn take_some(&mut self, buf: &mut [u8]) -> io::Result<usize> {
        self.read(buf)
    }
}

// Takes two bytes a time. When there is no room it fails with this error, or takes none where there is no such error.
#[derive(Drop)]
struct Full {
    taken: Vec<u8>,
    room: usize,
    error: Option<i32>,
}

impl Write for Full {
    fn write(&mut self, buf: &[u8]) -> io::Result<usize> {
        if self.room == 0
            && let Some(code) = self.error
        {
            return Err(Error::from_raw_os_error(code));
        }
        let n = buf.len().min(self.room).min(2);
        self.taken.extend_from_slice(&buf[..n])?;
        self.room -= n;
        Ok(n)
    }

    fn flush(&mut self) -> io::Result<()> {
        Ok(())
    }
}

impl Output for Full {
    ghost failed = { λ _ _. ⊤ };

    ghost took_none = { λ _. ⊤ };

    fn give_some(&mut self, buf: &[u8]) -> io::Result<usize> {
        self.write(buf)
    }

    fn pass_on(&mut self) -> io::Result<()> {
        self.flush()
    }
}

impl Output for Vec<u8> {
    ghost failed = { λ _ _. ⊤ };

    ghost took_none = { λ _. ⊤ };

    fn give_some(&mut self, buf: &[u8]) -> io::Result<usize> {
        self.write(buf)
    }

    fn pass_on(&mut self) -> io::Result<()> {
        self.flush()
    }
}

#[test]
fn the_worked_call(rt: HostRuntime) -> Result<(), Fail> {
    let mut input: &[u8] = &INPUT;
    let mut output = Vec::new(rt.alloc());
    run(&mut input, &mut output)?;
    assert_eq!(rt; output.as_slice(), ANSWERS.as_slice());
    Ok(())
}

// The error's number and its kind.
fn told(outcome: io::Result<()>) -> Option<(Option<i32>, ErrorKind)> {
    match outcome {
        Ok(()) => None,
        Err(error) => Some((error.raw_os_error(), error.kind())),
    }
}

// Cut at each byte, the input's end and a read that fails leave the same: the answers to all whole records, and 07 00 for one that is cut. The read's error is told.
#[test]
fn a_read_that_fails(rt: HostRuntime) -> Result<(), Fail> {
    for at in 0..14 {
        let bytes = &INPUT[..at];
        let mut input: &[u8] = bytes;
        let mut output = Vec::new(rt.alloc());
        run(&mut input, &mut output)?;
        let mut broken = Broken { rest: bytes };
        let mut left = Vec::new(rt.alloc());
        let error = told(run(&mut broken, &mut left));
        assert!(rt;
            error == Some((Some(CONNECTION_RESET), ErrorKind::ConnectionReset)),
            "at {at}"
        );
        assert_eq!(rt; left.as_slice(), output.as_slice(), "at {at}");
    }
    Ok(())
}

// A write that fails after any number of bytes: these are the first of the answers, and the write's error is told.
#[test]
fn a_write_that_fails(rt: HostRuntime) -> Result<(), Fail> {
    for room in 0..11 {
        let mut input: &[u8] = &INPUT;
        let mut output = Full {
            taken: Vec::new(rt.alloc()),
            room,
            error: Some(NO_SPACE),
        };
        let error = told(run(&mut input, &mut output));
        let wants = if room < 10 {
            Some((Some(NO_SPACE), ErrorKind::StorageFull))
        } else {
            None
        };
        assert!(rt; error == wants, "with room {room}");
        assert_eq!(rt;
            output.taken.as_slice(),
            &ANSWERS[..room.min(10)],
            "with room {room}"
        );
    }
    Ok(())
}

// A write that takes none of the bytes: that no byte was written is told.
#[test]
fn a_write_that_takes_none(rt: HostRuntime) -> Result<(), Fail> {
    for room in 0..10 {
        let mut input: &[u8] = &INPUT;
        let mut output = Full {
            taken: Vec::new(rt.alloc()),
            room,
            error: None,
        };
        let error = told(run(&mut input, &mut output));
        assert!(rt;
            error == Some((None, ErrorKind::WriteZero)),
            "with room {room}"
        );
        assert_eq!(rt;
            output.taken.as_slice(),
            &ANSWERS[..room],
            "with room {room}"
        );
    }
    Ok(())
}

// A read that fails in the first record, and then the write of 07 00: the write's error is told.
#[test]
fn a_read_and_then_a_write_that_fail(rt: HostRuntime) -> Result<(), Fail> {
    let mut input = Broken { rest: &INPUT[..3] };
    let mut output = Full {
        taken: Vec::new(rt.alloc()),
        room: 0,
        error: Some(NO_SPACE),
    };
    let error = told(run(&mut input, &mut output));
    assert!(rt; error == Some((Some(NO_SPACE), ErrorKind::StorageFull)));
    assert!(rt; output.taken.is_empty());
    Ok(())
}
