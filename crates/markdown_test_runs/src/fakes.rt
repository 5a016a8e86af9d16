//! Readers and writers that read little, take little, or fail.
use std::alloc::Global;
use std::io::{self, ErrorKind, Read, Write};

// The kind of error that is named here, if one is.
pub(crate) fn error_kind(fault: &str) -> Option<ErrorKind> {
    match fault {
        "OutOfMemory" => Some(ErrorKind::OutOfMemory),
        "InvalidData" => Some(ErrorKind::InvalidData),
        "Other" => Some(ErrorKind::Other),
        _ => None,
    }
}

// Reads bytes one at a time: a read is interrupted before each, and behind the last one comes an error or the end.
#[derive(Drop)]
pub(crate) struct Slow<'a> {
    pub(crate) left: &'a [u8],
    pub(crate) reads: usize,
    fails: Option<ErrorKind>,
}

impl<'a> Slow<'a> {
    pub(crate) fn new(left: &'a [u8], fails: Option<ErrorKind>) -> Slow<'a> {
        Slow {
            left,
            reads: 0,
            fails,
        }
    }
}

impl<'a> Read for Slow<'a> {
    fn read(&mut self, buf: &mut [u8]) -> io::Result<usize> {
        self.reads = self.reads.wrapping_add(1);
        if self.reads % 2 == 1 {
            return Err(io::Error::from(ErrorKind::Interrupted));
        }
        let Some(place) = buf.first_mut() else {
            return Ok(0);
        };
        let Some((byte, rest)) = self.left.split_first() else {
            return match self.fails {
                Some(kind) => Err(io::Error::from(kind)),
                None => Ok(0),
            };
        };
        *place = *byte;
        self.left = rest;
        Ok(1)
    }
}

// Takes some bytes, one at a time and each after an interruption, and then fails. What it took goes on only when it is flushed, which may fail
// too.
#[derive(Drop)]
pub(crate) struct Narrow {
    room: usize,
    fails: ErrorKind,
    is_ready: bool,
    flushes: bool,
    held: Vec<u8>,
    pub(crate) passed: Vec<u8>,
}

impl Narrow {
    pub(crate) fn new(alloc: Global, room: usize, fails: ErrorKind, flushes: bool) -> Narrow {
        Narrow {
            room,
            fails,
            is_ready: false,
            flushes,
            held: Vec::new(alloc),
            passed: Vec::new(alloc),
        }
    }
}

impl Write for Narrow {
    fn write(&mut self, buf: &[u8]) -> io::Result<usize> {
        self.is_ready = !self.is_ready;
        if self.is_ready {
            return Err(io::Error::from(ErrorKind::Interrupted));
        }
        if self.room == 0 {
            return Err(io::Error::from(self.fails));
        }
        let Some(first) = buf.first() else {
            return Ok(0);
        };
        self.room -= 1;
        self.held.push(*first)?;
        Ok(1)
    }

    fn flush(&mut self) -> io::Result<()> {
        if !self.flushes {
            return Err(io::Error::from(self.fails));
        }
        self.passed.append(&mut self.held)?;
        Ok(())
    }
}
