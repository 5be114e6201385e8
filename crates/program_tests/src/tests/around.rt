use std::alloc::Global;
use std::cell::Cell;
use std::env::{Env, FillError};
use std::fmt::Display;
use std::io;
use std::io::Read;

// An environment with these arguments, the program's name first, and no variables.
#[derive(Clone, Copy)]
pub struct Arguments<'a> {
    pub all: &'a [&'a [u8]],
}

impl Env for Arguments<'_> {
    fn arg(&self, i: usize, buf: &mut [u8]) -> Result<usize, FillError> {
        let text = match self.all.get(i) {
            Some(text) => *text,
            None => return Err(FillError::NotPresent),
        };
        if text.len() > buf.len() {
            return Err(FillError::TooLong);
        }
        buf[..text.len()].copy_from_slice(text);
        Ok(text.len())
    }

    fn var(&self, _name: &str, _buf: &mut [u8]) -> Result<usize, FillError> {
        Err(FillError::NotPresent)
    }

    fn var_at(&self, _i: usize, _buf: &mut [u8]) -> Result<usize, FillError> {
        Err(FillError::NotPresent)
    }
}

// A reader of bytes whose first read may fail.
#[derive(Drop)]
pub struct Tape<'a> {
    pub left: &'a [u8],
    pub fails: bool,
}

impl Read for Tape<'_> {
    fn read(&mut self, buf: &mut [u8]) -> io::Result<usize> {
        if self.fails {
            self.fails = false;
            return Err(io::Error::from(io::ErrorKind::Other));
        }
        let count = buf.len().min(self.left.len());
        let (front, rest) = self.left.split_at(count);
        buf[..count].copy_from_slice(front);
        self.left = rest;
        Ok(count)
    }
}

// The surroundings of a program: its arguments, its output, and what it reports. Only the bytes of
// the last two are counted. The first write may fail.
#[derive(Drop)]
pub struct Around<'a> {
    pub alloc: Global,
    pub arguments: Arguments<'a>,
    pub fails: Cell<bool>,
    pub written: Cell<usize>,
    pub said: Cell<usize>,
}

impl Env for Around<'_> {
    fn arg(&self, i: usize, buf: &mut [u8]) -> Result<usize, FillError> {
        self.arguments.arg(i, buf)
    }

    fn var(&self, name: &str, buf: &mut [u8]) -> Result<usize, FillError> {
        self.arguments.var(name, buf)
    }

    fn var_at(&self, i: usize, buf: &mut [u8]) -> Result<usize, FillError> {
        self.arguments.var_at(i, buf)
    }
}

impl Print for Around<'_> {
    fn print<D: Display + Drop>(&self, _value: D) -> io::Result<()> {
        Ok(())
    }

    fn println<D: Display + Drop>(&self, _value: D) -> io::Result<()> {
        Ok(())
    }

    fn write_all(&self, bytes: &[u8]) -> io::Result<()> {
        if self.fails.get() {
            self.fails.set(false);
            return Err(io::Error::from(io::ErrorKind::Other));
        }
        self.written
            .set(self.written.get().saturating_add(bytes.len()));
        Ok(())
    }
}

impl Eprint for Around<'_> {
    fn eprint<D: Display + Drop>(&self, value: D) -> io::Result<()> {
        let text = format!(in self.alloc; "{value}")?;
        self.said.set(self.said.get().saturating_add(text.len()));
        Ok(())
    }

    fn eprintln<D: Display + Drop>(&self, _value: D) -> io::Result<()> {
        Ok(())
    }
}
