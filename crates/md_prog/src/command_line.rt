// The words of the command line.
use std::alloc::Global;
use std::env::FillError;
use std::rt::Env;
use std::{env, io};

/// An environment whose arguments are those of another one after the program's name, which need be no text.
#[derive(Drop)]
struct AfterName<'a, R>(&'a R);

impl<'a, R: Env> Env for AfterName<'a, R> {
    fn arg(&self, i: usize, buf: &mut [u8]) -> Result<usize, FillError> {
        match i.checked_add(1) {
            Some(next) => self.0.arg(next, buf),
            None => Err(FillError::NotPresent),
        }
    }

    fn var(&self, name: &str, buf: &mut [u8]) -> Result<usize, FillError> {
        self.0.var(name, buf)
    }

    fn var_at(&self, i: usize, buf: &mut [u8]) -> Result<usize, FillError> {
        self.0.var_at(i, buf)
    }
}

/// The words after the program's name; an error where memory runs out or one of them is no text.
pub(crate) fn words<R: Env>(rt: &R, alloc: Global) -> io::Result<Vec<String>> {
    let mut words = Vec::new(alloc);
    for word in env::args(&(AfterName(rt), alloc))? {
        words.push(word)?;
    }
    Ok(words)
}
