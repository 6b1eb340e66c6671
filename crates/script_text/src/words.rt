//! The words of the command line.

use std::env;
use std::io::{self, ErrorKind};
use std::rt::Env;

/// The words behind the program's name. Where one of them isn't text there are none, which ask for nothing.
pub fn given_words<R: Env + Alloc>(rt: &R) -> io::Result<Vec<String<R::A>, R::A>> {
    match env::args(rt) {
        Ok(words) => Ok(words.skip(1).collect(rt.alloc())?),
        Err(error) if error.kind() == ErrorKind::InvalidData => Ok(Vec::new(rt.alloc())),
        Err(error) => Err(error),
    }
}
