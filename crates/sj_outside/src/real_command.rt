// The words that a real program was started with.
use sj_names::NoMemory;
use std::io::ErrorKind;
use std::rt::Env;
use std::{env, io};

/// The words of the command line, without the program's name. Where one of them isn't UTF-8 they are no command, and none is
/// taken. Want of memory is the only error.
pub fn real_words<R: Env + AllocGlobal>(rt: &R) -> Result<Vec<String>, NoMemory> {
    match texts(rt) {
        Ok(words) => Ok(words),
        Err(error) if error.kind() == ErrorKind::OutOfMemory => Err(NoMemory),
        Err(_) => Ok(Vec::new(rt.alloc())),
    }
}

fn texts<R: Env + AllocGlobal>(rt: &R) -> io::Result<Vec<String>> {
    let mut texts = Vec::new(rt.alloc());
    for text in env::args(rt)?.skip(1) {
        texts.push(text)?;
    }
    Ok(texts)
}
