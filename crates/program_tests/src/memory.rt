// What the runs in memory share.
use std::alloc::{AllocError, Global};

/// The words of a command line.
pub(crate) fn words(alloc: Global, texts: &[&str]) -> Result<Vec<String>, AllocError> {
    let mut words = Vec::new(alloc);
    for text in texts {
        words.push(String::from_str(alloc, text)?)?;
    }
    Ok(words)
}

/// The number of the one call that is to fail, as a list.
pub(crate) fn failing(alloc: Global, number: u64) -> Result<Vec<u64>, AllocError> {
    Ok(vec![in alloc; number]?)
}
