// The sizes of folders.
use crate::texts::add;
use folder_sizes::first_too_large;
use sj_names::NameError;
use std::alloc::Global;

/// Adds the answer to `sizes`, whose groups `COUNT SIZE` are so many files of so many bytes each: `pass`, or `18` and the path of the file at which a
/// folder of them is too large, where the paths are `00000.sjsir`, `00001.sjsir` and so on.
pub(crate) fn add_answer(alloc: Global, groups: &str, text: &mut String) -> Result<(), NameError> {
    match sizes_of(alloc, groups) {
        Some(sizes) => add_place(alloc, first_too_large(&sizes), text),
        None => Err(NameError::BadName),
    }
}

// The sizes of the files of all groups.
fn sizes_of(alloc: Global, groups: &str) -> Option<Vec<u64>> {
    let mut sizes = Vec::new(alloc);
    for group in groups.split('\t') {
        add_group(group, &mut sizes)?;
    }
    Some(sizes)
}

fn add_group(group: &str, sizes: &mut Vec<u64>) -> Option<()> {
    let (count, size) = group.split_once(' ')?;
    let count = count.parse::<usize>().ok()?;
    let size = size.parse::<u64>().ok()?;
    for _ in 0..count {
        sizes.push(size).ok()?;
    }
    Some(())
}

fn add_place(alloc: Global, place: Option<usize>, text: &mut String) -> Result<(), NameError> {
    match place {
        Some(place) => {
            let line = format!(in alloc; "18 {place:05}.sjsir\n")?;
            add(&[line.as_str()], text)
        }
        None => add(&["pass\n"], text),
    }
}
