//! Compares all pieces of linked worlds, in the order of a module, with those that an independent reference has recorded. The input is blocks of lines, with
//! tabs between the fields: `world`, `class FILE` for each class, `entries BYTES`, and then for each class of the folder `of CLASS` with its pieces behind it:
//! `piece OWNER NAME USES LINE ..`, for the functions of its methods `function OWNER NAME USES LINE ..`, and for helpers `helper OWNER NAME USES LINE ..`. USES
//! are the bindings that the piece uses, `OWNER NAME`, with commas between; the lines are those of its text. A world in which a field isn't by its
//! form one of an object isn't compared, and is told as such.
#![tactic(auto)]

mod blocks;
mod functions;
mod objects;
mod texts;
mod worlds;

use anyhow::Result;
use blocks::Block;

fn main(rt: HostRuntime) -> Result<()> {
    let alloc = rt.alloc();
    let mut number: u64 = 0;
    let mut block = Block::new(alloc);
    for line in rt.lines(alloc) {
        let line = line?;
        match line.as_str().split_once('\t') {
            Some((kind, fields)) => block.add(alloc, kind, fields)?,
            None => {
                print!(rt; "{}", block.told(alloc, number)?)?;
                block = Block::new(alloc);
                number = number.saturating_add(1);
            }
        }
    }
    print!(rt; "{}", block.told(alloc, number)?)?;
    Ok(())
}
