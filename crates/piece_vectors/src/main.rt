//! Compares the pieces of classes, the helpers, and the functions that tell primitive receivers apart, with the answers of an independent reference. The
//! input is blocks of lines, with tabs between the fields: `world`, `class FILE` for each class, `entries BYTES`, and then for each class of the folder `of
//! CLASS` with its pieces behind it: `piece OWNER NAME USES LINE ..`, and for helpers `helper OWNER NAME USES LINE ..`. USES are the bindings that the piece
//! uses, `OWNER NAME`, with commas between; the lines are those of its text.
#![tactic(auto)]

mod answers;
mod blocks;
mod helpers;
mod texts;

use anyhow::Result;
use blocks::Block;
use std::alloc::Global;

// How many lines are met, and how many aren't.
#[derive(Drop)]
struct Tally {
    agree: u64,
    differ: u64,
}

fn main(rt: HostRuntime) -> Result<()> {
    let alloc = rt.alloc();
    let mut block = Block::new(alloc);
    let mut tally = Tally {
        agree: 0,
        differ: 0,
    };
    for line in rt.lines(alloc) {
        let line = line?;
        match line.as_str().split_once('\t') {
            Some((kind, fields)) => block.add(alloc, kind, fields, line.as_str())?,
            None => {
                print!(rt; "{}", judge(alloc, block, &mut tally)?)?;
                block = Block::new(alloc);
            }
        }
    }
    print!(rt; "{}", judge(alloc, block, &mut tally)?)?;
    println!(rt; "agree {}, differ {}", tally.agree, tally.differ)?;
    Ok(())
}

// What is to be told of a block: the lines that aren't answered, and those that are answered and weren't wanted.
fn judge(alloc: Global, block: Block, tally: &mut Tally) -> Result<String> {
    let (wanted, answered) = block.compared(alloc)?;
    let mut text = String::new(alloc);
    for place in 0..wanted.len().max(answered.len()) {
        let is_met = match (wanted.get(place), answered.get(place)) {
            (Some(one), Some(other)) => one == other,
            _ => false,
        };
        if is_met {
            tally.agree = tally.agree.saturating_add(1);
        } else {
            tally.differ = tally.differ.saturating_add(1);
            tell(&wanted, place, "wanted ", &mut text)?;
            tell(&answered, place, "answered ", &mut text)?;
        }
    }
    Ok(text)
}

fn tell(lines: &[String], place: usize, word: &str, text: &mut String) -> Result<()> {
    if let Some(line) = lines.get(place) {
        text.push_str(word)?;
        text.push_str(line.as_str())?;
        text.push('\n')?;
    }
    Ok(())
}
