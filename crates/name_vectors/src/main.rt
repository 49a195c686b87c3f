// Compares names and texts with the answers of an independent reference. Each line of the input is a case: of names
// `KIND TEXT ok MANGLED`, `KIND TEXT ok` or `KIND TEXT bad`, of texts of units `BYTES ok UNITS` or `BYTES bad`, with tabs between.
#![tactic(auto)]

mod name_cases;
mod outcome;
mod unit_cases;

use std::io;

fn main(rt: HostRuntime) -> io::Result<()> {
    let mut agree: u64 = 0;
    let mut differ: u64 = 0;
    for line in rt.lines(rt.alloc()) {
        let line = line?;
        if is_met(rt.alloc(), line.as_str()) {
            agree = agree.saturating_add(1);
        } else {
            differ = differ.saturating_add(1);
            println!(rt; "differs: {line}")?;
        }
    }
    println!(rt; "agree {agree}, differ {differ}")?;
    Ok(())
}

// Whether the case of this line is met. A case for which no memory was left isn't.
fn is_met(alloc: std::alloc::Global, line: &str) -> bool {
    let mut fields = line.split('\t');
    let first = fields.next().unwrap_or("");
    let second = fields.next().unwrap_or("");
    let third = fields.next();
    let fourth = fields.next();
    match first {
        "class" | "simple" | "field" | "local" | "label" | "method" | "ref" => {
            name_cases::is_met(alloc, first, second, third.unwrap_or(""), fourth).unwrap_or(false)
        }
        _ => unit_cases::is_met(alloc, first, second, third.unwrap_or("")).unwrap_or(false),
    }
}
