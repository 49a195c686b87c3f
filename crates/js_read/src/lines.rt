//! Lines of a module.
ghost use Rattle.std.specs.Prelude.{◌≡◌, codes};
ghost use Rattle.exact_place.specs.Reading.{after_at, lead_at, value_at};
ghost use Rattle.text_scan.specs.Gives.{Gives};
ghost use Rattle.js_read.specs.Lines.{line_view};
ghost use Rattle.js_read_spec.specs.Modules as reading;
ghost use Rattle.js_read_spec.specs.declared.words.LineHead.TheVariants as heads;

use crate::items::{item_after, names_of};
use js_read_scan::{file_of, line_head_of, next_is_word_start};
use js_read_spec::{ItemHead, LineHead};
use js_read_statements::wordless_of;
use js_tree::{JsImport, JsItem};
use sj_names::{Items, Text};
use std::alloc::Global;
use text_scan::{Stop, literal};

/// A line of a module, or an item on its lines.
#[derive(Drop)]
pub enum Line {
    Import(JsImport),
    Item(JsItem),
    Export(Items<Text>),
}

// What a reader of lines gives: the line and the rest.
type Read<'a> = Result<(Line, &'a [u8]), Stop>;

// The file of an import line, behind its names.
fn import_of<'a>(alloc: Global, names: Items<Text>, bytes: &'a [u8]) -> Read<'a>
    ensures { Gives (λ x. (line_view x.0, x.1.now)) result (lead_at (codes " } from \"./") (after_at reading.file_at (λ f. lead_at (codes "\";\n") (value_at (reading.import_line (record { names = names; file = f }))))) bytes.now) }
{
    let rest = literal(b" } from \"./", bytes)?;
    let (file, rest) = file_of(alloc, rest)?;
    let rest = literal(b"\";\n", rest)?;
    Ok((Line::Import(JsImport { names, file }), rest))
}

// What stands behind `import`.
#[tactic(auto, unfolding(js_read_spec::specs::Modules::line_after_at))]
fn import_after<'a>(alloc: Global, fuel: usize, bytes: &'a [u8]) -> Read<'a>
    ensures { Gives (λ x. (line_view x.0, x.1.now)) result (reading.line_after_at fuel heads.Import bytes.now) }
{
    let rest = literal(b" { ", bytes)?;
    let (names, rest) = names_of(alloc, fuel, rest)?;
    import_of(alloc, names, rest)
}

// What stands behind `export`.
#[tactic(auto, unfolding(js_read_spec::specs::Modules::line_after_at))]
fn export_after<'a>(alloc: Global, fuel: usize, bytes: &'a [u8]) -> Read<'a>
    ensures { Gives (λ x. (line_view x.0, x.1.now)) result (reading.line_after_at fuel heads.Export bytes.now) }
{
    let rest = literal(b" { ", bytes)?;
    let (names, rest) = names_of(alloc, fuel, rest)?;
    let rest = literal(b" };\n", rest)?;
    Ok((Line::Export(names), rest))
}

// An item and its line feed, behind its first word.
#[tactic(auto, unfolding(js_read_spec::specs::Modules::line_after_at))]
fn item_line_after<'a>(alloc: Global, fuel: usize, head: ItemHead, bytes: &'a [u8]) -> Read<'a>
    ensures { Gives (λ x. (line_view x.0, x.1.now)) result (reading.line_after_at fuel (heads.Item head) bytes.now) }
{
    let (item, rest) = item_after(alloc, fuel, head, bytes)?;
    let rest = literal(b"\n", rest)?;
    Ok((Line::Item(item), rest))
}

// A line behind its first word.
fn line_after<'a>(alloc: Global, fuel: usize, head: LineHead, bytes: &'a [u8]) -> Read<'a>
    ensures { Gives (λ x. (line_view x.0, x.1.now)) result (reading.line_after_at fuel head bytes.now) }
{
    match head {
        LineHead::Import => import_after(alloc, fuel, bytes),
        LineHead::Export => export_after(alloc, fuel, bytes),
        LineHead::Item(head) => item_line_after(alloc, fuel, head, bytes),
    }
}

/// A line, where an import may come or not any more.
#[tactic(auto, unfolding(js_read_spec::specs::Modules::line_at))]
pub fn line_of<'a>(alloc: Global, fuel: usize, imports: bool, bytes: &'a [u8]) -> Read<'a>
    ensures { Gives (λ x. (line_view x.0, x.1.now)) result (reading.line_at fuel imports bytes.now) }
{
    if next_is_word_start(bytes) {
        let (head, rest) = line_head_of(alloc, imports, bytes)?;
        line_after(alloc, fuel, head, rest)
    } else {
        let (expression, rest) = wordless_of(alloc, fuel, bytes)?;
        let rest = literal(b";\n", rest)?;
        Ok((Line::Item(JsItem::Expression(expression)), rest))
    }
}
