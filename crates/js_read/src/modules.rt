//! Modules.
ghost use Rattle.std.specs.Prelude.{◌≡◌, ◌⊎◌, ◌∷◌, ◌+◌, ℕ, List, [], length, true, Ok, Err, IfOk};
ghost use Rattle.exact_place.specs.Place.{Place};
ghost use Rattle.exact_place.specs.Reading.{passes, map_at, end_at};
ghost use Rattle.js_tree.specs.Terms.{Module};
ghost use Rattle.js_tree.specs.Spelling.{Spells};
ghost use Rattle.js_tree.specs.Views.{module_view};
ghost use Rattle.text_scan.specs.Gives.{Fails, Gives};
ghost use Rattle.js_read.specs.Lines.{line_view};
ghost use Rattle.js_read.specs.Fronts.{stage_of, exports_onto, module_onto};
ghost use Rattle.js_read.specs.declared.lines.Line.TheVariants as lines;
ghost use Rattle.js_read_spec.specs.Modules as reading;

use crate::errors::JsError;
use crate::lines::{Line, line_of};
use js_tree::{JsImport, JsItem, JsModule};
use sj_names::{Items, NoMemory, Text};
use std::alloc::Global;
use std::rc::Rc;
use text_scan::Stop;

/// How far a module is read: before its first item, behind it, or behind its export line.
#[derive(Drop)]
pub enum Reached {
    Imports,
    Items,
    Exports(Items<Text>),
}

/// The module so far.
#[derive(Drop)]
pub struct Front {
    imports: Vec<JsImport>,
    items: Vec<Rc<JsItem>>,
    reached: Reached,
}

// Whether one more line begins here.
fn goes_on(reached: &Reached, bytes: &[u8]) -> bool
    ensures { result ≡ passes (reading.goes_on (stage_of reached.now)) bytes.now }
{
    match bytes {
        [] => false,
        [_, ..] => match reached {
            Reached::Imports => true,
            Reached::Items => true,
            Reached::Exports(_) => false,
        },
    }
}

// Whether the next line may be an import.
fn may_import(reached: &Reached) -> bool
    ensures { result ≡ reading.is_imports (stage_of reached.now) }
{
    match reached {
        Reached::Imports => true,
        Reached::Items => false,
        Reached::Exports(_) => false,
    }
}

// The module so far and an import line.
fn put_import(front: Front, import: JsImport) -> Result<Front, NoMemory>
    ensures stage { IfOk result (λ f. stage_of f.reached ≡ stage_of front.reached) }
    ensures module { IfOk result (λ f. (ls : List reading.Line) → module_onto f (reading.module_of ls) ≡ module_onto front (reading.module_of (reading.import_line import ∷ ls))) }
{
    let mut front = front;
    front.imports.push(import)?;
    Ok(front)
}

// The module so far and an item.
fn put_item(alloc: Global, front: Front, item: JsItem) -> Result<Front, NoMemory>
    requires { reading.goes_on (stage_of front.reached) 0 ≡ true }
    ensures stage { IfOk result (λ f. stage_of f.reached ≡ reading.stage_after (stage_of front.reached) (line_view (lines.Item item))) }
    ensures module { IfOk result (λ f. (ls : List reading.Line) → module_onto f (reading.module_of ls) ≡ module_onto front (reading.module_of (line_view (lines.Item item) ∷ ls))) }
{
    let mut front = front;
    let shared = Rc::new(alloc, item)?;
    front.items.push(shared)?;
    front.reached = Reached::Items;
    Ok(front)
}

// The module so far and the export line.
fn put_exports(front: Front, names: Items<Text>) -> Front
    requires { reading.goes_on (stage_of front.reached) 0 ≡ true }
    ensures stage { stage_of result.reached ≡ reading.stage_after (stage_of front.reached) (reading.export_line names) }
    ensures module { (ls : List reading.Line) → module_onto result (reading.module_of ls) ≡ module_onto front (reading.module_of (reading.export_line names ∷ ls)) }
{
    let mut front = front;
    front.reached = Reached::Exports(names);
    front
}

// The module so far and one line more.
fn put(alloc: Global, front: Front, line: Line) -> Result<Front, NoMemory>
    requires { reading.goes_on (stage_of front.reached) 0 ≡ true }
    ensures stage { IfOk result (λ f. stage_of f.reached ≡ reading.stage_after (stage_of front.reached) (line_view line)) }
    ensures module { IfOk result (λ f. (ls : List reading.Line) → module_onto f (reading.module_of ls) ≡ module_onto front (reading.module_of (line_view line ∷ ls))) }
{
    match line {
        Line::Import(import) => put_import(front, import),
        Line::Item(item) => put_item(alloc, front, item),
        Line::Export(names) => Ok(put_exports(front, names)),
    }
}

// The names of the export line, if one was read.
fn exports_of(alloc: Global, reached: Reached) -> Items<Text>
    ensures { result ≡ exports_onto reached [] }
{
    match reached {
        Reached::Imports => Items::from_vec(Vec::new(alloc)),
        Reached::Items => Items::from_vec(Vec::new(alloc)),
        Reached::Exports(names) => names,
    }
}

// The module of what was read.
fn module_of_front(alloc: Global, front: Front) -> JsModule
    ensures { module_view result ≡ module_onto front (reading.module_of []) }
{
    let Front {
        imports,
        items,
        reached,
    } = front;
    JsModule {
        imports: Items::from_vec(imports),
        items,
        exports: exports_of(alloc, reached),
    }
}

// The module, where nothing stands behind it.
fn finish(alloc: Global, front: Front, bytes: &[u8]) -> Result<JsModule, Stop>
    ensures { Gives (λ m. (module_view m, [])) result (map_at (λ u. module_onto front (reading.module_of [])) end_at bytes.now) }
{
    match bytes {
        [] => Ok(module_of_front(alloc, front)),
        [_, ..] => Err(Stop::Bad(bytes.len())),
    }
}

// The module that the bytes spell, all of them.
#[tactic(auto, unfolding(js_read_spec::specs::Modules::module_at, js_read_spec::specs::Modules::module_lines_at))]
fn whole_module(alloc: Global, fuel: usize, bytes: &[u8]) -> Result<JsModule, Stop>
    ensures { Gives (λ m. (module_view m, [])) result (reading.module_at fuel bytes.now) }
{
    let mut front = Front {
        imports: Vec::new(alloc),
        items: Vec::new(alloc),
        reached: Reached::Imports,
    };
    let mut rest = bytes;
    for _ in 0..fuel {
        if !goes_on(&front.reached, rest) {
            return finish(alloc, front, rest);
        }
        let (line, after) = line_of(alloc, fuel, may_import(&front.reached), rest)?;
        let longer = put(alloc, front, line)?;
        front = longer;
        rest = after;
    }
    Err(Stop::Bad(rest.len()))
}

// Why the bytes spell no module, where their reader stopped.
#[tactic(auto, using(crate::proofs::WholeSteps::whole_steps))]
fn error_of(bytes: &[u8], stop: Stop) -> JsError
    requires { Fails stop (reading.module_at (length bytes.now + 1) bytes.now) }
    ensures place { (p : ℕ) → result ≡ JsError.BadJs p → Place Spells bytes.now p }
    ensures nothing { (p : ℕ) (m : Module) → result ≡ JsError.BadJs p → Spells m bytes.now → ⊥ }
    ensures memory { (m : Module) → Spells m bytes.now → result ≡ JsError.NoMemory }
{
    match stop {
        Stop::Bad(left) => JsError::BadJs((bytes.len() - left) as u64),
        Stop::NoMemory => JsError::NoMemory,
    }
}

/// The module that the bytes spell.
///
/// BadJs comes where they spell none. Its place is the length of the longest front that begins the text of a module.
#[tactic(auto, using(crate::proofs::WholeSteps::whole_steps))]
pub fn read_module(alloc: Global, bytes: &[u8]) -> Result<JsModule, JsError>
    ensures found { IfOk result (λ m. Spells (module_view m) bytes.now) }
    ensures only { (m : Module) → Spells m bytes.now → (result ≡ Err JsError.NoMemory) ⊎ IfOk result (λ k. module_view k ≡ m) }
    ensures place { (p : ℕ) → result ≡ Err (JsError.BadJs p) → Place Spells bytes.now p }
    ensures nothing { (p : ℕ) (m : Module) → result ≡ Err (JsError.BadJs p) → Spells m bytes.now → ⊥ }
{
    match whole_module(alloc, bytes.len() + 1, bytes) {
        Ok(found) => Ok(found),
        Err(stop) => Err(error_of(bytes, stop)),
    }
}
