// Texts in byte order, each once.
ghost use Rattle.std.specs.Prelude.{◌≡◌, IfOk};
ghost use Rattle.sj_emit_module_spec.specs.Order.{each_once_in_order};

use indexmap::IndexSet;
use sj_names::{NoMemory, Text};
use std::alloc::Global;

/// The texts of a set in byte order.
pub fn in_order(alloc: Global, set: &IndexSet<Text>) -> Result<Vec<Text>, NoMemory>
    ensures { IfOk result (λ texts. texts.items ≡ each_once_in_order set.now.keys) }
{
    Ok(each_once_in_order(listed(alloc, set)?))
}

fn each_once_in_order(mut texts: Vec<Text>) -> Vec<Text>
    ensures { result.items ≡ each_once_in_order texts.items }
{
    texts.sort_unstable();
    texts.dedup();
    texts
}

fn listed(alloc: Global, set: &IndexSet<Text>) -> Result<Vec<Text>, NoMemory>
    ensures { IfOk result (λ texts. texts.items ≡ set.now.keys) }
{
    let mut texts = Vec::new(alloc);
    for place in 0..set.len() {
        texts.push(set[place].copied()?)?;
    }
    Ok(texts)
}
