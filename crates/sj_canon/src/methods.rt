// Methods.
ghost use Rattle.std.specs.Prelude.{◌≡◌, ◌++◌, IfOk, OnOk};
ghost use Rattle.sj_canon.specs.Numbers.{list_bytes, each_bytes, option_bytes};
ghost use Rattle.sj_canon.specs.Terms.{term_bytes};
ghost use Rattle.sj_canon.specs.Methods.{param_bytes, canonical};

use crate::names::{namespace_code, put_method_name, put_type};
use crate::numbers::{put_byte, put_mark, put_number, put_text};
use crate::trees::put_tree;
use sj_names::NoMemory;
use sj_trees::{Body, MethodDef, ParamDef};
use std::alloc::Global;

/// The canonical bytes of a method: those of two methods are the same exactly where the methods are equal apart from positions
/// and stored hashes (`canonical_bytes_decide`). `NoMemory` where no memory is left.
pub fn canon(alloc: Global, m: &MethodDef) -> Result<Vec<u8>, NoMemory>
    ensures { IfOk result (λ bytes. bytes.items ≡ canonical m.now) }
{
    let mut out = Vec::new(alloc);
    put_method(&mut out, m)?;
    Ok(out)
}

#[tactic(auto, unfolding(crate::specs::Methods::canonical))]
fn put_method(out: &mut Vec<u8>, m: &MethodDef) -> Result<(), NoMemory>
    ensures { OnOk result (out.new.items ≡ out.old.items ++ canonical m.now) }
{
    put_byte(out, namespace_code(m.namespace))?;
    put_method_name(out, &m.name)?;
    put_params(out, m.params.as_slice())?;
    put_type(out, &m.result)?;
    put_body(out, &m.body)
}

fn put_params(out: &mut Vec<u8>, params: &[ParamDef]) -> Result<(), NoMemory>
    ensures { OnOk result (out.new.items ≡ out.old.items ++ list_bytes param_bytes params.now) }
{
    put_number(out, params.len() as u64)?;
    put_each_param(out, params)
}

fn put_each_param(out: &mut Vec<u8>, params: &[ParamDef]) -> Result<(), NoMemory>
    ensures { OnOk result (out.new.items ≡ out.old.items ++ each_bytes param_bytes params.now) }
{
    for param in params {
        put_param(out, param)?;
    }
    Ok(())
}

#[tactic(auto, unfolding(crate::specs::Methods::param_bytes))]
fn put_param(out: &mut Vec<u8>, param: &ParamDef) -> Result<(), NoMemory>
    ensures { OnOk result (out.new.items ≡ out.old.items ++ param_bytes param.now) }
{
    put_mark(out, param.mutable)?;
    put_text(out, param.name.text())?;
    put_type(out, &param.tpe)
}

fn put_body(out: &mut Vec<u8>, body: &Option<Body>) -> Result<(), NoMemory>
    ensures { OnOk result (out.new.items ≡ out.old.items ++ option_bytes term_bytes body.now) }
{
    match body {
        None => put_byte(out, 0),
        Some(body) => {
            put_byte(out, 1)?;
            put_tree(out, body.tree())
        }
    }
}
