//! The workers of a program: they read by `sj_read`, check by `sj_typing` and emit by `sj_emit_expr`, and count on one meter.
#![tactic(auto)]

use js_tree::JsMember;
use sj_ask::{TypeError, WorldOracle};
use sj_core::CoreMethod;
use sj_names::{Meter, NoMemory};
use sj_recorder::Recorder;
use sj_trees::{ClassDef, MethodDef, ReadRefusal};
use sj_workers::Workers;
use std::alloc::Global;

/// The workers whose calls are the free calls of their names, on this meter.
#[derive(Drop)]
pub struct Workshop {
    pub meter: Meter,
}

impl Workers for Workshop {
    ghost meter = { λ w. w.meter };

    fn read_class(&mut self, alloc: Global, bytes: &[u8]) -> Result<ClassDef, ReadRefusal> {
        sj_read::read_class(alloc, bytes, &mut self.meter)
    }

    fn check_method(
        &mut self,
        alloc: Global,
        m: &MethodDef,
        oracle: &mut Recorder<WorldOracle<'_>>,
    ) -> Result<(), TypeError> {
        sj_typing::check_method(alloc, m, oracle, &mut self.meter)
    }

    fn emit_member(
        &mut self,
        alloc: Global,
        m: &CoreMethod,
        oracle: &mut Recorder<WorldOracle<'_>>,
    ) -> Result<JsMember, NoMemory> {
        sj_emit_expr::emit_member(alloc, m, oracle, &mut self.meter)
    }
}
