// Who reads, checks and emits.
ghost use Rattle.std.specs.Prelude.{◌≡◌, IsSome};
ghost use Rattle.sj_names.specs.Counting.{raised};
ghost use Rattle.sj_names.specs.declared.counters.Meter.{Meter};
ghost use Rattle.sj_read_spec.specs.Answers.{Reads};
ghost use Rattle.sj_ask.specs.Answers.{IsAnswer};
ghost use Rattle.sj_typing_spec.specs.Answered.{AsRun, agreed, IsVerdict};
ghost use Rattle.sj_typing_spec.specs.Checks.{check_task};
ghost use Rattle.sj_core.specs.Views.{method_view};
ghost use Rattle.sj_emit_expr_questions.specs.Laws.{AsEmitted};

use js_tree::JsMember;
use sj_ask::{Oracle, TypeError, WorldOracle};
use sj_core::CoreMethod;
use sj_names::NoMemory;
use sj_recorder::Recorder;
use sj_trees::{ClassDef, MethodDef, ReadRefusal};
use std::alloc::Global;

/// Who does the work of an edit that is counted.
///
/// `meter` is what was counted. Each call does what the free call of its name does, with the same refusals, and raises its own count by one, or
/// leaves it where it stands at the last value of its type; it changes no other count. What a call asks of its oracle the recorder keeps.
pub trait Workers {
    ghost meter: { Self → Meter };

    /// Reads a class file, as `sj_read::read_class` does.
    fn read_class(&mut self, alloc: Global, bytes: &[u8]) -> Result<ClassDef, ReadRefusal>
        ensures answer { Reads bytes.now result }
        ensures counted { meter self.new ≡ record (meter self.old) { read = raised (meter self.old).read } };

    /// Checks the types of a method, as `sj_typing::check_method` does. The condition is that it has a body.
    fn check_method(
        &mut self,
        alloc: Global,
        m: &MethodDef,
        oracle: &mut Recorder<WorldOracle<'_>>,
    ) -> Result<(), TypeError>
        requires { IsSome m.now.body }
        ensures stand { ⟦<Recorder<WorldOracle<'static>> as Oracle>⟧.stand oracle.new ≡ ⟦<Recorder<WorldOracle<'static>> as Oracle>⟧.stand oracle.old }
        ensures verdict { IsVerdict (⟦<Recorder<WorldOracle<'static>> as Oracle>⟧.stand oracle.old).classes m.now result }
        ensures told { AsRun (IsAnswer (⟦<Recorder<WorldOracle<'static>> as Oracle>⟧.stand oracle.old)) (check_task m.now m.now.body) (agreed result) (⟦<Recorder<WorldOracle<'static>> as Oracle>⟧.told oracle.old) (⟦<Recorder<WorldOracle<'static>> as Oracle>⟧.told oracle.new) }
        ensures counted { meter self.new ≡ record (meter self.old) { checked = raised (meter self.old).checked } };

    /// Emits the function of a method, as `sj_emit_expr::emit_member` does.
    fn emit_member(
        &mut self,
        alloc: Global,
        m: &CoreMethod,
        oracle: &mut Recorder<WorldOracle<'_>>,
    ) -> Result<JsMember, NoMemory>
        ensures stand { ⟦<Recorder<WorldOracle<'static>> as Oracle>⟧.stand oracle.new ≡ ⟦<Recorder<WorldOracle<'static>> as Oracle>⟧.stand oracle.old }
        ensures told { AsEmitted (IsAnswer (⟦<Recorder<WorldOracle<'static>> as Oracle>⟧.stand oracle.old)) (method_view m.now) result (⟦<Recorder<WorldOracle<'static>> as Oracle>⟧.told oracle.old) (⟦<Recorder<WorldOracle<'static>> as Oracle>⟧.told oracle.new) }
        ensures counted { meter self.new ≡ record (meter self.old) { emitted = raised (meter self.old).emitted } };
}
