// The pieces of classes, by the rules of printing.
ghost use Rattle.std.specs.Prelude.{All, List};
ghost use Rattle.sj_emit_help_spec.specs.Helpers.{Above, helper_piece};
ghost use Rattle.sj_emit_help_spec.specs.declared.kinds.Helper.{Helper};
ghost use Rattle.sj_emit_help_spec.specs.declared.kinds.Kind.{Kind};
ghost use Rattle.js_tree.specs.Rules.{IsPiece};
ghost use Rattle.sj_emit_class_printing.specs.Fits.{FitParts, FitTold, FitReflected};
ghost use Rattle.sj_emit_class_spec.specs.Dispatch as dispatch;
ghost use Rattle.sj_emit_class_spec.specs.Pieces.{Parts, pieces};
ghost use Rattle.sj_names.specs.declared.method_names.MethodName.{MethodName};
ghost use Rattle.sj_emit_expr_pieces.specs.Ranges.{AreBytes, FitsMethodName};

/// Each piece of a class whose parts fit keeps the rules of printing, and so do the functions that tell primitive receivers apart, and the
/// helpers.
pub fn pieces_of_classes_are_pieces()
    ensures classes { (p : Parts) → FitParts p → All IsPiece (pieces p) }
    ensures told { (m : MethodName) (ts : List dispatch.Told) → FitsMethodName m → All FitTold ts → IsPiece (dispatch.dispatch_piece m ts) }
    ensures reflected { (p : MethodName) (ts : List dispatch.Reflected) → FitsMethodName p → All FitReflected ts → IsPiece (dispatch.reflective_piece p ts) }
    ensures helpers { (above : Above) (h : Helper) → ((k : Kind) → All AreBytes (above k)) → IsPiece (helper_piece above h) }
{}
