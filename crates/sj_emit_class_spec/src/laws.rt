// Worked texts.
ghost use Rattle.sj_emit_class_spec.specs.ClassRows.{row_entries, row_default, row_top, row_field, row_constants, row_cast, row_hijacked, row_dispatch, row_reflective, row_no_case, row_object, row_plain, row_module, row_stored, row_statics};

/// Classes with their constructors and entries, constants, static fields, cells of modules, tests and casts; and functions that tell
/// primitive receivers apart.
pub fn worked_classes()
    ensures w_entries { row_entries }
    ensures w_default { row_default }
    ensures w_top { row_top }
    ensures w_field { row_field }
    ensures w_constants { row_constants }
    ensures w_cast { row_cast }
    ensures w_hijacked { row_hijacked }
    ensures w_dispatch { row_dispatch }
    ensures w_reflective { row_reflective }
    ensures w_no_case { row_no_case }
    ensures w_object { row_object }
    ensures w_plain { row_plain }
    ensures w_module { row_module }
    ensures w_stored { row_stored }
    ensures w_statics { row_statics }
{}
