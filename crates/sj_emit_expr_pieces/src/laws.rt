// What desugaring gives can be printed: the laws of keys, of fields and of ranges.
ghost use Rattle.std.specs.Prelude.{All, List};
ghost use Rattle.sj_desugar_spec.specs.Desugar.{desugared, desugared_member, names_of};
ghost use Rattle.sj_emit_expr_pieces.specs.Keys.{HasKeys};
ghost use Rattle.sj_emit_expr_pieces.specs.Owners.{OnObjects, FieldsHaveOwners};
ghost use Rattle.sj_emit_expr_pieces.specs.Ranges.{AreBytes, FitsMethod};
ghost use Rattle.sj_text_spec.specs.Rules.{IsListedParam, IsListedTree};
ghost use Rattle.sj_trees.specs.Term.{Term};
ghost use Rattle.sj_trees.specs.declared.classes.MethodDef.{MethodDef};
ghost use Rattle.sj_trees.specs.declared.classes.ParamDef.{ParamDef};

/// What desugaring gives for a method with a body has a key in each case of a switch.
pub fn desugared_methods_have_keys()
    ensures { (d : MethodDef) (e : Term) → HasKeys (desugared d e) }
{}

/// The same for any member, with a receiver or without one.
pub fn desugared_members_have_keys()
    ensures { (d : MethodDef) (e : Term) → HasKeys (desugared_member d e) }
{}

/// Where no field in a body is one of a tree of a primitive type other than null, what desugaring gives for it has fields of what may stand before `.`
/// alone, and looks methods up on the same: what is called on a tree of a primitive type is a function of its class.
pub fn desugared_fields_have_owners()
    ensures methods { (d : MethodDef) (e : Term) → OnObjects e → FieldsHaveOwners (desugared d e) }
    ensures members { (d : MethodDef) (e : Term) → OnObjects e → FieldsHaveOwners (desugared_member d e) }
{}

/// What a listing has of a method is in the ranges of its types, as each class of a file has a listing: its parameters have names of bytes, and what
/// desugaring gives for its body has such names, numbers of 32 bits, longs of 64 and units of 16.
pub fn desugared_members_fit()
    ensures params { (params : List ParamDef) → All IsListedParam params → All AreBytes (names_of params) }
    ensures members { (d : MethodDef) (e : Term) → All IsListedParam d.params → IsListedTree e → FitsMethod (desugared_member d e) }
{}
