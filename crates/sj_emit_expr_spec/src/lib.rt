//! Templates: the emitted function of a method of the core.
//!
//! `specs/` has the emitted text of each expression and statement, and the bindings that a function uses. The function here is a law.
#![tactic(auto)]

ghost use Rattle.std.specs.Prelude.{◌≡◌, codes, [], ◌∷◌};
ghost use Rattle.js_tree.specs.Texts.{piece_text};
ghost use Rattle.sj_emit_expr_spec.specs.ObjectRows.{constructor_piece, field_piece, same_piece, sum_piece, sets_piece, gets_piece, others_piece, called_piece, looks_up_piece, loads_piece, catches_piece, arrays_piece};
ghost use Rattle.sj_emit_expr_spec.specs.Rows.{piece_of, triple_method, triples, two_method, one_and_two};

/// Two worked methods of the class `A`: `f` with the loop `while (p < 10) { p = p * 3 }; p`, and `two`, which adds what `one` gives to the value
/// of a block. In the second the call is evaluated in front of the block, as it stands.
pub fn worked_functions()
    ensures triples { piece_text (piece_of triple_method triples) ≡ codes "function s_A__f$$I$$I(v_p) {\n  while ((v_p < 10)) {\n    v_p = Math.imul(v_p, 3);\n  }\n  return v_p;\n}\n" }
    ensures order { piece_text (piece_of two_method one_and_two) ≡ codes "function s_A__two$$I() {\n  const $1 = s_A__one$$I();\n  let $2;\n  $2 = 2;\n  return (($1 + $2) | 0);\n}\n" }
{}

/// Worked methods of the class `A` on objects. A constructor runs on an object that is there, and gives it. A method that isn't static has This as its
/// first parameter. A receiver has its null check, but where it
/// is This, or an immutable local that is defined as a new object; where a later operand isn't plain, the check comes in front of it; and a receiver
/// that isn't plain is spilled for its check. A call of a public method runs the function of its target, and any other the one that it names.
/// A method that is looked up is the entry of an object, also of an array, or a function that tells values apart where primitive ones are among them; a hijacked class has its own function; and a reflective call has one by its name.
/// The one object of a class is loaded and stored by functions of its own. An array is made and its elements are read and set by helpers, to which a type of
/// arrays is its number of dimensions and its base. `uses` names the functions, classes, static fields and
/// helpers of a text in its order.
pub fn worked_objects()
    ensures constructor { piece_text constructor_piece ≡ codes "function ct_A__$3cinit$3e$$I$$V($this, v_x) {\n  ct_java_lang_Object__$3cinit$3e$$V($this);\n  $this.f_A__f = v_x;\n  return $this;\n}\n" }
    ensures field { piece_text field_piece ≡ codes "function f_A__get$$I($this) {\n  return $this.f_A__f;\n}\n" }
    ensures same { piece_text same_piece ≡ codes "function ps_A__same$$I$$I(v_x) {\n  return v_x;\n}\n" }
    ensures sum { piece_text sum_piece ≡ codes "function s_A__sum$$LA$$I(v_q) {\n  let v_a = ct_A__$3cinit$3e$$I$$V(new c_A(), 1);\n  return (($nn(v_q).f_A__f + v_a.f_A__f) | 0);\n}\n" }
    ensures sets { piece_text sets_piece ≡ codes "function p_A__sets$$LA$$V($this, v_q) {\n  const $1 = $nn(v_q);\n  let $2;\n  $2 = 2;\n  $1.f_A__f = $2;\n  let $3;\n  $3 = 3;\n  $this.f_A__f = $3;\n}\n" }
    ensures gets { piece_text gets_piece ≡ codes "function s_A__gets$$LA$$I(v_q) {\n  let $1;\n  let $2;\n  $2 = v_q;\n  $1 = $nn($2);\n  return $1.f_A__f;\n}\n" }
    ensures others { piece_text others_piece ≡ codes "function s_A__others$$LA$$I$$J$$V(v_q, v_i, v_j) {\n  u_A__s($id(t_A__s, v_i));\n  $lm(7n, v_j);\n  p_A__m$$I$$V($nn(v_q), 4);\n  throw v_q;\n}\n" }
    ensures constructor_uses { constructor_piece.uses ≡ record { owner = codes "java.lang.Object"; name = codes "ct_java_lang_Object__$3cinit$3e$$V" } ∷ [] }
    ensures sum_uses { sum_piece.uses ≡ record { owner = codes "A"; name = codes "ct_A__$3cinit$3e$$I$$V" } ∷ record { owner = codes "A"; name = codes "c_A" } ∷ record { owner = codes "java.lang.Object"; name = codes "$nn" } ∷ [] }
    ensures others_uses { others_piece.uses ≡ record { owner = codes "A"; name = codes "u_A__s" } ∷ record { owner = codes "java.lang.Object"; name = codes "$id" } ∷ record { owner = codes "A"; name = codes "t_A__s" } ∷ record { owner = codes "java.lang.Object"; name = codes "$lm" } ∷ record { owner = codes "A"; name = codes "p_A__m$$I$$V" } ∷ record { owner = codes "java.lang.Object"; name = codes "$nn" } ∷ [] }
    ensures called { piece_text called_piece ≡ codes "function s_A__called$$LA$$V(v_q) {\n  f_A__m$$V($nn(v_q));\n  f_C__m$$V($nn(v_q));\n  p_B__m$$V($nn(v_q));\n}\n" }
    ensures called_uses { called_piece.uses ≡ record { owner = codes "A"; name = codes "f_A__m$$V" } ∷ record { owner = codes "java.lang.Object"; name = codes "$nn" } ∷ record { owner = codes "C"; name = codes "f_C__m$$V" } ∷ record { owner = codes "B"; name = codes "p_B__m$$V" } ∷ [] }
    ensures looks_up { piece_text looks_up_piece ≡ codes "function s_A__calls$$V() {\n  $nn(v_q).m_m$$V();\n  d_m$$V($nn(v_q));\n  f_java_lang_Integer__m$$V(v_q);\n  f_java_lang_Byte__m$$V($nn(v_q));\n  $nn(v_q).m_m$$V();\n  r_m$$R(new $C(v_q));\n  let $1;\n  let $2;\n  $2 = v_q;\n  $1 = $nn($2);\n  $1.m_m$$V();\n}\n" }
    ensures looks_up_uses { looks_up_piece.uses ≡ record { owner = codes "java.lang.Object"; name = codes "$nn" } ∷ record { owner = codes "java.lang.Object"; name = codes "d_m$$V" } ∷ record { owner = codes "java.lang.Integer"; name = codes "f_java_lang_Integer__m$$V" } ∷ record { owner = codes "java.lang.Byte"; name = codes "f_java_lang_Byte__m$$V" } ∷ record { owner = codes "java.lang.Object"; name = codes "r_m$$R" } ∷ record { owner = codes "java.lang.Object"; name = codes "$C" } ∷ [] }
    ensures loads { piece_text loads_piece ≡ codes "function ct_A__$3cinit$3e$$V($this) {\n  q_A($this);\n  let $1;\n  $1 = $this;\n  q_A($1);\n  $this.f_A__f = g_A().f_A__f;\n  g_A();\n  return $this;\n}\n" }
    ensures catches { piece_text catches_piece ≡ codes "function s_A__catches$$LA$$I(v_q) {\n  try {\n    return $nn(v_q).f_A__f;\n  } catch (v_e) {\n    return 0;\n  }\n}\n" }
    ensures catches_uses { catches_piece.uses ≡ record { owner = codes "java.lang.Object"; name = codes "$nn" } ∷ [] }
    ensures arrays { piece_text arrays_piece ≡ codes "function s_A__arrays$$V() {\n  $mk(1, \"I\", 2, 0);\n  new $A(2, k_A, [v_b]);\n  $nn(v_a).a.length;\n  $get($nn(v_a), 0);\n  $set($nn(v_a), 0, 1);\n  $put($nn(v_b), 0, null);\n  $isA(v_b, 2, k_A);\n  $asA(v_a, 1, \"I\", \"[I\");\n}\n" }
    ensures arrays_uses { arrays_piece.uses ≡ record { owner = codes "java.lang.Object"; name = codes "$mk" } ∷ record { owner = codes "java.lang.Object"; name = codes "$A" } ∷ record { owner = codes "A"; name = codes "k_A" } ∷ record { owner = codes "java.lang.Object"; name = codes "$nn" } ∷ record { owner = codes "java.lang.Object"; name = codes "$get" } ∷ record { owner = codes "java.lang.Object"; name = codes "$set" } ∷ record { owner = codes "java.lang.Object"; name = codes "$put" } ∷ record { owner = codes "java.lang.Object"; name = codes "$isA" } ∷ record { owner = codes "java.lang.Object"; name = codes "$asA" } ∷ [] }
    ensures loads_uses { loads_piece.uses ≡ record { owner = codes "A"; name = codes "q_A" } ∷ record { owner = codes "A"; name = codes "g_A" } ∷ [] }
{}
