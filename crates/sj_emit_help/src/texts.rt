// The texts of the helpers that are the same in every program.
ghost use Rattle.std.specs.Prelude.{◌≡◌};
ghost use Rattle.sj_emit_help_spec.specs.Texts as texts;
ghost use Rattle.sj_emit_help_spec.specs.declared.kinds.Helper.TheVariants.{TestOf, CastTo, Throws};

use sj_emit_help_spec::{Failure, Helper, Kind};

/// The text of a helper; none, where it isn't the same in every program.
pub fn helper_text(helper: Helper) -> &'static str
    ensures { result.now ≡ texts.helper_text helper }
{
    match helper {
        Helper::TestOf(kind) => test_text(kind),
        Helper::CastTo(kind) => cast_text(kind),
        Helper::ConstantsOf(_) => "",
        Helper::Throws(failure) => throwing_text(failure),
        Helper::NotNull => {
            "function $nn(x) {\n  if ((x === null)) {\n    $npe();\n  }\n  return x;\n}\n"
        }
        Helper::IntQuotient => {
            "function $id(a, b) {\n  if ((b === 0)) {\n    $ae();\n  }\n  return ((a / b) | 0);\n}\n"
        }
        Helper::IntRemainder => {
            "function $im(a, b) {\n  if ((b === 0)) {\n    $ae();\n  }\n  return ((a % b) | 0);\n}\n"
        }
        Helper::LongQuotient => {
            "function $ld(a, b) {\n  if ((b === 0n)) {\n    $ae();\n  }\n  return BigInt.asIntN(64, (a / b));\n}\n"
        }
        Helper::LongRemainder => {
            "function $lm(a, b) {\n  if ((b === 0n)) {\n    $ae();\n  }\n  return (a % b);\n}\n"
        }
        Helper::BoxedChar => {
            "class $C {\n  constructor(c) {\n    this.k = $kC;\n    this.c = c;\n  }\n}\n"
        }
        Helper::Equal => {
            "function $eq(x, y) {\n  return (((x instanceof $C) && (y instanceof $C)) ? (x.c === y.c) : (x === y));\n}\n"
        }
        Helper::ArrayClass => {
            "class $A extends c_java_lang_Object {\n  constructor(n, e, a) {\n    super();\n    this.n = n;\n    this.e = e;\n    this.a = a;\n  }\n}\n"
        }
        Helper::MakeArray => {
            "function $mk(n, e, l, z) {\n  if ((l < 0)) {\n    $nse(l);\n  }\n  return new $A(n, e, new Array(l).fill(z));\n}\n"
        }
        Helper::CheckIndex => {
            "function $ix(x, i) {\n  if (((i < 0) || (i >= x.a.length))) {\n    $ioe(i);\n  }\n}\n"
        }
        Helper::Get => { "function $get(x, i) {\n  $ix(x, i);\n  return x.a[i];\n}\n" }
        Helper::Set => { "function $set(x, i, v) {\n  $ix(x, i);\n  x.a[i] = v;\n}\n" }
        Helper::Put => {
            "function $put(x, i, v) {\n  $ix(x, i);\n  if (((v !== null) && (!$fits(v, x.n, x.e)))) {\n    $ase();\n  }\n  x.a[i] = v;\n}\n"
        }
        Helper::Covers => {
            "function $cov(n, e, m, d) {\n  if ((n === m)) {\n    return (((typeof d) === \"string\") ? (e === d) : (((typeof e) === \"object\") && (d.s in e)));\n  }\n  return (((n > m) && ((typeof d) === \"object\")) && (d.s === \"i_java_lang_Object\"));\n}\n"
        }
        Helper::Fits => {
            "function $fits(v, n, e) {\n  if ((n > 1)) {\n    return ((v instanceof $A) && $cov(v.n, v.e, ((n - 1) | 0), e));\n  }\n  if ((e.s === \"i_java_lang_Byte\")) {\n    return $isB(v);\n  }\n  if ((e.s === \"i_java_lang_Short\")) {\n    return $isS(v);\n  }\n  return (e.s in $kof(v));\n}\n"
        }
        Helper::ClassOf => {
            "function $kof(v) {\n  if ($isV(v)) {\n    return $kV;\n  }\n  if ($isZ(v)) {\n    return $kZ;\n  }\n  if ($isI(v)) {\n    return $kI;\n  }\n  if ($isJ(v)) {\n    return $kJ;\n  }\n  if ($isT(v)) {\n    return $kT;\n  }\n  return v.k;\n}\n"
        }
        Helper::TestOfArray => {
            "function $isA(x, n, e) {\n  return ((x instanceof $A) && $cov(x.n, x.e, n, e));\n}\n"
        }
        Helper::CastToArray => {
            "function $asA(x, n, e, t) {\n  return (((x === null) || $isA(x, n, e)) ? x : $cce(t));\n}\n"
        }
    }
}

fn test_text(kind: Kind) -> &'static str
    ensures { result.now ≡ texts.helper_text (TestOf kind) }
{
    match kind {
        Kind::Undefined => { "function $isV(x) {\n  return (x === (void 0));\n}\n" }
        Kind::Boolean => { "function $isZ(x) {\n  return ((typeof x) === \"boolean\");\n}\n" }
        Kind::Char => { "function $isC(x) {\n  return (x instanceof $C);\n}\n" }
        Kind::Byte => {
            "function $isB(x) {\n  return (((typeof x) === \"number\") && (((x << 24) >> 24) === x));\n}\n"
        }
        Kind::Short => {
            "function $isS(x) {\n  return (((typeof x) === \"number\") && (((x << 16) >> 16) === x));\n}\n"
        }
        Kind::Int => { "function $isI(x) {\n  return ((typeof x) === \"number\");\n}\n" }
        Kind::Long => { "function $isJ(x) {\n  return ((typeof x) === \"bigint\");\n}\n" }
        Kind::Text => { "function $isT(x) {\n  return ((typeof x) === \"string\");\n}\n" }
    }
}

fn cast_text(kind: Kind) -> &'static str
    ensures { result.now ≡ texts.helper_text (CastTo kind) }
{
    match kind {
        Kind::Undefined => {
            "function $asV(x) {\n  return ((x === null) ? (void 0) : ($isV(x) ? x : $cce(\"undef\")));\n}\n"
        }
        Kind::Boolean => {
            "function $asZ(x) {\n  return ((x === null) ? false : ($isZ(x) ? x : $cce(\"boolean\")));\n}\n"
        }
        Kind::Char => {
            "function $asC(x) {\n  return ((x === null) ? 0 : ($isC(x) ? x.c : $cce(\"char\")));\n}\n"
        }
        Kind::Byte => {
            "function $asB(x) {\n  return ((x === null) ? 0 : ($isB(x) ? x : $cce(\"byte\")));\n}\n"
        }
        Kind::Short => {
            "function $asS(x) {\n  return ((x === null) ? 0 : ($isS(x) ? x : $cce(\"short\")));\n}\n"
        }
        Kind::Int => {
            "function $asI(x) {\n  return ((x === null) ? 0 : ($isI(x) ? x : $cce(\"int\")));\n}\n"
        }
        Kind::Long => {
            "function $asJ(x) {\n  return ((x === null) ? 0n : ($isJ(x) ? x : $cce(\"long\")));\n}\n"
        }
        Kind::Text => {
            "function $asT(x) {\n  return ((x === null) ? \"\" : ($isT(x) ? x : $cce(\"string\")));\n}\n"
        }
    }
}

fn throwing_text(failure: Failure) -> &'static str
    ensures { result.now ≡ texts.helper_text (Throws failure) }
{
    match failure {
        Failure::NullReceiver => {
            "function $npe() {\n  throw ct_java_lang_NullPointerException__$3cinit$3e$$Ljava_lang_String$$V(new c_java_lang_NullPointerException(), \"null\");\n}\n"
        }
        Failure::Division => {
            "function $ae() {\n  throw ct_java_lang_ArithmeticException__$3cinit$3e$$Ljava_lang_String$$V(new c_java_lang_ArithmeticException(), \"/ by zero\");\n}\n"
        }
        Failure::Cast => {
            "function $cce(t) {\n  throw ct_java_lang_ClassCastException__$3cinit$3e$$Ljava_lang_String$$V(new c_java_lang_ClassCastException(), t);\n}\n"
        }
        Failure::Index => {
            "function $ioe(i) {\n  throw ct_java_lang_ArrayIndexOutOfBoundsException__$3cinit$3e$$Ljava_lang_String$$V(new c_java_lang_ArrayIndexOutOfBoundsException(), (\"\" + i));\n}\n"
        }
        Failure::Store => {
            "function $ase() {\n  throw ct_java_lang_ArrayStoreException__$3cinit$3e$$Ljava_lang_String$$V(new c_java_lang_ArrayStoreException(), \"bad element\");\n}\n"
        }
        Failure::Size => {
            "function $nse(n) {\n  throw ct_java_lang_NegativeArraySizeException__$3cinit$3e$$Ljava_lang_String$$V(new c_java_lang_NegativeArraySizeException(), (\"\" + n));\n}\n"
        }
        Failure::Method => {
            "function $nme(t) {\n  throw ct_java_lang_NoSuchMethodException__$3cinit$3e$$Ljava_lang_String$$V(new c_java_lang_NoSuchMethodException(), t);\n}\n"
        }
    }
}
