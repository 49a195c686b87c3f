// The texts of helpers.
ghost use Rattle.std.specs.Prelude.{IsTrue};
ghost use Rattle.js_tree.specs.Spelling.{Spells};
ghost use Rattle.sj_emit_help_spec.specs.Helpers.{Above, helper_item};
ghost use Rattle.sj_emit_help_spec.specs.Texts.{is_fixed, helper_text, only_item};
ghost use Rattle.sj_emit_help_spec.specs.declared.kinds.Helper.{Helper};
ghost use Rattle.sj_emit_help_spec.specs.HelperRows.{row_A, row_C, row_ae, row_asA, row_asB, row_asC, row_asI, row_asJ, row_asS, row_asT, row_asV, row_asZ, row_ase, row_cce, row_cov, row_eq, row_fits, row_get, row_id, row_im, row_ioe, row_isA, row_isB, row_isC, row_isI, row_isJ, row_isS, row_isT, row_isV, row_isZ, row_ix, row_kC, row_kI, row_kJ, row_kT, row_kV, row_kZ, row_kof, row_ld, row_lm, row_mk, row_nme, row_nn, row_npe, row_nse, row_put, row_set};

/// A helper that is the same in every program is spelled by its text.
pub fn texts_spell_helpers()
    ensures { (above : Above) (h : Helper) → IsTrue (is_fixed h) → Spells (only_item (helper_item above h)) (helper_text h) }
{}

/// The bindings that each helper with a fixed text uses, and the texts of those that know of the class of a kind.
pub fn worked_helpers()
    ensures w_A { row_A }
    ensures w_C { row_C }
    ensures w_ae { row_ae }
    ensures w_asA { row_asA }
    ensures w_asB { row_asB }
    ensures w_asC { row_asC }
    ensures w_asI { row_asI }
    ensures w_asJ { row_asJ }
    ensures w_asS { row_asS }
    ensures w_asT { row_asT }
    ensures w_asV { row_asV }
    ensures w_asZ { row_asZ }
    ensures w_ase { row_ase }
    ensures w_cce { row_cce }
    ensures w_cov { row_cov }
    ensures w_eq { row_eq }
    ensures w_fits { row_fits }
    ensures w_get { row_get }
    ensures w_id { row_id }
    ensures w_im { row_im }
    ensures w_ioe { row_ioe }
    ensures w_isA { row_isA }
    ensures w_isB { row_isB }
    ensures w_isC { row_isC }
    ensures w_isI { row_isI }
    ensures w_isJ { row_isJ }
    ensures w_isS { row_isS }
    ensures w_isT { row_isT }
    ensures w_isV { row_isV }
    ensures w_isZ { row_isZ }
    ensures w_ix { row_ix }
    ensures w_kC { row_kC }
    ensures w_kI { row_kI }
    ensures w_kJ { row_kJ }
    ensures w_kT { row_kT }
    ensures w_kV { row_kV }
    ensures w_kZ { row_kZ }
    ensures w_kof { row_kof }
    ensures w_ld { row_ld }
    ensures w_lm { row_lm }
    ensures w_mk { row_mk }
    ensures w_nme { row_nme }
    ensures w_nn { row_nn }
    ensures w_npe { row_npe }
    ensures w_nse { row_nse }
    ensures w_put { row_put }
    ensures w_set { row_set }
{}
