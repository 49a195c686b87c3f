//! The law of spelling.
ghost use Rattle.std.specs.Prelude.{◌≡◌, ◌↔◌, List, ℕ};
ghost use Rattle.js_tree.specs.Terms.{Module, Piece};
ghost use Rattle.js_tree.specs.Rules.{IsModule, IsPiece};
ghost use Rattle.js_tree.specs.Spelling.{Spells, PieceSpells};
ghost use Rattle.js_tree.specs.Texts.{module_text, piece_text};

/// A module that keeps the rules on its parts is spelled by exactly one text, and so is a piece. A module that is spelled keeps them.
pub fn each_has_one_text()
    ensures modules { (m : Module) → IsModule m → (bytes : List ℕ) → Spells m bytes ↔ (bytes ≡ module_text m) }
    ensures kept { (m : Module) → (bytes : List ℕ) → Spells m bytes → IsModule m }
    ensures pieces { (p : Piece) → IsPiece p → (bytes : List ℕ) → PieceSpells p bytes ↔ (bytes ≡ piece_text p) }
{}
