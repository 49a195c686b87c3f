// Worked modules.
ghost use Rattle.std.specs.Prelude.{◌≡◌, ◌∷◌, [], codes};
ghost use Rattle.sj_emit_module_spec.specs.Calls.{call_item_of};
ghost use Rattle.sj_emit_module_spec.specs.Modules.{module_of};
ghost use Rattle.sj_emit_module_spec.specs.Rows.{alone, calling, calling_pieces, entry, first, left, line, ordering, ordering_pieces, right, second, shared, sharing, sharing_pieces, user, variable, within};

/// Two public modules that share an internal one: each imports what it uses of it, and nothing is imported from them.
pub fn worked_sharing()
    ensures imports_of_shared { (module_of sharing shared sharing_pieces).imports ≡ [] }
    ensures exports_of_shared { (module_of sharing shared sharing_pieces).exports ≡ codes "r" ∷ codes "s" ∷ [] }
    ensures imports_of_left { (module_of sharing left sharing_pieces).imports ≡ line (codes "internal-0.js") (codes "s" ∷ []) ∷ [] }
    ensures items_of_left { (module_of sharing left sharing_pieces).items ≡ variable (codes "l") ∷ variable (codes "m") ∷ call_item_of (entry (codes "left") (codes "L")) ∷ [] }
    ensures exports_of_left { (module_of sharing left sharing_pieces).exports ≡ [] }
    ensures imports_of_right { (module_of sharing right sharing_pieces).imports ≡ line (codes "internal-0.js") (codes "r" ∷ []) ∷ [] }
    ensures exports_of_right { (module_of sharing right sharing_pieces).exports ≡ [] }
{}

/// Files and names stand in byte order, whatever the order of use.
pub fn worked_order()
    ensures imports { (module_of ordering user ordering_pieces).imports ≡ line (codes "a-b.js") (codes "y" ∷ []) ∷ line (codes "a.js") (codes "X" ∷ codes "x" ∷ []) ∷ [] }
    ensures exports { (module_of ordering second ordering_pieces).exports ≡ codes "X" ∷ codes "x" ∷ [] }
    ensures one { (module_of ordering first ordering_pieces).exports ≡ codes "y" ∷ [] }
{}

/// A public module that holds its initializer alone imports the function that it calls.
pub fn worked_calls()
    ensures imports { (module_of calling alone calling_pieces).imports ≡ line (codes "internal-1.js") (codes "s_M__main$$V" ∷ []) ∷ [] }
    ensures items { (module_of calling alone calling_pieces).items ≡ call_item_of (entry (codes "main") (codes "M")) ∷ [] }
    ensures exports { (module_of calling within calling_pieces).exports ≡ codes "s_M__main$$V" ∷ [] }
{}
