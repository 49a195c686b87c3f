// Laws of graphs, and a worked graph.
ghost use Rattle.std.specs.Prelude.{◌≡◌, ◌∷◌, [], codes};
ghost use Rattle.std.specs.List.{flat_map};
ghost use Rattle.sj_graph.specs.References.{object, reference, piece_references};
ghost use Rattle.sj_graph.specs.Laws.{OwnersAloneRefer, pair};

/// In the graph of pieces a class that refers to another owns a piece.
pub fn owners_alone_refer()
    ensures { OwnersAloneRefer }
{}

/// A worked graph: `A` uses a binding of `B` and one of its own, `B` none.
pub fn worked_graph()
    ensures { flat_map piece_references pair ≡ reference (codes "A") (codes "B") ∷ reference (codes "A") (codes "A") ∷ reference (codes "A") object ∷ reference (codes "B") object ∷ [] }
{}
