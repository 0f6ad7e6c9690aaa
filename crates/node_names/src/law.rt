//! The law of the names.

ghost use Rattle.std.specs.Prelude.{◌≡◌, List, ℕ};
ghost use Rattle.node_names.specs.declared.seg.Seg.{Seg};
ghost use Rattle.node_names.specs.Names.{name_below, AreSound};

/// Below one root, nodes on different ways have different names.
pub fn distinct_names()
    ensures { (root : List ℕ) (way other : List Seg) → AreSound way → AreSound other →
        name_below root way ≡ name_below root other → way ≡ other }
{}
