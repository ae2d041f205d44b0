//! A worked collection of three nodes.
ghost use Rattle.std.specs.Prelude.{◌≡◌, ◌∷◌, [], map, true, false};
ghost use Rattle.k_laws.specs.k_types.State.{has};
ghost use Rattle.k_laws.specs.k_types.Reach.{reach_among};
ghost use Rattle.k_space.specs.Segments.{Black, White};
ghost use Rattle.k_space.specs.Areas.{marked_at};
ghost use Rattle.k_mark.specs.Marking.{work};
ghost use Rattle.k_mark.specs.Sweeping.{dead_bytes, dead_objects};
ghost use Rattle.k_mark.specs.Example.{node_name, three_nodes};
ghost use Rattle.k_mark.specs.Shown.{area_objects};

/// Worked: of three nodes the third is unreached. The machine's closure and the marks agree, the marks cost
/// six steps, and one object of 40 bytes is freed.
pub fn third_node_is_freed()
    ensures reached { map (λ o. has (reach_among (area_objects 2 (three_nodes 0 1 2 Black Black White).segments) (node_name 1 ∷ [])) o.name) (area_objects 2 (three_nodes 0 1 2 Black Black White).segments) ≡ true ∷ true ∷ false ∷ [] }
    ensures marked { map (λ o. marked_at (three_nodes 0 1 2 Black Black White) o.name) (area_objects 2 (three_nodes 0 1 2 Black Black White).segments) ≡ true ∷ true ∷ false ∷ [] }
    ensures steps { work (three_nodes 0 1 2 Black Black White) ≡ 6 }
    ensures objects { dead_objects (three_nodes 0 1 2 Black Black White) ≡ 1 }
    ensures bytes { dead_bytes (three_nodes 0 1 2 Black Black White) ≡ 40 }
{}
