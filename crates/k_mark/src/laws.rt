//! Laws of the definitions.
ghost use Rattle.std.specs.Prelude.{◌≡◌, ◌↔◌, ◌&&◌, not, Bool, List, length, filter, IsTrue};
ghost use Rattle.std.specs.List.{list_any};
ghost use Rattle.k_laws.specs.k_types.declared.names.Name.{Name};
ghost use Rattle.k_laws.specs.k_types.Names.{name_among};
ghost use Rattle.k_laws.specs.k_types.State.{Object, has, refers, refers_in};
ghost use Rattle.k_laws.specs.k_types.Reach.{closure, reach_among};
ghost use Rattle.k_space.specs.Areas.{AreaValue, gray_at, is_foreign};
ghost use Rattle.k_mark.specs.Reached.{IsReached};
ghost use Rattle.k_mark.specs.Marking.{IsReachedIn, IsExit, ShowsObjects};

/// What references reach is what the closure of as many folds as there are objects has.
pub fn reached_is_the_closure()
    ensures { (pool : List Object) (start : Name → Bool) (n : Name) →
        IsTrue (has (closure (length pool) pool (filter (λ o. start o.name) pool)) n) ↔ IsReached (has pool) (refers_in pool) start n }
{}

/// Where an area shows these objects and its gray ones are these roots, what is reached in it is what the
/// machine reaches among the objects, and its exits are the names outside to which reached objects refer.
pub fn marked_is_the_closure()
    ensures reached { (area : AreaValue) (pool : List Object) (roots : List Name) → ShowsObjects area pool → ((n : Name) → name_among n roots ≡ gray_at area n) →
        (n : Name) → IsReachedIn area n ↔ IsTrue (has (reach_among pool roots) n) }
    ensures exits { (area : AreaValue) (pool : List Object) (roots : List Name) → ShowsObjects area pool → ((n : Name) → name_among n roots ≡ gray_at area n) →
        (n : Name) → IsExit area n ↔ IsTrue (is_foreign area n && list_any (λ x. refers x n) (reach_among pool roots)) }
{}
