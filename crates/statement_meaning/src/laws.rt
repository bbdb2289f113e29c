//! Laws of the definitions, each as a function that does nothing: what it ensures holds of every
//! statement.
//!
//! Those above cite a law by a call, or its lemma in `proofs/`.
ghost use Rattle.std.specs.Prelude.{◌≡◌, ◌<◌, ◌≤◌, ◌++◌, ℕ, Bool, true, false, List, [], ◌∷◌, length, map, All, Some};
ghost use Rattle.std.specs.Prelude.{IsPermutation};
ghost use Rattle.std.specs.List.{filter};
ghost use Rattle.row_values.specs.Statements.{Statement, IsSoundQuery, selectivity_count};
ghost use Rattle.row_values.specs.Values.{kind_of, value_cmp};
ghost use Rattle.row_values.specs.declared.statement.OrderKey.{OrderKey as AnyKey};
ghost use Rattle.row_values.specs.declared.values.Value.{Value as AnyValue};
ghost use Rattle.row_values.specs.RowNumbers.{row_numbers};
ghost use Rattle.statement_meaning.specs.Combinations.{World, kept_combinations, row_at, rows_at, world_of};
ghost use Rattle.statement_meaning.specs.Conditions.{row_passes};
ghost use Rattle.statement_meaning.specs.FullOrder.{is_earlier};
ghost use Rattle.statement_meaning.specs.Groups.{first_member, group_row};
ghost use Rattle.row_values.specs.Orders.{value_order};
ghost use Rattle.statement_meaning.specs.Meaning.{group_keys, is_before, is_lower, is_same_group, meaning_of, shape_of};
ghost use Rattle.statement_meaning.specs.Meaning.{shown_row};
ghost use Rattle.statement_meaning.specs.PartialCombinations.{AreApart, Fits, HasSoundEdges, Offers, OffersRows, Once};
ghost use Rattle.statement_meaning.specs.PartialCombinations.{RowsOnce, all_places, either, joined, joined_rows};
ghost use Rattle.statement_meaning.specs.PartialCombinations.{placed, single};
ghost use Rattle.row_values.specs.Sorting.{Rises, classes, in_order, runs};
ghost use Rattle.statement_meaning.specs.Vectors.{vector_of};

/// The kept combinations stand in lexicographic FROM order.
pub fn kept_in_order()
    ensures { (q : Statement) (tables : List (List (List AnyValue))) (args : List AnyValue)
        → in_order is_lower (kept_combinations q tables args) ≡ kept_combinations q tables args }
{}

/// The kept combinations of a statement of one place are the numbers of the rows that meet all its
/// predicates.
pub fn one_place()
    ensures { (q : Statement) (tables : List (List (List AnyValue))) (args : List AnyValue) → IsSoundQuery q
        → length q.places ≡ 1 → kept_combinations q tables args
        ≡ map (λ row. row ∷ []) (filter (λ row. row_passes args q.preds 0 (row_at tables 0 row))
        (row_numbers (length (rows_at tables 0)))) }
{}

/// Without GROUP BY and ORDER BY the result rows are the items of the kept combinations.
pub fn plain_meaning()
    ensures { (q : Statement) (tables : List (List (List AnyValue))) (args : List AnyValue) → q.groups ≡ []
        → q.order ≡ [] → meaning_of q tables args
        ≡ map (λ c. shown_row tables q.items (c ∷ []) c) (kept_combinations q tables args) }
{}

/// So for one place they are the items of the rows whose numbers are kept.
pub fn plain_rows_of_one()
    ensures { (q : Statement) (tables : List (List (List AnyValue))) (args : List AnyValue) (numbers : List ℕ)
        → q.groups ≡ [] → q.order ≡ [] → map (λ row. row ∷ []) numbers ≡ kept_combinations q tables args
        → meaning_of q tables args ≡ map (λ row. shown_row tables q.items ((row ∷ []) ∷ []) (row ∷ [])) numbers }
{}

/// The vector has one number for each parameterised predicate, and none is 0.
pub fn sound_vector()
    ensures counted { (q : Statement) (tables : List (List (List AnyValue))) (args : List AnyValue)
        → length (vector_of q tables args) ≡ selectivity_count q.preds }
    ensures positive { (q : Statement) (tables : List (List (List AnyValue))) (args : List AnyValue)
        → All (λ s. 1 ≤ s) (vector_of q tables args) }
{}

/// Within a kind, results are ordered by the value order.
pub fn order_of_values()
    ensures { (a : AnyValue) (b : AnyValue) → kind_of a ≡ kind_of b → value_cmp a b ≡ Some (value_order a b) }
{}

/// A list with each combination over all places once is the kept combinations in some order, and
/// each such list has
/// each once. Its shape is what the statement means.
pub fn each_kept_once()
    ensures kept { (q : Statement) (tables : List (List (List AnyValue))) (args : List AnyValue) (cs : List (List ℕ))
        → IsSoundQuery q → Once (world_of q tables args) (all_places (world_of q tables args)) cs → in_order is_lower cs
        ≡ kept_combinations q tables args }
    ensures each_once { (q : Statement) (tables : List (List (List AnyValue))) (args : List AnyValue)
        (cs : List (List ℕ)) → IsSoundQuery q → in_order is_lower cs ≡ kept_combinations q tables args
        → Once (world_of q tables args) (all_places (world_of q tables args)) cs }
    ensures meant { (q : Statement) (tables : List (List (List AnyValue))) (args : List AnyValue) (cs : List (List ℕ))
        → IsSoundQuery q → Once (world_of q tables args) (all_places (world_of q tables args)) cs → shape_of q tables cs
        ≡ meaning_of q tables args }
{}

/// An access path of a place, which gives each row that meets the predicates once, gives each
/// combination over that
/// place once.
pub fn access_gives_each_once()
    ensures { (world : World) (place : ℕ) (rows : List ℕ) → HasSoundEdges world → place < world.places
        → RowsOnce world place rows → Once world (single place) (map (placed world place) rows) }
{}

/// A join of two sides with no place in common gives each combination over both once, where the
/// outer side has each
/// once, and each is offered what it may be joined with.
pub fn join_gives_each_once()
    ensures { (world : World) (outer : ℕ → Bool) (inner : ℕ → Bool) (offered : List ℕ
        → List (List ℕ)) (cs : List (List ℕ)) → AreApart outer inner → Once world outer cs
        → ((c : List ℕ) → Fits world outer c → Offers world outer inner c (offered c))
        → Once world (either outer inner) (joined world outer inner offered cs) }
{}

/// So does a join by one place, where each combination is offered the rows that it may be joined
/// with.
pub fn join_by_place_gives_each_once()
    ensures { (world : World) (outer : ℕ → Bool) (place : ℕ) (offered : List ℕ → List ℕ) (cs : List (List ℕ))
        → HasSoundEdges world → place < world.places → outer place ≡ false → Once world outer cs
        → ((c : List ℕ) → Fits world outer c → OffersRows world outer place c (offered c))
        → Once world (either outer (single place)) (joined_rows world outer place offered cs) }
{}

/// A sort by any order keeps each combination once.
pub fn sort_keeps_each_once()
    ensures { (world : World) (places : ℕ → Bool) (cs : List (List ℕ)) (ds : List (List ℕ)) → IsPermutation cs ds
        → Once world places cs → Once world places ds }
{}

/// A join keeps the order of its outer side by keys that are columns of the outer side.
pub fn join_keeps_order()
    ensures sides { (world : World) (outer : ℕ → Bool) (inner : ℕ → Bool) (tables : List (List (List AnyValue)))
        (keys : List AnyKey) (offered : List ℕ → List (List ℕ)) (cs : List (List ℕ))
        → All (λ key. outer key.at.place ≡ true) keys → Once world outer cs
        → ((c : List ℕ) → Fits world outer c → Offers world outer inner c (offered c))
        → Rises (is_before tables keys) cs → Rises (is_before tables keys) (joined world outer inner offered cs) }
    ensures by_place { (world : World) (outer : ℕ → Bool) (place : ℕ) (tables : List (List (List AnyValue)))
        (keys : List AnyKey) (offered : List ℕ → List ℕ) (cs : List (List ℕ))
        → All (λ key. outer key.at.place ≡ true) keys → outer place ≡ false → Rises (is_before tables keys) cs
        → Rises (is_before tables keys) (joined_rows world outer place offered cs) }
{}

/// The stable order by keys of a list in the order of row numbers is one sort by the keys and then
/// the row numbers.
pub fn one_sort_is_stable()
    ensures { (tables : List (List (List AnyValue))) (keys : List AnyKey) (cs : List (List ℕ))
        → in_order (is_before tables keys) (in_order is_lower cs) ≡ in_order (is_earlier tables keys) cs }
{}

/// Without GROUP BY the result rows are the items of the combinations in that order.
pub fn plain_rows_in_order()
    ensures { (q : Statement) (tables : List (List (List AnyValue))) (cs : List (List ℕ)) (ds : List (List ℕ))
        → q.groups ≡ [] → IsPermutation cs ds → Rises (is_earlier tables q.order) ds → shape_of q tables cs
        ≡ map (λ c. shown_row tables q.items (c ∷ []) c) ds }
{}

/// With GROUP BY they are those of the runs of the combinations in order of the ORDER BY keys and
/// then the GROUP BY
/// columns, and those of the groups that are gathered in any order and then put in this one.
pub fn group_rows_in_order()
    ensures runs { (q : Statement) (tables : List (List (List AnyValue))) (cs : List (List ℕ)) (ds : List (List ℕ))
        → IsSoundQuery q → 0 < length q.groups → IsPermutation cs ds
        → Rises (is_before tables (q.order ++ group_keys q.groups)) ds → shape_of q tables cs
        ≡ map (group_row tables q.items) (runs (is_same_group tables q.groups) ds) }
    ensures gathered { (q : Statement) (tables : List (List (List AnyValue))) (cs : List (List ℕ))
        (gathered : List (List (List ℕ))) → IsSoundQuery q → 0 < length q.groups
        → IsPermutation (classes (is_same_group tables q.groups) cs) gathered
        → Rises (λ g h. is_before tables (q.order ++ group_keys q.groups) (first_member g) (first_member h)) gathered
        → shape_of q tables cs ≡ map (group_row tables q.items) gathered }
{}
