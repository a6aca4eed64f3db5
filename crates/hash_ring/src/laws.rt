//! What holds of every choice, whatever rings are asked.

ghost use Rattle.std.specs.Prelude.{◌≡◌, ◌≢◌, ◌⊎◌, ℕ, List};
ghost use Rattle.hash_ring.specs.Names.{with_name, without};
ghost use Rattle.hash_ring.specs.Choice.{IsChosen, HaveSameNames};

/// A key gets one name at most.
pub fn one_choice()
    ensures { (names : List (List ℕ)) (key one other : List ℕ)
        → IsChosen names key one → IsChosen names key other → one ≡ other }
{}

/// Names in another order choose alike.
pub fn order_is_free()
    ensures { (names others : List (List ℕ)) (key chosen : List ℕ)
        → HaveSameNames names others → IsChosen names key chosen → IsChosen others key chosen }
{}

/// Taking a name out changes the choice of no key but those that had it.
pub fn taking_out()
    ensures { (names : List (List ℕ)) (gone key chosen : List ℕ)
        → IsChosen names key chosen → chosen ≢ gone → IsChosen (without gone names) key chosen }
{}

/// Putting a name in changes choices to that name alone.
pub fn putting_in()
    ensures { (names : List (List ℕ)) (come key chosen after : List ℕ)
        → IsChosen names key chosen → IsChosen (with_name come names) key after
        → (after ≡ chosen) ⊎ (after ≡ come) }
{}
