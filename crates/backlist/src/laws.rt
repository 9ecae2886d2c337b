// What the history of a list means, as the contract of a function with nothing to do.
ghost use Rattle.std.specs.Prelude.{List, ◌≡◌, ◌++◌};
ghost use Rattle.backlist.specs.History.{Change, replay, back_over};

/// Whatever changes a list of any items goes through, undoing as many of them gives the list and the earlier lists that were before.
pub fn history_law<T>()
    ensures goes_back { (cs : List (Change T)) (ds : List (Change T)) → back_over cs (replay (cs ++ ds)) ≡ replay ds }
{}
