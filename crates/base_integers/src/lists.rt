// Laws on lists of integers: the entry at a place, and the list with one entry changed.

ghost use Rattle.base_integers.specs.Entry.{entry, put};
ghost use Rattle.std.specs.Prelude.{ℕ, ℤ, pos, List, [], ◌∷◌, ◌++◌, length, ◌≡◌, ◌≢◌, ◌+◌, ◌<◌, ◌≤◌};

/// The entry past the end is 0, and the entries of two lists one after the other are theirs.
pub fn entry_law()
    ensures past { (e : List ℤ) (x : ℕ) → length e ≤ x → entry e x ≡ pos 0 }
    ensures front { (e : List ℤ) (f : List ℤ) (x : ℕ) → x < length e → entry (e ++ f) x ≡ entry e x }
    ensures back { (e : List ℤ) (f : List ℤ) (x : ℕ) → entry (e ++ f) (length e + x) ≡ entry f x }
{}

/// A change of one entry changes this entry alone; the later of two changes counts; changes of two entries come in
/// either order; what stands there already changes nothing, and no change of an entry changes the length.
pub fn put_law()
    ensures same { (e : List ℤ) (x : ℕ) (v : ℤ) → entry (put e x v) x ≡ v }
    ensures other { (e : List ℤ) (x : ℕ) (y : ℕ) (v : ℤ) → x ≢ y → entry (put e x v) y ≡ entry e y }
    ensures later { (e : List ℤ) (x : ℕ) (u : ℤ) (v : ℤ) → put (put e x u) x v ≡ put e x v }
    ensures either_order { (e : List ℤ) (x : ℕ) (y : ℕ) (u : ℤ) (v : ℤ) → x ≢ y → put (put e x u) y v ≡ put (put e y v) x u }
    ensures present { (e : List ℤ) (x : ℕ) → x < length e → put e x (entry e x) ≡ e }
    ensures length_kept { (e : List ℤ) (x : ℕ) (v : ℤ) → x < length e → length (put e x v) ≡ length e }
{}

/// A change at the length appends, and a change of two lists one after the other changes one of them.
pub fn append_law()
    ensures end { (e : List ℤ) (v : ℤ) → put e (length e) v ≡ e ++ v ∷ [] }
    ensures front { (e : List ℤ) (f : List ℤ) (x : ℕ) (v : ℤ) → x < length e → put (e ++ f) x v ≡ put e x v ++ f }
    ensures back { (e : List ℤ) (f : List ℤ) (x : ℕ) (v : ℤ) → put (e ++ f) (length e + x) v ≡ e ++ put f x v }
{}
