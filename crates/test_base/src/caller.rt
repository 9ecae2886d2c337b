// A caller, as the search will be one.
ghost use Rattle.std.specs.Prelude.{◌≡◌, Some};
ghost use Rattle.backlist.specs.History.{IsIn};
ghost use Rattle.backlist.specs.declared.boxes.Pos.{Pos};
ghost use Rattle.test_base.specs.Walked.{any_is};

use backlist::{BackList, Pos};

/// Unlinks the item at p and pushes another, and goes back over both: a node of a search is entered and left so.
pub fn there_and_back<T: Drop>(list: &mut BackList<T>, p: Pos, v: T)
    requires { IsIn p list.old.present }
    ensures { list.new ≡ list.old }
{
    list.unlink(p);
    if let Ok(_) = list.push_back(v) {
        list.undo();
    }
    list.undo();
}

/// Whether some item is x, by a walk over the list.
pub fn holds(list: &BackList<u32>, x: u32) -> bool
    ensures { result ≡ any_is x list.now.present }
{
    let mut found = false;
    let mut at = list.first();
    for i in 0..list.len() {
        if let Some(p) = at {
            let here = *list.get(p) == x;
            found = found | here;
            at = list.next(p);
        }
    }
    found
}

/// The place of item number n, if there are this many, counted from 0.
pub fn place_of(list: &BackList<u32>, n: usize) -> Option<Pos>
    ensures { (p : Pos) → result ≡ Some p → IsIn p list.now.present }
{
    let mut at = list.first();
    for _ in 0..n {
        if let Some(p) = at {
            at = list.next(p);
        }
    }
    at
}
