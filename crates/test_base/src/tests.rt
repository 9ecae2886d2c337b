// The list goes back step by step, and each item is dropped once.

ghost use Rattle.std.specs.Prelude.{◌≡◌, ◌+◌, length, OnOk};

use crate::caller::{holds, place_of, there_and_back};
use backlist::BackList;
use std::alloc::Global;
use std::cell::Cell;
use std::test::Fail;

#[test]
fn goes_back(rt: HostRuntime) {
    let mut list = BackList::new(rt.alloc());
    let first = list.push_back(1);
    assert!(rt; first.is_ok());
    let second = list.push_back(2);
    assert!(rt; second.is_ok());
    if let Ok(p) = second {
        list.unlink(p);
        assert!(rt; !holds(&list, 2));
        let third = list.push_back(3);
        if let Ok(_) = third {
            assert!(rt; holds(&list, 3) && list.len() == 2);
            list.undo();
        }
        assert!(rt; !holds(&list, 3) && list.len() == 1);
        list.undo();
        there_and_back(&mut list, p, 4);
    }
    assert!(rt; holds(&list, 1) && holds(&list, 2) && list.len() == 2);
}

// An item that counts its drop.
struct Counted<'a> {
    drops: &'a Cell<u64>,
}

impl Drop for Counted<'_> {
    fn drop(self) {
        let Self { drops } = self;
        drops.set(drops.get().wrapping_add(1));
    }
}

#[test]
fn each_item_is_dropped_once(rt: HostRuntime) {
    let drops = Cell::new(0);
    let mut list = BackList::new(rt.alloc());
    if let Ok(p) = list.push_back(Counted { drops: &drops }) {
        list.unlink(p);
        if list.push_back(Counted { drops: &drops }).is_ok() {
            list.undo();
        }
        assert_eq!(rt; (drops.get(), list.len()), (1, 0));
    }
    drop(list);
    assert_eq!(rt; drops.get(), 2);
}

// Where memory runs out the item comes back, and the list is as it was.
#[test]
fn a_refused_push_changes_nothing(rt: HostRuntime) {
    let mut list = BackList::new(rt.alloc());
    for i in 0..5u32 {
        let before = list.len();
        match list.push_back(i) {
            Ok(_) => assert!(rt; before < list.len() && holds(&list, i)),
            Err((v, _)) => assert!(rt; v == i && before == list.len() && !holds(&list, i)),
        }
    }
}

// Whether the items of the list are these, in order.
fn is_same(list: &BackList<u32>, plain: &[u32]) -> bool {
    let mut same = list.len() == plain.len();
    let mut at = list.first();
    for x in plain {
        if let Some(p) = at {
            same = same & (*list.get(p) == *x);
            at = list.next(p);
        }
    }
    same
}

// A list beside a plain one with a copy of each earlier list.
#[derive(Drop)]
struct Pair {
    list: BackList<u32>,
    plain: Vec<u32>,
    earlier: Vec<Vec<u32>>,
}

impl Pair {
    fn keep(&mut self, alloc: Global) -> Result<(), Fail>
        ensures kept { OnOk result (length self.new.earlier.items ≡ length self.old.earlier.items + 1) }
        ensures list { self.new.list ≡ self.old.list }
        ensures plain { self.new.plain ≡ self.old.plain }
    {
        let copy = Vec::from_slice(alloc, self.plain.as_slice())?;
        self.earlier.push(copy)?;
        Ok(())
    }

    fn push(&mut self, alloc: Global, v: u32) -> Result<(), Fail>
        requires { length self.old.list.earlier ≡ length self.old.earlier.items }
        ensures { OnOk result (length self.new.list.earlier ≡ length self.new.earlier.items) }
    {
        if self.list.push_back(v).is_ok() {
            self.keep(alloc)?;
            self.plain.push(v)?;
        }
        Ok(())
    }

    fn unlink(&mut self, alloc: Global, n: usize) -> Result<(), Fail>
        requires { length self.old.list.earlier ≡ length self.old.earlier.items }
        ensures { OnOk result (length self.new.list.earlier ≡ length self.new.earlier.items) }
    {
        if let Some(p) = place_of(&self.list, n) {
            if n < self.plain.len() {
                self.list.unlink(p);
                self.keep(alloc)?;
                self.plain.remove(n);
            }
        }
        Ok(())
    }

    fn undo(&mut self)
        requires { length self.old.list.earlier ≡ length self.old.earlier.items }
        ensures { length self.new.list.earlier ≡ length self.new.earlier.items }
    {
        if let Some(before) = self.earlier.pop() {
            self.list.undo();
            self.plain = before;
        }
    }
}

// 10,000 changes as a generator draws them.
#[test]
fn drawn_changes_go_back(rt: HostRuntime) -> Result<(), Fail> {
    let alloc = rt.alloc();
    let mut pair = Pair {
        list: BackList::new(alloc),
        plain: Vec::new(alloc),
        earlier: Vec::new(alloc),
    };
    let mut seed: u32 = 7;
    for step in 0..10_000u32 {
        seed = seed.wrapping_mul(1_664_525).wrapping_add(1_013_904_223);
        match (seed >> 16) % 20 {
            0..8 => pair.undo(),
            8..13 => pair.unlink(alloc, (seed >> 24) as usize % 20)?,
            _ => pair.push(alloc, step)?,
        }
        assert!(rt; is_same(&pair.list, pair.plain.as_slice()), "after {step}");
    }
    assert!(rt; 100 < pair.earlier.len());
    Ok(())
}
