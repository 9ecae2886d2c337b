// Charges at the edges of a budget.

use base_budget::Purse;

const MOST: u64 = u64::MAX;

#[test]
fn charges_up_to_the_budget(rt: HostRuntime) {
    for (budget, first, second, fits, spent) in [
        (10, 6, 5, false, 6),
        (10, 6, 4, true, 10),
        (10, 10, 0, true, 10),
        (0, 0, 1, false, 0),
        (MOST, MOST, 0, true, MOST),
        (MOST, MOST, 1, false, MOST),
        (MOST, 1, MOST, false, 1),
    ] {
        let mut purse = Purse::new(budget);
        let begun = purse.charge(first).is_ok();
        let more = purse.charge(second).is_ok();
        assert!(rt; begun && more == fits && purse.spent() == spent && purse.budget() == budget);
    }
}
