//! Sets of words by open addressing.

use std::test::Fail;
use word_table::{Inserted, WordTable, home};

#[test]
fn homes_are_as_the_formula_gives_them(rt: HostRuntime) {
    for (word, capacity, place) in [
        (5, 4, 3),
        (6, 4, 0),
        (3, 79, 67),
        (1, 1 << 20, 769_244),
        (9_223_372_036_854_788_153, 1 << 20, 422_165),
        (u64::MAX, 1 << 20, 279_331),
    ] {
        assert_eq!(rt;
            home(word, capacity),
            place,
            "the home of {word} of {capacity}"
        );
    }
}

#[test]
fn a_table_of_four_cells_fills_up(rt: HostRuntime) -> Result<(), Fail> {
    let mut table = WordTable::new(rt.alloc(), 4)?;
    assert_eq!(rt; table.insert(5), Inserted::Fresh { at: 3 });
    assert_eq!(rt; table.insert(5), Inserted::Known { at: 3 });
    // 8 finds its home taken by 7, and goes on.
    for (word, at) in [(6, 0), (7, 1), (8, 2)] {
        assert_eq!(rt; table.insert(word), Inserted::Fresh { at });
    }
    assert_eq!(rt; table.insert(9), Inserted::Full);
    assert_eq!(rt; table.find(9), None);
    assert_eq!(rt; table.find(5), Some(3));
    Ok(())
}

#[test]
fn a_probe_goes_round(rt: HostRuntime) -> Result<(), Fail> {
    let mut table = WordTable::new(rt.alloc(), 4)?;
    // 5 and 10 have the last place as their home.
    assert_eq!(rt; table.insert(5), Inserted::Fresh { at: 3 });
    assert_eq!(rt; table.insert(10), Inserted::Fresh { at: 0 });
    assert_eq!(rt; table.find(10), Some(0));
    assert_eq!(rt; table.find(0), None);
    Ok(())
}
