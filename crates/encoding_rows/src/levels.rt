//! The order of vectors, and level values that keep it.

use aggregators::Levelled;
use merge_model::{Aggregator, Leximax, Max, Sum};
use std::cmp::Ordering;
use std::test::Fail;

#[test]
fn one_one_is_before_zero_two_but_for_the_sum(rt: HostRuntime) -> Result<(), Fail> {
    assert_eq!(rt; Leximax.compare(&[1, 1], &[0, 2]), Ordering::Less);
    assert_eq!(rt; Max.compare(&[1, 1], &[0, 2]), Ordering::Less);
    assert_eq!(rt; Sum.compare(&[1, 1], &[0, 2]), Ordering::Equal);
    Ok(())
}

#[test]
fn level_values_of_two_zero_one(rt: HostRuntime) -> Result<(), Fail> {
    let alloc = rt.alloc();
    assert_eq!(rt;
        Sum.level_values(alloc, &[2, 0, 1], 2)?.as_slice(),
        [3].as_slice()
    );
    assert_eq!(rt;
        Max.level_values(alloc, &[2, 0, 1], 2)?.as_slice(),
        [2].as_slice()
    );
    assert_eq!(rt;
        Leximax.level_values(alloc, &[2, 0, 1], 2)?.as_slice(),
        [1, 2].as_slice()
    );
    Ok(())
}
