//! The two-parcel logistics task: a truck carries one parcel from the left to the right, and another back.
use crate::work::grown;
use files::load::load;
use planning::report::Distance;
use std::test::Fail;
use strips::loaded::Loaded;
use strips::row::Row;
use strips::rule::Rule;
use strips::rules::{Apart, SingleFile};

/// Its file: the truck and the parcels A and B, each left (facts 0, 2, 5) or right (1, 4, 7), a parcel also in the truck (3, 6).
const PARCELS: &[u8] = b"TK\x02\x08\x0a\
    AC\x07\x00\x01\x01\x01\x00\x01\x00\
    AC\x07\x00\x01\x01\x01\x01\x00\x01\
    AC\x08\x00\x02\x01\x01\x00\x02\x03\x02\
    AC\x08\x00\x02\x01\x01\x01\x04\x03\x04\
    AC\x08\x00\x02\x01\x01\x00\x03\x02\x03\
    AC\x08\x00\x02\x01\x01\x01\x03\x04\x03\
    AC\x08\x00\x02\x01\x01\x00\x05\x06\x05\
    AC\x08\x00\x02\x01\x01\x01\x07\x06\x07\
    AC\x08\x00\x02\x01\x01\x00\x06\x05\x06\
    AC\x08\x00\x02\x01\x01\x01\x06\x07\x06\
    ST\x03\x00\x02\x07\
    GO\x02\x04\x05";

/// What is told of the distance after so many growings under the rule.
fn distance_after<R: Rule>(rule: &R, growings: u8) -> Result<Distance, Fail> {
    let mut rows = [Row::default(); 10];
    let header = load(PARCELS, &mut rows)?;
    let parcels = Loaded {
        header,
        rows: &rows,
    };
    let mut table = [0; 36];
    let book = grown(&parcels, rule, &mut table, growings)?;
    Ok(book.distance(&parcels, &table)?)
}

#[test]
fn the_distance_is_5_under_both_rules(rt: HostRuntime) -> Result<(), Fail> {
    assert_eq!(rt; distance_after(&Apart, 4)?, Distance::AtLeast(5));
    assert_eq!(rt; distance_after(&Apart, 5)?, Distance::Told(5));
    assert_eq!(rt; distance_after(&SingleFile, 4)?, Distance::AtLeast(5));
    assert_eq!(rt; distance_after(&SingleFile, 5)?, Distance::Told(5));
    Ok(())
}
