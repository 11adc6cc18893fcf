//! Loading task files, good ones and each kind at fault.
use crate::work::refused;
use files::load::load;
use sets::facts::FactSet;
use std::process::Abort;
use std::test::Fail;
use strips::row::Row;

/// The file of the lift count.
pub const LIFT: &[u8] = b"TK\x02\x05\x04\
    AC\x08\x00\x02\x01\x01\x00\x02\x03\x02\
    AC\x07\x00\x01\x01\x01\x00\x01\x00\
    AC\x08\x00\x02\x01\x01\x01\x03\x04\x03\
    AC\x07\x00\x01\x01\x01\x01\x00\x01\
    ST\x02\x00\x02\
    GO\x02\x00\x04";

/// The file of a count with one row, which needs fact 0, adds 1, and deletes both.
pub const RECOUNT: &[u8] = b"TK\x02\x02\x01\
    AC\x08\x00\x01\x01\x02\x00\x01\x00\x01\
    ST\x01\x00\
    GO\x01\x01";

/// The file of the called lift: rows 1 and 3 delete both facts of where the lift is, and add one of them.
pub const CALLED_LIFT: &[u8] = b"TK\x02\x05\x04\
    AC\x08\x00\x02\x01\x01\x00\x02\x03\x02\
    AC\x07\x00\x00\x01\x02\x01\x00\x01\
    AC\x08\x00\x02\x01\x01\x01\x03\x04\x03\
    AC\x07\x00\x00\x01\x02\x00\x00\x01\
    ST\x02\x00\x02\
    GO\x02\x00\x04";

/// A row that no file here has.
fn unread() -> Row {
    Row {
        zone: 9,
        needs: FactSet::single(99),
        adds: FactSet::empty(),
        deletes: FactSet::empty(),
    }
}

fn is_unread(row: &Row) -> bool {
    row.zone == 9 && row.needs.contains(99)
}

/// Passes if the file is refused with this number and place, and no row is written.
fn refuses(rt: &impl Abort, file: &[u8], number: u8, place: usize) -> Result<(), Fail> {
    let mut rows = [unread(); 4];
    refused(rt, load(file, &mut rows), number, place)?;
    for row in &rows {
        assert!(rt; is_unread(row));
    }
    Ok(())
}

#[test]
fn the_lift_loads_and_its_first_56_bytes_do_not(rt: HostRuntime) -> Result<(), Fail> {
    let mut rows = [unread(); 5];
    let header = load(LIFT, &mut rows)?;
    assert_eq!(rt; (LIFT.len(), header.n(), header.m()), (57, 5, 4));
    assert!(rt; header.start().contains(2) && header.goal().contains(4));
    assert!(rt; rows[0].needs.contains(2) && rows[3].deletes.contains(1));
    assert!(rt; is_unread(&rows[4]));
    refuses(&rt, &LIFT[..56], 1, 52)
}

#[test]
fn a_task_has_up_to_128_facts(rt: HostRuntime) -> Result<(), Fail> {
    let mut rows = [unread(); 1];
    assert_eq!(rt;
        load(b"TK\x02\x80\x00ST\x01\x7FGO\x00", &mut rows)?.n(),
        128
    );
    refuses(&rt, b"TK\x02\x81\x00ST\x00GO\x00", 4, 0)?;
    refuses(&rt, b"TK\x02\x00\x00ST\x00GO\x00", 4, 0)
}

#[test]
fn records_at_fault_are_refused_where_they_begin(rt: HostRuntime) -> Result<(), Fail> {
    refuses(&rt, b"", 1, 0)?;
    refuses(&rt, b"TK\x02\x05", 1, 0)?;
    refuses(&rt, b"TK\x02\x05\x00", 1, 5)?;
    refuses(&rt, b"ST\x00", 2, 0)?;
    refuses(&rt, b"TK\x02\x05\x00GO\x00", 2, 5)?;
    refuses(&rt, b"TK\x01\x05", 3, 0)?;
    refuses(&rt, b"TK\x02\x05\x01AC\x03\x00\x00\x00", 3, 5)?;
    refuses(&rt, b"TK\x02\x05\x01AC\x05\x00\x00\x00\x00\x01", 3, 5)?;
    refuses(&rt, b"TK\x02\x05\x00ST\x00GO\x00!", 8, 11)
}

#[test]
fn lists_at_fault_are_refused_at_their_record(rt: HostRuntime) -> Result<(), Fail> {
    refuses(&rt, b"TK\x02\x05\x00ST\x01\x05GO\x00", 5, 5)?;
    refuses(&rt, b"TK\x02\x05\x00ST\x00GO\x02\x01\x01", 6, 8)?;
    let mut rows = [unread(); 3];
    refused(&rt, load(LIFT, &mut rows), 9, 0)?;
    assert!(rt; is_unread(&rows[0]));
    Ok(())
}

#[test]
fn a_fact_that_is_added_and_deleted_loads_in_both_lists(rt: HostRuntime) -> Result<(), Fail> {
    let mut rows = [unread(); 2];
    let header = load(RECOUNT, &mut rows)?;
    assert_eq!(rt; (RECOUNT.len(), header.n(), header.m()), (24, 2, 1));
    let row = &rows[0];
    assert!(rt; row.adds.contains(1) && !row.adds.contains(0));
    assert!(rt; row.deletes.contains(0) && row.deletes.contains(1));
    assert!(rt; is_unread(&rows[1]));
    let job = row.job(header.n());
    assert!(rt; job.adds.contains(1) && job.deletes.contains(0) && !job.deletes.contains(1));
    Ok(())
}

#[test]
fn jobs_do_not_interfere_by_a_fact_that_is_added_back(rt: HostRuntime) -> Result<(), Fail> {
    let mut rows = [unread(); 2];
    let header = load(
        b"TK\x02\x03\x02\
        AC\x07\x00\x01\x01\x01\x00\x02\x02\
        AC\x06\x00\x01\x01\x00\x02\x01\
        ST\x02\x00\x02GO\x02\x01\x02",
        &mut rows,
    )?;
    let (first, second) = (rows[0].job(header.n()), rows[1].job(header.n()));
    assert!(rt; rows[0].deletes.contains(2) && rows[1].needs.contains(2));
    assert!(rt; !first.interferes(&second));
    Ok(())
}

#[test]
fn behind_a_fact_that_is_added_and_deleted_the_file_is_read_on(
    rt: HostRuntime,
) -> Result<(), Fail> {
    refuses(&rt, b"TK\x02\x05\x01AC\x06\x00\x00\x01\x01\x01\x01", 1, 14)?;
    refuses(
        &rt,
        b"TK\x02\x02\x02AC\x06\x00\x00\x01\x01\x01\x01AC\x05\x00\x00\x01\x00\x05",
        5,
        14,
    )?;
    refuses(
        &rt,
        b"TK\x02\x02\x01AC\x07\x00\x00\x01\x02\x01\x01\x05",
        5,
        5,
    )?;
    refuses(
        &rt,
        b"TK\x02\x02\x01AC\x07\x00\x00\x01\x02\x01\x01\x01",
        6,
        5,
    )
}
