//! Reading names files, good ones and each kind at fault, for the lift count.
use crate::lift::{lift, rows};
use crate::work::refused;
use names::read::read_names;
use pages::name::NamePlace;
use std::process::Abort;
use std::test::Fail;
use strips::task::Task;

/// The names file of the lift count.
pub const LIFT_NAMES: &[u8] = b"\
    NJ\x0c\x00load pallet\
    NJ\x08\x01lift up\
    NJ\x11\x02unload, 4th hall\
    NJ\x09\x03~ down ~";

/// A name place's length and bytes where it holds no name.
const NONE: (u8, [u8; 16]) = (0, [0; 16]);

/// A place that no file here writes.
fn unread() -> NamePlace {
    NamePlace {
        length: 9,
        bytes: *b"unread..........",
    }
}

fn is_unread(place: &NamePlace) -> bool {
    place.length == 9 && place.bytes == *b"unread.........."
}

/// The places of a task with up to four jobs, after reading the file.
pub fn names_of<S: Task>(task: &S, file: &[u8]) -> Result<[NamePlace; 4], Fail> {
    let mut places = [unread(); 4];
    read_names(task, file, &mut places)?;
    Ok(places)
}

/// Passes if the file is accepted, and the first four places then have these lengths and bytes, and two more are kept.
fn reads(rt: &impl Abort, file: &[u8], want: [(u8, [u8; 16]); 4]) -> Result<(), Fail> {
    let rows = rows();
    let mut places = [unread(); 6];
    read_names(&lift(&rows)?, file, &mut places)?;
    for (place, want) in places.iter().zip(want) {
        assert_eq!(rt; (place.length, place.bytes), want);
    }
    assert!(rt; is_unread(&places[4]) && is_unread(&places[5]));
    Ok(())
}

/// Passes if the file is refused with this number and place, and no place is written.
fn refuses(rt: &impl Abort, file: &[u8], number: u8, place: usize) -> Result<(), Fail> {
    let rows = rows();
    let mut places = [unread(); 4];
    refused(
        rt,
        read_names(&lift(&rows)?, file, &mut places),
        number,
        place,
    )?;
    assert!(rt; places.iter().all(is_unread));
    Ok(())
}

#[test]
fn names_are_read_into_the_first_places(rt: HostRuntime) -> Result<(), Fail> {
    assert_eq!(rt; LIFT_NAMES.len(), 58);
    reads(
        &rt,
        LIFT_NAMES,
        [
            (11, *b"load pallet\0\0\0\0\0"),
            (7, *b"lift up\0\0\0\0\0\0\0\0\0"),
            (16, *b"unload, 4th hall"),
            (8, *b"~ down ~\0\0\0\0\0\0\0\0"),
        ],
    )?;
    reads(&rt, b"", [NONE; 4])?;
    let blank = (2, *b" ~\0\0\0\0\0\0\0\0\0\0\0\0\0\0");
    reads(&rt, b"NJ\x03\x01 ~", [NONE, blank, NONE, NONE])?;
    let long = (16, [b'a'; 16]);
    reads(&rt, b"NJ\x11\x03aaaaaaaaaaaaaaaa", [NONE, NONE, NONE, long])
}

#[test]
fn names_files_at_fault_are_refused_at_their_record(rt: HostRuntime) -> Result<(), Fail> {
    let cases: [(&[u8], u8, usize); 17] = [
        (b"NJ", 1, 0),
        (b"NJ\x03\x00a", 1, 0),
        (b"RD\x05\x00", 1, 0),
        (b"NJ\x02\x00aNJ", 1, 5),
        (b"RD\x01\x00", 2, 0),
        (b"NJ\x02\x00aRD\x01\x00", 2, 5),
        (b"NJ\x00", 15, 0),
        (b"NJ\x01\x00", 15, 0),
        (b"NJ\x12\x00aaaaaaaaaaaaaaaaa", 15, 0),
        (b"NJ\x03\x00a\x1f", 15, 0),
        (b"NJ\x03\x00\x7fa", 15, 0),
        (b"NJ\x02\x04\x7f", 15, 0),
        (b"NJ\x02\x01aNJ\x12\x00aaaaaaaaaaaaaaaaa", 15, 5),
        (b"NJ\x02\x04a", 10, 0),
        (b"NJ\x02\x01aNJ\x02\x04a", 10, 5),
        (b"NJ\x02\x01aNJ\x02\x01b", 6, 5),
        (b"NJ\x02\x03aNJ\x02\x00a", 6, 5),
    ];
    for (file, number, place) in cases {
        refuses(&rt, file, number, place)?;
    }
    Ok(())
}

#[test]
fn few_places_are_refused_first(rt: HostRuntime) -> Result<(), Fail> {
    let rows = rows();
    let mut places = [unread(); 3];
    refused(
        &rt,
        read_names(&lift(&rows)?, LIFT_NAMES, &mut places),
        9,
        0,
    )?;
    refused(&rt, read_names(&lift(&rows)?, b"NJ", &mut places), 9, 0)?;
    assert!(rt; places.iter().all(is_unread));
    Ok(())
}
