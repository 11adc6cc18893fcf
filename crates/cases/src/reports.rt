//! The bytes that are printed for two files, and for three.
use crate::names_files::LIFT_NAMES;
use crate::printing::PAGE;
use crate::task_files::{CALLED_LIFT, LIFT, RECOUNT};
use report::text::{page_text, report_text};
use std::process::Abort;
use std::test::Fail;

/// Passes if these bytes are printed for the two files.
fn prints_report(
    rt: &(impl Abort + AllocGlobal),
    task: &[u8],
    plan: &[u8],
    text: &str,
) -> Result<(), Fail> {
    assert_eq!(rt; report_text(rt.alloc(), task, plan)?.as_str(), text);
    Ok(())
}

/// Passes if these bytes are printed for the lift count and this sheet file.
fn prints(rt: &(impl Abort + AllocGlobal), plan: &[u8], text: &str) -> Result<(), Fail> {
    prints_report(rt, LIFT, plan, text)
}

#[test]
fn reports_on_the_lift(rt: HostRuntime) -> Result<(), Fail> {
    prints(
        &rt,
        b"RD\x01\x00RD\x01\x01RD\x01\x02RD\x01\x03",
        "rounds 4\ndistance 4\nverdict sound\nshortest yes\n",
    )?;
    prints(
        &rt,
        b"RD\x02\x00\x01",
        "rounds 1\ndistance 4\nverdict clash 0 0 1\nshortest no\n",
    )?;
    prints(
        &rt,
        b"RD\x01\x00RD\x01\x02",
        "rounds 2\ndistance 4\nverdict missing 1 2 1\nshortest no\n",
    )?;
    prints(
        &rt,
        b"RD\x01\x00RD\x01\x01RD\x01\x02RD\x01\x03RD\x00",
        "rounds 5\ndistance 4\nverdict sound\nshortest no\n",
    )?;
    prints(
        &rt,
        b"",
        "rounds 0\ndistance 4\nverdict goal 4\nshortest no\n",
    )?;
    prints(&rt, b"RD\x01\x00RD\x01\x04", "plan refused 10 4\n")
}

#[test]
fn what_a_row_adds_holds_though_it_deletes_it(rt: HostRuntime) -> Result<(), Fail> {
    prints_report(
        &rt,
        RECOUNT,
        b"RD\x01\x00",
        "rounds 1\ndistance 1\nverdict sound\nshortest yes\n",
    )?;
    prints_report(
        &rt,
        CALLED_LIFT,
        b"RD\x01\x00RD\x01\x01RD\x02\x01\x02RD\x01\x03",
        "rounds 4\ndistance 4\nverdict sound\nshortest yes\n",
    )?;
    prints_report(
        &rt,
        CALLED_LIFT,
        b"RD\x02\x00\x01",
        "rounds 1\ndistance 4\nverdict clash 0 0 1\nshortest no\n",
    )
}

#[test]
fn the_task_comes_before_the_plan(rt: HostRuntime) -> Result<(), Fail> {
    let text = report_text(rt.alloc(), b"TK", b"TK")?;
    assert_eq!(rt; text.as_str(), "task refused 1 0\n");
    Ok(())
}

#[test]
fn a_file_has_up_to_60000_bytes(rt: HostRuntime) -> Result<(), Fail> {
    let long = [0; 60001];
    prints(&rt, &long, "plan refused 1 60000\n")?;
    prints(&rt, &long[..60000], "plan refused 2 0\n")?;
    let text = report_text(rt.alloc(), &long, &long)?;
    assert_eq!(rt; text.as_str(), "task refused 1 60000\n");
    let text = report_text(rt.alloc(), &long[..60000], &long)?;
    assert_eq!(rt; text.as_str(), "task refused 2 0\n");
    Ok(())
}

/// Passes if these bytes are printed for the three files.
fn prints_page(
    rt: &(impl Abort + AllocGlobal),
    task: &[u8],
    plan: &[u8],
    names: &[u8],
    bytes: &[u8],
) -> Result<(), Fail> {
    let page = page_text(rt.alloc(), task, plan, names)?;
    assert_eq!(rt; page.as_slice(), bytes);
    Ok(())
}

/// The file of a plan of the lift count, with a pause.
const PAUSED: &[u8] = b"RD\x01\x00RD\x01\x01RD\x00RD\x01\x02RD\x01\x03";

#[test]
fn pages_of_the_lift(rt: HostRuntime) -> Result<(), Fail> {
    prints_page(&rt, LIFT, PAUSED, LIFT_NAMES, PAGE.as_flattened())?;
    let nameless = [
        *b"  0   0                 \n",
        *b"  1   1                 \n",
        *b"  2   -                 \n",
        *b"  3   2                 \n",
        *b"  4   3                 \n",
    ];
    prints_page(&rt, LIFT, PAUSED, b"", nameless.as_flattened())
}

#[test]
fn the_task_comes_before_the_plan_and_the_plan_before_the_names(
    rt: HostRuntime,
) -> Result<(), Fail> {
    let unsound = b"RD\x02\x00\x01";
    prints_page(&rt, b"TK", b"TK", b"TK\x00", b"task refused 1 0\n")?;
    prints_page(&rt, LIFT, b"RD\x01\x04", b"TK\x00", b"plan refused 10 0\n")?;
    prints_page(&rt, LIFT, unsound, b"TK\x00", b"names refused 2 0\n")?;
    prints_page(
        &rt,
        LIFT,
        unsound,
        LIFT_NAMES,
        b"rounds 1\ndistance 4\nverdict clash 0 0 1\nshortest no\nsheet refused 14 0\n",
    )
}

#[test]
fn a_names_file_has_up_to_60000_bytes(rt: HostRuntime) -> Result<(), Fail> {
    let long = [0; 60001];
    prints_page(&rt, LIFT, PAUSED, &long, b"names refused 1 60000\n")?;
    prints_page(&rt, LIFT, PAUSED, &long[..60000], b"names refused 2 0\n")
}
