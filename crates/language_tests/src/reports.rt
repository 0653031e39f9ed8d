//! Copies of reports.
use agent_machine::{Report, ReportLine, ReportLines, Status};
use pp_values::{Memory, Text, Texts};
use sample_values::reference;
use std::alloc::Global;
use std::test::Fail;

fn line(alloc: Global, fault: Option<&str>) -> Result<ReportLine, Memory> {
    let mut changes = Texts::new(alloc);
    changes.push(Text::from_str(alloc, "mode")?)?;
    let fault = match fault {
        Some(text) => Some(Text::from_str(alloc, text)?),
        None => None,
    };
    Ok(ReportLine {
        item: reference(alloc, "file", "/a")?,
        status: Status::Failed,
        changes,
        refreshed: true,
        fault,
    })
}

fn report(alloc: Global) -> Result<Report, Memory> {
    let mut lines = ReportLines::new(alloc);
    lines.push(line(alloc, Some("write mode"))?)?;
    lines.push(line(alloc, None)?)?;
    let node = Text::from_str(alloc, "web1")?;
    Ok(Report { node, lines })
}

fn is_changed(changes: &Texts) -> bool {
    match changes.as_slice() {
        [name] => name.is("mode"),
        _ => false,
    }
}

fn is_fault(line: &ReportLine, word: &str) -> bool {
    match &line.fault {
        Some(text) => text.is(word),
        None => word.is_empty(),
    }
}

fn is_line(line: &ReportLine, fault: &str) -> bool {
    line.item.title.is("/a")
        && line.status == Status::Failed
        && line.refreshed
        && is_changed(&line.changes)
        && is_fault(line, fault)
}

fn is_copied(alloc: Global) -> Result<bool, Memory> {
    let copy = report(alloc)?.copy(alloc)?;
    match copy.lines.as_slice() {
        [first, second] => Ok(
            copy.node.is("web1") && is_line(first, "write mode") && is_line(second, ""),
        ),
        _ => Ok(false),
    }
}

#[test]
fn reports_are_copied(rt: HostRuntime) -> Result<(), Fail> {
    assert!(rt; is_copied(rt.alloc())?);
    Ok(())
}
