//! What is told of a run over a catalog.
ghost use Rattle.std.specs.Prelude.{◌≡◌, IfOk, option_map};
ghost use Rattle.std.specs.List.{count_by};
ghost use Rattle.agent_docs.specs.ReportText as spec;
ghost use Rattle.site_commands.specs.Applying.{TellsReport, applied_text, ending_by, machine_line, report_ending};

use crate::ending::Ending;
use crate::giving_up::refuse;
use agent_docs::{write_machine, write_report};
use agent_machine::{Machine, MachineDoc, Report, ReportLine, Status};
use pp_values::{Memory, Text};
use site_io::{Sink, write_all};
use std::alloc::Global;

/// Writes what came of a run: the report, and what is recorded of the machine then, where the machine tells it.
pub fn tell_run<K: Sink, E: Sink, M: Machine>(
    alloc: Global,
    report: &Report,
    machine: &M,
    out: &mut K,
    err: &mut E,
) -> Ending
    ensures { TellsReport result report.now (option_map (λ c. c.document) (M.state machine.now).content)
        (K.stream out.old) (K.stream out.new) (E.stream err.old) (E.stream err.new) }
{
    match applied_text(alloc, report, machine.document()) {
        Ok(text) => match write_all(out, text.as_str().as_bytes()) {
            Ok(()) => report_ending(report),
            Err(_) => Ending::WriteFault,
        },
        Err(_) => refuse(err, Ending::Memory, "memory\n"),
    }
}

/// The report's line, and then the machine's.
fn applied_text(
    alloc: Global,
    report: &Report,
    document: Option<&MachineDoc>,
) -> Result<Text, Memory>
    ensures { IfOk result (λ text. text ≡ applied_text report.now (option_map (λ d. d.now) document.entry)) }
{
    let mut text = write_report(alloc, report)?.into_string(alloc)?;
    let line = machine_line(alloc, document)?;
    text.push_str(line.as_str())?;
    Ok(Text::new(text))
}

fn machine_line(alloc: Global, document: Option<&MachineDoc>) -> Result<Text, Memory>
    ensures { IfOk result (λ line. line ≡ machine_line (option_map (λ d. d.now) document.entry)) }
{
    match document {
        Some(document) => write_machine(alloc, document),
        None => Text::from_str(alloc, ""),
    }
}

/// How the run ends that has this report.
fn report_ending(report: &Report) -> Ending
    ensures { result ≡ report_ending report.now }
{
    let lines = report.lines.as_slice();
    ending_by(count_changed(lines) > 0, count_failed(lines) > 0)
}

fn ending_by(changed: bool, failed: bool) -> Ending
    ensures { result ≡ ending_by changed failed }
{
    match (changed, failed) {
        (false, false) => Ending::Done,
        (true, false) => Ending::Changed,
        (false, true) => Ending::Failed,
        (true, true) => Ending::ChangedAndFailed,
    }
}

fn count_changed(lines: &[ReportLine]) -> usize
    ensures { result ≡ count_by spec.has_changed lines.now }
{
    lines.iter().filter(|line| has_changed(line)).count()
}

fn count_failed(lines: &[ReportLine]) -> usize
    ensures { result ≡ count_by spec.has_failed lines.now }
{
    lines.iter().filter(|line| is_failed(line.status)).count()
}

/// Whether there are changes or a refresh, which were not only looked at.
fn has_changed(line: &ReportLine) -> bool
    ensures { result ≡ spec.has_changed line.now }
{
    !is_noop(line.status) && (line.changes.len() > 0 || line.refreshed)
}

fn is_failed(status: Status) -> bool
    ensures { result ≡ spec.is_failed status }
{
    match status {
        Status::Failed => true,
        Status::Unchanged | Status::Changed | Status::Skipped | Status::Noop => false,
    }
}

fn is_noop(status: Status) -> bool
    ensures { result ≡ spec.is_noop status }
{
    match status {
        Status::Noop => true,
        Status::Unchanged | Status::Changed | Status::Failed | Status::Skipped => false,
    }
}
