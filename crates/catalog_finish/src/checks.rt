//! Lines and collectors without a target.
ghost use Rattle.std.specs.Prelude.{◌≡◌, IfOk, find, option_copied};
ghost use Rattle.pp_values.specs.Answers.{Answers};
ghost use Rattle.pp_values.specs.Faults.{fault};
ghost use Rattle.pp_values.specs.declared.fault.What.TheVariants.{NoOverrideTarget};
ghost use Rattle.catalog_finish.specs.Finishing.{is_missing as missing_meant, lines_checked, realized_checked};
ghost use Rattle.catalog_finish.specs.Finishing.{realized_told};

use override_rules::Overrides;
use pp_values::{Fault, Memory, Place, Reference, Stop, What};
use res_book::{Book, Collector};
use std::alloc::Global;

fn no_target(alloc: Global, at: &Place, target: &Reference) -> Result<Fault, Memory>
    ensures { IfOk result (λ f. f ≡ fault at.now (NoOverrideTarget target.now)) }
{
    let at = at.copy(alloc)?;
    let target = target.copy(alloc)?;
    Fault::new(alloc, at, What::NoOverrideTarget(target))
}

/// The fault of the first override line without a target.
pub fn check_lines(alloc: Global, book: &Book, lines: &Overrides) -> Result<(), Stop>
    ensures { Answers result (lines_checked book.now lines.now) }
{
    match lines.orphans(book) {
        Some(line) => Err(Stop::Fault(no_target(alloc, &line.at, &line.target)?)),
        None => Ok(()),
    }
}

fn is_missing(book: &Book, collector: &Collector) -> bool
    ensures { result ≡ missing_meant book.now collector.now.realized }
{
    match &collector.realized {
        Some(reference) => book.find(reference).is_none(),
        None => false,
    }
}

fn first_missing<'a>(book: &Book, collectors: &'a [Collector]) -> Option<&'a Collector>
    ensures { option_copied result ≡ find (λ c. missing_meant book.now c.realized) collectors.now }
{
    collectors.iter().find(|c| is_missing(book, c))
}

/// The fault of the first collector of `realize` without a target.
pub fn check_realized(alloc: Global, book: &Book, collectors: &[Collector]) -> Result<(), Stop>
    ensures { Answers result (realized_checked book.now collectors.now) }
{
    match first_missing(book, collectors) {
        Some(collector) => realized_fault(alloc, collector),
        None => Ok(()),
    }
}

fn realized_fault(alloc: Global, collector: &Collector) -> Result<(), Stop>
    ensures { Answers result (realized_told collector.now collector.now.realized) }
{
    match &collector.realized {
        Some(reference) => Err(Stop::Fault(no_target(alloc, &collector.at, reference)?)),
        None => Ok(()),
    }
}
