//! What holds of every run by waves.
ghost use Rattle.wide_apply.specs.WideLaws.{SomeToldWide, WavesAreTheRun, WideSays};

/// So laws of such runs speak of each catalog that a compile can make.
pub fn there_is_a_told_run_by_waves()
    ensures { SomeToldWide }
{}

/// So turns that are taken at once come to what they come to one after another.
pub fn waves_are_the_run()
    ensures { WavesAreTheRun }
{}

/// So a report of waves tells of each resource what became of it, as that of one turn after another does.
pub fn a_wide_report_says_what_was_done()
    ensures { WideSays }
{}
