ghost use Rattle.report_laws.specs.Laws.{LaidOutReportsAreRead};

/// A report whose lines stand in the order of their kinds, each in a form of its kind, is read as it stands: no line is
/// denied, and each is told under its kind.
pub fn laid_out_reports_are_read()
    ensures { LaidOutReportsAreRead }
{}
