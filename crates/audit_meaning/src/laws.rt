ghost use Rattle.audit_meaning.specs.Laws.{AcceptedReportsAreFlat};

/// A report that is accepted tells of one flat memory (after Lamport's sequential consistency): the flat machine of the setup
/// executes the instructions whose lines the report has, in their order, does what each line says, prints what the report says,
/// and comes to its words and registers.
pub fn accepted_reports_are_flat()
    ensures { AcceptedReportsAreFlat }
{}
