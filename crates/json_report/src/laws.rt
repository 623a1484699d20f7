//! Laws of the definitions. A law is the contract of a function that does nothing.
ghost use Rattle.json_report.specs.Laws.{ReportsAreRead};

/// The report of tests whose paths differ is read as these tests.
pub fn law_of_reports()
    ensures read { ReportsAreRead }
{}
