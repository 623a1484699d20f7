//! Laws of the definitions. A law is the contract of a function that does nothing.
ghost use Rattle.lit_report.specs.Laws.{CountsEach, GrowsByParts};

/// A report grows by the part of one more test, and at its end each test is counted once.
#[tactic(auto, using(crate::proofs::ReportLemmas::grows_by_parts, crate::proofs::ReportLemmas::counts_each))]
pub fn law_of_reports()
    ensures grows { GrowsByParts }
    ensures counts { CountsEach }
{}
