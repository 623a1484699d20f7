//! Laws of the definitions. A law is the contract of a function that does nothing.
ghost use Rattle.input_dump.specs.Laws.{AllLinesComeBack};

/// In a dump of all lines each line of the text stands behind its number.
pub fn law_of_lines()
    ensures { AllLinesComeBack }
{}
