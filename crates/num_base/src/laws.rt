//! Laws of the definitions. A law is the contract of a function that does nothing.
ghost use Rattle.num_base.specs.Eval.{UndefinedIsLacking};

/// An expression is undefined exactly where one of its names has no value.
pub fn law_of_undefined()
    ensures lacking { UndefinedIsLacking }
{}
