//! What a reader believes of parts and blocks.
ghost use Rattle.check_scan.specs.Laws.{EachDirectiveInOneBlock, EachDirectiveOnce};

/// A block's parts are its directives, in order.
pub fn each_directive_once()
    ensures { EachDirectiveOnce }
{}

/// The blocks are the directives, in order.
pub fn each_directive_in_one_block()
    ensures { EachDirectiveInOneBlock }
{}
