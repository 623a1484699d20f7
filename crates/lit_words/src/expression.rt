//! The expressions of `--select` and `--drop`.
ghost use Rattle.std.specs.Prelude.{◌≡◌, IfSome};
ghost use Rattle.std.specs.Option.{option_map};
ghost use Rattle.ere_tree.specs.View.{view};
ghost use Rattle.opt_words.specs.Step.{Stands, texts};
ghost use Rattle.lit_words.specs.Expression.{expression_of, tree_of};
ghost use Rattle.lit_words.specs.Fault.{Gives};

use crate::fault::{LitWordsFail, LitWordsFault, refuse};
use ere_tree::{Ere, EreFail, parse};
use opt_words::Given;
use std::alloc::Global;
use tt_base::Bytes;

/// A value as an expression.
fn tree_of(alloc: Global, value: &[u8]) -> Result<Ere, LitWordsFail>
    ensures { Gives view result (tree_of value.now) }
{
    match parse(alloc, value, false) {
        Ok(ere) => Ok(ere),
        Err(EreFail::Bad(_)) => refuse(LitWordsFault::BadRegex(Bytes::from_slice(alloc, value)?)),
        Err(EreFail::NoMemory) => Err(LitWordsFail::NoMemory),
    }
}

/// The expression that is given, if there is one.
pub(crate) fn expression_of(
    alloc: Global,
    words: &[String],
    last: Option<Given>,
) -> Result<Option<Ere>, LitWordsFail>
    requires { IfSome last (Stands (texts words.now)) }
    ensures { Gives (option_map view) result (expression_of (texts words.now) last) }
{
    match last {
        Some(given) => Ok(Some(tree_of(alloc, given.value(words))?)),
        None => Ok(None),
    }
}
