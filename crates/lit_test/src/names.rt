//! How a transcript names why a test is unresolved.
ghost use Rattle.std.specs.Prelude.{◌≡◌};
ghost use Rattle.lit_test.specs.Names.{cause_name, script_name, shell_name};

use lit_directives::ScriptFault;
use mini_shell::ShellKind;
use test_plan::Cause;

fn script_name(fault: ScriptFault) -> &'static [u8]
    ensures { result.now ≡ script_name fault }
{
    match fault {
        ScriptFault::BadExpr(_) => b"BadExpr",
        ScriptFault::TooMany(_) => b"TooMany",
        ScriptFault::NotText(_) => b"NotText",
        ScriptFault::BadRetries(_) => b"BadRetries",
        ScriptFault::TwiceRetries(_) => b"TwiceRetries",
        ScriptFault::Unfinished(_) => b"Unfinished",
        ScriptFault::NoRun => b"NoRun",
    }
}

fn shell_name(kind: ShellKind) -> &'static [u8]
    ensures { result.now ≡ shell_name kind }
{
    match kind {
        ShellKind::NoQuoteEnd => b"NoQuoteEnd",
        ShellKind::BadOperator => b"BadOperator",
        ShellKind::Glob => b"Glob",
        ShellKind::NoCommand => b"NoCommand",
        ShellKind::NoTarget => b"NoTarget",
        ShellKind::TwiceRedirected => b"TwiceRedirected",
        ShellKind::BadCd => b"BadCd",
        ShellKind::LeftOut => b"LeftOut",
    }
}

/// The name of a cause.
pub(crate) fn cause_name(cause: Cause) -> &'static [u8]
    ensures { result.now ≡ cause_name cause }
{
    match cause {
        Cause::Script(fault) => script_name(fault),
        Cause::Shell(kind) => shell_name(kind),
        Cause::TooLong => b"TooLong",
        Cause::MissingTest => b"MissingTest",
        Cause::Broken => b"Broken",
        Cause::TooLarge => b"TooLarge",
        Cause::TooMuch => b"TooMuch",
    }
}
