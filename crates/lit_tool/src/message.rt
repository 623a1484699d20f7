//! Why a run is refused, in words.
ghost use Rattle.std.specs.Prelude.{◌≡◌, ◌++◌, IfOk};
ghost use Rattle.run_report.specs.Message.{unplaced};
ghost use Rattle.lit_tool.specs.Message.{discovery_text, kind_text, text_of, words_text};

use crate::stop::LitStop;
use lit_dirs::DiscoverFault;
use lit_suite::SuiteFault;
use lit_words::LitWordsFault;
use std::alloc::Global;
use tt_base::{Bytes, NoMemory};

/// A name between two texts.
fn named(alloc: Global, before: &[u8], name: &Bytes, behind: &[u8]) -> Result<Bytes, NoMemory>
    ensures { IfOk result (λ text. text ≡ before.now ++ name.now ++ behind.now) }
{
    let mut text = Bytes::from_slice(alloc, before)?;
    text.append(name.as_slice())?;
    text.append(behind)?;
    Ok(text)
}

/// The message that tells a stop, with the program's name before it.
pub(crate) fn message_of(alloc: Global, stop: &LitStop) -> Result<Bytes, NoMemory>
    ensures { IfOk result (λ message. message ≡ unplaced (text_of stop.now)) }
{
    let text = text_of(alloc, stop)?;
    let mut message = Bytes::from_slice(alloc, b"lit: error: ")?;
    message.append(text.as_slice())?;
    message.append(b"\n")?;
    Ok(message)
}

/// What is told of a stop.
fn text_of(alloc: Global, stop: &LitStop) -> Result<Bytes, NoMemory>
    ensures { IfOk result (λ text. text ≡ text_of stop.now) }
{
    match stop {
        LitStop::Words(fault) => words_text(alloc, fault),
        LitStop::Discovery(fault) => discovery_text(alloc, fault),
        LitStop::NoneSelected => Bytes::from_slice(alloc, b"no tests selected"),
        LitStop::NotText => Bytes::from_slice(alloc, b"name isn't text"),
    }
}

fn words_text(alloc: Global, fault: &LitWordsFault) -> Result<Bytes, NoMemory>
    ensures { IfOk result (λ text. text ≡ words_text fault.now) }
{
    match fault {
        LitWordsFault::Faulty(fault, word) => {
            named(alloc, fault.text_before(), word, fault.text_behind())
        }
        LitWordsFault::NoPath => Bytes::from_slice(alloc, b"a path is needed"),
        LitWordsFault::Misfit => Bytes::from_slice(alloc, b"these options don't fit together"),
        LitWordsFault::BadRegex(value) => named(alloc, b"bad regex '", value, b"'"),
    }
}

fn discovery_text(alloc: Global, fault: &DiscoverFault) -> Result<Bytes, NoMemory>
    ensures { IfOk result (λ text. text ≡ discovery_text fault.now) }
{
    match fault {
        DiscoverFault::Missing(path) => named(alloc, b"path not found: '", path, b"'"),
        DiscoverFault::PythonConfig(path) => {
            named(
                alloc,
                b"Python configuration isn't supported: '",
                path,
                b"'",
            )
        }
        DiscoverFault::NoSuite(path) => named(alloc, b"no suite for '", path, b"'"),
        DiscoverFault::BadSuite { path, fault } => {
            let kind = kind_text(alloc, fault)?;
            let mut text = named(alloc, b"bad suite '", path, b"': ")?;
            text.append(kind.as_slice())?;
            Ok(text)
        }
        DiscoverFault::SuiteTooLarge(path) => named(alloc, b"suite file too large: '", path, b"'"),
        DiscoverFault::TooMany => Bytes::from_slice(alloc, b"too many tests"),
        DiscoverFault::TooManyItems => Bytes::from_slice(alloc, b"too many files"),
        DiscoverFault::NoTests => Bytes::from_slice(alloc, b"no tests found"),
        DiscoverFault::TreeFault => Bytes::from_slice(alloc, b"cannot read the tree"),
        DiscoverFault::NoMemory => Bytes::from_slice(alloc, b"out of memory"),
    }
}

/// The kind of a suite's fault, with its key.
fn kind_text(alloc: Global, fault: &SuiteFault) -> Result<Bytes, NoMemory>
    ensures { IfOk result (λ text. text ≡ kind_text fault.now) }
{
    match fault {
        SuiteFault::NotToml => Bytes::from_slice(alloc, b"NotToml"),
        SuiteFault::MissingKey(key) => named(alloc, b"MissingKey '", key, b"'"),
        SuiteFault::BadVersion => Bytes::from_slice(alloc, b"BadVersion"),
        SuiteFault::UnknownKey(key) => named(alloc, b"UnknownKey '", key, b"'"),
        SuiteFault::BadValue(key) => named(alloc, b"BadValue '", key, b"'"),
    }
}
