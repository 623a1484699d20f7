//! What the values of `-D` define, in the order of the words.
ghost use Rattle.std.specs.Prelude.{◌≡◌, IfOk, OnOk};
ghost use Rattle.std.specs.FinMap as map;
ghost use Rattle.num_spell.specs.Spelling.{can_print};
ghost use Rattle.define_words.specs.Defined.{binding_of, defined_by, fresh_by, known_by, numbers_with, printable, words_of};
ghost use Rattle.define_words.specs.View.{reads_view, word_view};

use crate::word::{Read, Says, says_of};
use num_base::{EvalFault, Format, FormatKind, Numbers, eval};
use pattern_parse::Formats;
use pattern_vars::{Binding, Bindings};
use std::alloc::Global;
use tt_base::{Bytes, Items, NoMemory};

/// What values define.
#[derive(Drop, Debug)]
pub struct Defined {
    /// The formats of the numbers that well-formed values define, also behind one that is refused.
    pub known: Formats,
    /// Texts and numbers in the order of the words, or the first value that defines nothing.
    pub fresh: Result<Bindings, Bytes>,
}

/// What values define, as `X=text` and `#N=3`.
pub fn defined_by(alloc: Global, values: &[Bytes]) -> Result<Defined, NoMemory>
    ensures { IfOk result (λ defined. defined ≡ defined_by values.now) }
{
    let mut known = Formats::new(alloc);
    let reads = read_all(alloc, &mut known, values)?;
    let fresh = fresh_by(alloc, reads.as_slice())?;
    Ok(Defined { known, fresh })
}

/// The values with what they say; from then on the formats of their numbers are known.
#[tactic(auto, unfolding(crate::specs::Defined::words_of, crate::specs::Defined::known_by))]
fn read_all(alloc: Global, known: &mut Formats, values: &[Bytes]) -> Result<Items<Read>, NoMemory>
    ensures reads { IfOk result (λ reads. reads_view reads ≡ words_of known.old values.now) }
    ensures known { IfOk result (λ _. known.new ≡ known_by known.old (words_of known.old values.now)) }
{
    let mut reads = Items::new(alloc);
    for value in values {
        let says = says_of(alloc, known, value.as_slice())?;
        let value = Bytes::from_slice(alloc, value.as_slice())?;
        reads.push(Read { value, says })?;
    }
    Ok(reads)
}

/// The bindings of words, or the first value that binds nothing.
#[tactic(auto, using(crate::proofs::DefinedLemmas::fresh_goes_on, crate::proofs::DefinedLemmas::fresh_stops), unfolding(crate::specs::Defined::fresh_by))]
fn fresh_by(alloc: Global, reads: &[Read]) -> Result<Result<Bindings, Bytes>, NoMemory>
    ensures { IfOk result (λ fresh. fresh ≡ fresh_by map.empty (reads_view reads.now)) }
{
    let mut numbers = Numbers::new(alloc);
    let mut fresh = Items::new(alloc);
    for read in reads {
        match binding_of(alloc, &numbers, &read.says)? {
            Some(binding) => {
                add_number(&mut numbers, &binding)?;
                fresh.push(binding)?;
            }
            None => return Ok(Err(Bytes::from_slice(alloc, read.value.as_slice())?)),
        }
    }
    Ok(Ok(fresh))
}

/// What a word binds where numbers have these values.
fn binding_of(alloc: Global, numbers: &Numbers, says: &Says) -> Result<Option<Binding>, NoMemory>
    ensures { IfOk result (λ binding. binding ≡ binding_of (map.get numbers.now) (word_view says.now)) }
{
    match says {
        Says::Text { name, text } => Ok(Some(Binding::Text {
            name: Bytes::from_slice(alloc, name.as_slice())?,
            text: Bytes::from_slice(alloc, text.as_slice())?,
        })),
        // No `@LINE` stands in it, so the line doesn't count.
        Says::Number { name, format, expr } => {
            printable(alloc, name.as_slice(), *format, eval(expr, numbers, 0))
        }
        Says::Nothing => Ok(None),
    }
}

/// The binding of a number that its format can print.
fn printable(
    alloc: Global,
    name: &[u8],
    format: Format,
    value: Result<i128, EvalFault>,
) -> Result<Option<Binding>, NoMemory>
    ensures { IfOk result (λ binding. binding ≡ printable name.now format value) }
{
    match value {
        Ok(value) => {
            if !can_print(format, value) {
                return Ok(None);
            }
            let name = Bytes::from_slice(alloc, name)?;
            Ok(Some(Binding::Number { name, value }))
        }
        Err(_) => Ok(None),
    }
}

/// Whether the format can print the number.
fn can_print(format: Format, value: i128) -> bool
    ensures { result ≡ can_print format value }
{
    value >= 0 || format.kind == FormatKind::Signed
}

/// Adds the number of a binding.
fn add_number(numbers: &mut Numbers, binding: &Binding) -> Result<(), NoMemory>
    ensures { OnOk result (numbers.new ≡ numbers_with numbers.old binding.now) }
{
    match binding {
        Binding::Number { name, value } => numbers.put(name.as_slice(), *value),
        Binding::Text { .. } => Ok(()),
    }
}
