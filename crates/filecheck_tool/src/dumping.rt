//! The annotated input of a verdict.
ghost use Rattle.std.specs.Prelude.{◌≡◌, ◌<◌, ◌+◌, ◌++◌, ◌^◌, All, IfOk, OnOk, length, map};
ghost use Rattle.std.specs.Fmt.{decimal};
ghost use Rattle.check_group.specs.Lies.{FaultLies};
ghost use Rattle.check_lines.specs.Checks.{IsPlaced};
ghost use Rattle.filecheck_tool.specs.CheckFile.{HasBodies, IsNumber};
ghost use Rattle.filecheck_tool.specs.Dump.{implicit_labels, is_due, labelled, labels_of, line_label, marks_due, shown_by};

use crate::check_file::{CheckFile, line_name};
use check_group::Fault;
use check_lines::Directive;
use filecheck_words::{Dump, When};
use input_dump::{Mark, Shown, marks};
use std::alloc::Global;
use tt_base::{Bytes, Items, NoMemory};

/// Whether there is an annotated input behind a verdict with these faults.
fn is_due(when: When, faults: &[Fault]) -> bool
    ensures { result ≡ is_due when faults.now }
{
    match when {
        When::Never => false,
        When::Fail => !faults.is_empty(),
        When::Always => true,
    }
}

/// A name with a line.
fn labelled(alloc: Global, name: Bytes, line: u64) -> Result<Bytes, NoMemory>
    ensures { IfOk result (λ label. label ≡ labelled name line) }
{
    let mut label = name;
    label.append(b":")?;
    match line.to_string(alloc) {
        Ok(digits) => {
            label.append(digits.as_bytes())?;
            Ok(label)
        }
        Err(_) => Err(NoMemory),
    }
}

/// The label of a directive of a line.
fn line_label(alloc: Global, file: &CheckFile, directive: &Directive) -> Result<Bytes, NoMemory>
    requires { IsPlaced file.now.text (length file.now.asked.prefixes.checks) directive.now }
    ensures { IfOk result (λ label. label ≡ line_label file.now directive.now) }
{
    let name = line_name(alloc, file, *directive)?;
    labelled(alloc, name, u64::from(directive.line))
}

/// The labels of the directives of lines.
fn line_labels(alloc: Global, file: &CheckFile) -> Result<Items<Bytes>, NoMemory>
    requires { HasBodies file.now }
    ensures { IfOk result (λ labels. labels ≡ map (line_label file.now) file.now.directives) }
{
    let mut labels = Items::new(alloc);
    let directives = file.directives.as_slice();
    for directive in directives {
        labels.push(line_label(alloc, file, directive)?)?;
    }
    Ok(labels)
}

/// Adds the labels of implicit directives.
fn add_implicit(
    alloc: Global,
    labels: &mut Items<Bytes>,
    implicit: &[Bytes],
) -> Result<(), NoMemory>
    ensures { OnOk result (labels.new ≡ labels.old ++ implicit_labels 1 implicit.now) }
{
    let mut number = 1;
    for _body in implicit {
        let name = Bytes::from_slice(alloc, b"IMPLICIT-CHECK-NOT")?;
        labels.push(labelled(alloc, name, number)?)?;
        number += 1;
    }
    Ok(())
}

/// The labels of all directives, by their numbers.
fn labels_of(alloc: Global, file: &CheckFile) -> Result<Items<Bytes>, NoMemory>
    requires { HasBodies file.now }
    ensures { IfOk result (λ labels. labels ≡ labels_of file.now) }
{
    let mut labels = line_labels(alloc, file)?;
    add_implicit(alloc, &mut labels, file.asked.implicit.as_slice())?;
    Ok(labels)
}

/// The marks of faults, where there is an annotated input.
pub(crate) fn marks_due(
    alloc: Global,
    file: &CheckFile,
    faults: &[Fault],
) -> Result<Option<Items<Mark>>, NoMemory>
    requires bodies { HasBodies file.now }
    requires numbers { All (λ fault. IsNumber file.now fault.directive) faults.now }
    ensures { IfOk result (λ marks. marks ≡ marks_due file.now faults.now) }
{
    if !is_due(file.asked.dump.when, faults) {
        return Ok(None);
    }
    let labels = labels_of(alloc, file)?;
    let told = marks(alloc, faults, labels.as_slice())?;
    Ok(Some(told))
}

/// Which lines of it are shown.
pub(crate) fn shown_by(asked: Dump) -> Shown
    ensures { result ≡ shown_by asked }
{
    Shown {
        all: asked.all,
        context: asked.context,
    }
}
