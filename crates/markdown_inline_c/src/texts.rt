//! The events of many contents of one document.

ghost use Rattle.std.specs.Prelude.{◌≡◌, ◌⊎◌, IfErr, IfOk, map};
ghost use Rattle.std.specs.List.{All};
ghost use Rattle.markdown_run_text.specs.RunSetting.{setting_of};
ghost use Rattle.markdown_inline_c.specs.Calls.{EndTexts, texts_of};
ghost use Rattle.markdown_inline_c.specs.FlatTexts.{IsTextAt, text_in};
ghost use Rattle.markdown_inline_c.specs.Many.{AreFound, EndsBy};
ghost use Rattle.markdown_inline_c.specs.Statuses.{IsContentAtFault};
ghost use Rattle.markdown_inline_c.specs.declared.fault.Fault.TheVariants.{Memory};

use crate::contents::{Contents, check_input, prepared, texts_options};
use crate::fault::Fault;
use crate::flat::{FlatContent, Input};
use crate::form::Form;
use crate::outcome::Outcome;
use crate::refusal::Refusal;
use std::alloc::Global;

// The events of a content, as they cross.
fn found_in<F: Form>(
    alloc: Global,
    given: &Contents,
    form: &F,
    content: FlatContent,
) -> Result<F::Events, Fault>
    requires { F.IsFor form.now (setting_of given.now.document.now) }
    ensures items { IfOk result (λ found. F.Events.items found ≡ text_in F.items (setting_of given.now.document.now) given.now.pieces.now content) }
    ensures text { IfOk result (λ _. IsTextAt given.now.document.now.bytes.now given.now.pieces.now content) }
    ensures err { IfErr result (λ fault. (fault ≡ Memory) ⊎ IsContentAtFault given.now.document.now.bytes.now given.now.pieces.now content fault) }
{
    let pieces = given.pieces_of(alloc, content)?;
    let run = given.read(alloc, pieces.as_slice(), content)?;
    Ok(form.of(alloc, given.document, pieces.as_slice(), run)?)
}

// Reads contents as texts one after another, and hands out their events.
fn read_all<F: Form>(
    alloc: Global,
    given: &Contents,
    form: &F,
    contents: &[FlatContent],
    array: &mut [F::Item],
    ends: &mut [usize],
    outcome: &mut Outcome,
) -> Result<(), Refusal>
    requires form { F.IsFor form.now (setting_of given.now.document.now) }
    requires none_yet { (outcome.old.done ≡ 0) × (outcome.old.count ≡ 0) }
    ensures { let s = setting_of given.now.document.now in let pieces = given.now.pieces.now in
        AreFound (map (text_in F.items s pieces) contents.now) array.old array.new ends.old ends.new outcome.new
        (λ read. EndsBy (All (IsTextAt s.bytes pieces)) (λ before. IsContentAtFault s.bytes pieces) contents.now read result) }
{
    for at in 0..contents.len() {
        match found_in(alloc, given, form, contents[at]) {
            Ok(found) => outcome.hand_out(at, &found, array, ends)?,
            Err(fault) => return Err(Refusal::of(fault, at)),
        }
    }
    Ok(())
}

/// Finds the events of contents of the input as texts, and hands them out in a form, or says why it stops.
pub fn texts<F: Form + Drop>(
    alloc: Global,
    input: &Input,
    contents: &[FlatContent],
    array: &mut [F::Item],
    ends: &mut [usize],
    outcome: &mut Outcome,
) -> Result<(), Refusal>
    ensures { AreFound (texts_of F.items input.now contents.now) array.old array.new ends.old ends.new outcome.new (EndTexts input.now contents.now result) }
{
    *outcome = Outcome::nothing();
    let options = texts_options(input, contents)?;
    check_input(input)?;
    let document = prepared(
        alloc,
        input.bytes,
        &options,
        input.labels,
        input.definitions,
        input.footnotes,
    )?;
    let form = F::over(alloc, &document)?;
    let given = Contents {
        document: &document,
        pieces: input.pieces,
    };
    read_all(alloc, &given, &form, contents, array, ends, outcome)
}
