//! The end of a label as a single construct.
ghost use Rattle.std.specs.Prelude.{◌≡◌, ◌≤◌, [], IfOk};
ghost use Rattle.markdown_inline.specs.markdown_plan.Characters.{ReadsText};
ghost use Rattle.markdown_inline.specs.markdown_engine.RestingFields.{at_rest};
ghost use Rattle.markdown_inline.specs.markdown_engine.Weights.{codes_left};
ghost use Rattle.markdown_inline.specs.markdown_event.declared.state.StateName.TheVariants.{LabelEndStart};
ghost use Rattle.markdown_inline.specs.markdown_partial.PartialSpaceOrTab.{most};
ghost use Rattle.markdown_inline.specs.markdown_run.RunConstruct.{IsConstruct};

use markdown_inline::event::{Event, Kind, Name};
use markdown_inline::run::construct;
use markdown_inline::state::StateName;
use markdown_inline::tokenizer::{LabelKind, LabelStart, Tokenizer};
use markdown_inline::walk::DOCUMENT_START;
use markdown_run_text::readers::label_end;
use std::alloc::AllocError;

// Keeps the start of a link that stands before all codes.
fn keep_start(tokenizer: &mut Tokenizer) -> Result<(), AllocError>
    requires alone { tokenizer.old.attempts ≡ [] }
    requires events { tokenizer.old.events ≡ [] }
    requires rest { tokenizer.old.tokenize_state ≡ at_rest }
    requires fits { codes_left tokenizer.old ≤ most }
    requires text { ReadsText tokenizer.old }
    ensures alone { IfOk result (λ _. tokenizer.new.attempts ≡ []) }
    ensures construct { IfOk result (λ _. IsConstruct LabelEndStart tokenizer.new) }
{
    tokenizer.events.push(Event {
        kind: Kind::Enter,
        name: Name::LabelLink,
        point: DOCUMENT_START,
        link: None,
    })?;
    tokenizer.tokenize_state.label_starts.push(LabelStart {
        kind: LabelKind::Link,
        start: (0, 0),
        inactive: false,
    })
}

// The same. A refusal of memory is noted.
fn start_kept(tokenizer: &mut Tokenizer) -> Result<(), AllocError>
    requires alone { tokenizer.old.attempts ≡ [] }
    requires events { tokenizer.old.events ≡ [] }
    requires rest { tokenizer.old.tokenize_state ≡ at_rest }
    requires fits { codes_left tokenizer.old ≤ most }
    requires text { ReadsText tokenizer.old }
    ensures alone { IfOk result (λ _. tokenizer.new.attempts ≡ []) }
    ensures construct { IfOk result (λ _. IsConstruct LabelEndStart tokenizer.new) }
{
    let kept = keep_start(tokenizer);
    tokenizer.noted(kept)
}

/// Reads the end of a label whose start stands before it, by its states or by its reader.
pub(crate) fn read_end(tokenizer: &mut Tokenizer, by_reader: bool) -> Result<bool, AllocError>
    requires alone { tokenizer.old.attempts ≡ [] }
    requires events { tokenizer.old.events ≡ [] }
    requires rest { tokenizer.old.tokenize_state ≡ at_rest }
    requires fits { codes_left tokenizer.old ≤ most }
    requires text { ReadsText tokenizer.old }
{
    start_kept(tokenizer)?;
    if by_reader {
        label_end::read(tokenizer)
    } else {
        construct(StateName::LabelEndStart, tokenizer)
    }
}
