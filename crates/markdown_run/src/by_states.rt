//! A text that is read by its states alone, from `text::start` on, with no loop over its elements and no readers.
//!
//! Definition: `text_events` in `markdown_model/specs/InlineTree.antt`. It is that of `run::text`, so both answer the same events.
ghost use Rattle.std.specs.Prelude.{◌≡◌, false, map, IfOk};
ghost use Rattle.std.specs.List.{All};
ghost use Rattle.markdown_content.specs.Content.{IsTextContent, content_of};
ghost use Rattle.markdown_run_text.specs.RunSetting.{text_setting_of};
ghost use Rattle.markdown_attention.specs.AttentionPass.{IsProbed};
ghost use Rattle.markdown_innermost.specs.InnermostEvents.{IsSpanInOrder, covered, innermost, lent};
ghost use Rattle.markdown_model.specs.InlineTree.{label_tree, text_events};

use crate::run::{ListRun, Run, run_through};
use markdown_content::parser::{ParseState, Piece};
use markdown_engine::tokenizer::Tokenizer;
use markdown_event::state::StateName;
use std::alloc::{AllocError, Global};

// As `text_by_states`, with the events in the list in which the run made them.
fn list_by_states(
    alloc: Global,
    parse_state: &ParseState,
    pieces: &[Piece],
    first_of_item: bool,
) -> Result<ListRun, AllocError>
    requires { IsTextContent parse_state.now.bytes.now pieces.now }
    ensures events { IfOk result (λ run. run.events ≡ text_events (text_setting_of parse_state.now first_of_item) pieces.now) }
    ensures places { IfOk result (λ run. All (IsSpanInOrder parse_state.now.bytes.now) (innermost run.events)) }
    ensures leaves { let bytes = parse_state.now.bytes.now in
        IfOk result (λ run. covered bytes (map (lent bytes) (innermost run.events)) ≡ content_of bytes pieces.now) }
    ensures probes { let s = text_setting_of parse_state.now first_of_item in
        IfOk result (λ run. IsProbed s (label_tree s (content_of s.bytes pieces.now)) run.probes) }
    ensures no_probes { let on = parse_state.now.options.now.constructs in on.attention ≡ false → on.gfm_strikethrough ≡ false
        → IfOk result (λ run. run.probes ≡ 0) }
{
    let mut tokenizer = Tokenizer::new(alloc, parse_state, pieces);
    tokenizer
        .tokenize_state
        .document_at_first_paragraph_of_list_item = first_of_item;
    let found = run_through(StateName::TextStart, &mut tokenizer);
    drop(tokenizer);
    found
}

/// The events of the inline tree of a content that is read as text, found by the states of the constructs alone (CommonMark 6, with what GFM adds in
/// 5.3, 6.5 and 6.9, and footnote calls). The loop `run_state` calls one state after another, from `text::start` on, and then `resolve_all` calls the
/// passes that they registered.
///
/// What it answers is what `text` answers, by the same promises; so it shows that the states by themselves lead to the whole tree. It is there for
/// those who build on single states. `text` is faster: it reads most elements without states, and takes notes of what cannot come, where by states
/// alone spans, HTML and the domains of literals may take quadratic work.
///
/// The pieces have to be a text content, which `is_text` answers. `first_of_item` says that it is the first paragraph of a list item, where the
/// check of a task may stand. What `leaves` lends for the events, and the number of looks, are as of `text`.
///
/// The error comes only where memory is refused.
pub fn text_by_states(
    alloc: Global,
    parse_state: &ParseState,
    pieces: &[Piece],
    first_of_item: bool,
) -> Result<Run, AllocError>
    requires { IsTextContent parse_state.now.bytes.now pieces.now }
    ensures events { IfOk result (λ run. run.events.items ≡ text_events (text_setting_of parse_state.now first_of_item) pieces.now) }
    ensures places { IfOk result (λ run. All (IsSpanInOrder parse_state.now.bytes.now) (innermost run.events.items)) }
    ensures leaves { let bytes = parse_state.now.bytes.now in
        IfOk result (λ run. covered bytes (map (lent bytes) (innermost run.events.items)) ≡ content_of bytes pieces.now) }
    ensures probes { let s = text_setting_of parse_state.now first_of_item in
        IfOk result (λ run. IsProbed s (label_tree s (content_of s.bytes pieces.now)) run.probes) }
    ensures no_probes { let on = parse_state.now.options.now.constructs in on.attention ≡ false → on.gfm_strikethrough ≡ false
        → IfOk result (λ run. run.probes ≡ 0) }
{
    list_by_states(alloc, parse_state, pieces, first_of_item)?.into_run(alloc)
}
