//! The states of inline content by name.
ghost use Rattle.std.specs.Prelude.{◌≡◌, false, IfOk, IsErr, OnErr, IsTrue};
ghost use Rattle.markdown_run.specs.Layer.{ready_of, step_of, ends_of, weight_of, stops_of, laws_of};
ghost use Rattle.markdown_run.specs.Layer.Steady.{steady_of};
ghost use Rattle.markdown_run.specs.Families.{is_from_labels, is_from_leaves, is_from_literals, is_from_parts, is_html};
ghost use Rattle.markdown_run_text.specs.ContentPasses.{may_resolve_of, resolves_of};

use crate::{attention, resolve, text};
use markdown_content::bytes::ByteSet;
use markdown_engine::layer::Layer;
use markdown_engine::tokenizer::{TokenizeState, Tokenizer};
use markdown_engine_events::subtokenize::Subresult;
use markdown_event::resolve::ResolveName;
use markdown_event::state::{State, StateName};
use markdown_label::{gfm_label_start_footnote, label_end, label_start_image, label_start_link};
use markdown_leaf::{autolink, character_escape, character_reference, hard_break_escape, raw_text};
use markdown_leaf_gfm::{gfm_autolink_literal, gfm_task_list_item_check};
use markdown_leaf_html::html_text;
use markdown_partial::{
    partial_data, partial_destination, partial_label, partial_space_or_tab,
    partial_space_or_tab_eol, partial_title,
};
use markdown_run_text::string;
use std::alloc::AllocError;

// Calls the state of this name, which is one of HTML.
fn dispatch_html(name: StateName, tokenizer: &mut Tokenizer) -> Result<State, AllocError>
    requires family { IsTrue (is_html name) }
    requires ready { ready_of name tokenizer.old }
    ensures ok { IfOk result (λ s. step_of name tokenizer.old ≡ record { state = s; left = tokenizer.new }) }
    ensures err { OnErr result (IsTrue tokenizer.new.failed) }
{
    match name {
        StateName::HtmlTextStart => html_text::start(tokenizer),
        StateName::HtmlTextOpen => html_text::open(tokenizer),
        StateName::HtmlTextDeclarationOpen => html_text::declaration_open(tokenizer),
        StateName::HtmlTextCommentOpenInside => html_text::comment_open_inside(tokenizer),
        StateName::HtmlTextComment => html_text::comment(tokenizer),
        StateName::HtmlTextCommentClose => html_text::comment_close(tokenizer),
        StateName::HtmlTextCommentEnd => html_text::comment_end(tokenizer),
        StateName::HtmlTextCdata => html_text::cdata(tokenizer),
        StateName::HtmlTextCdataClose => html_text::cdata_close(tokenizer),
        StateName::HtmlTextCdataEnd => html_text::cdata_end(tokenizer),
        StateName::HtmlTextDeclaration => html_text::declaration(tokenizer),
        StateName::HtmlTextInstruction => html_text::instruction(tokenizer),
        StateName::HtmlTextInstructionClose => html_text::instruction_close(tokenizer),
        StateName::HtmlTextTagCloseStart => html_text::tag_close_start(tokenizer),
        StateName::HtmlTextTagClose => html_text::tag_close(tokenizer),
        StateName::HtmlTextTagCloseBetween => html_text::tag_close_between(tokenizer),
        StateName::HtmlTextTagOpen => html_text::tag_open(tokenizer),
        StateName::HtmlTextTagOpenBetween => html_text::tag_open_between(tokenizer),
        StateName::HtmlTextTagOpenAttributeName => html_text::tag_open_attribute_name(tokenizer),
        StateName::HtmlTextTagOpenAttributeNameAfter => html_text::tag_open_attribute_name_after(
            tokenizer,
        ),
        StateName::HtmlTextTagOpenAttributeValueBefore =>
            html_text::tag_open_attribute_value_before(tokenizer),
        StateName::HtmlTextTagOpenAttributeValueQuotedAfter =>
            html_text::tag_open_attribute_value_quoted_after(tokenizer),
        StateName::HtmlTextTagOpenAttributeValueUnquoted =>
            html_text::tag_open_attribute_value_unquoted(tokenizer),
        StateName::HtmlTextEnd => html_text::end(tokenizer),
        StateName::HtmlTextCdataOpenInside => html_text::cdata_open_inside(tokenizer),
        StateName::HtmlTextTagOpenAttributeValueQuoted =>
            html_text::tag_open_attribute_value_quoted(tokenizer),
        StateName::HtmlTextLineEndingBefore => html_text::line_ending_before(tokenizer),
        StateName::HtmlTextLineEndingAfter => html_text::line_ending_after(tokenizer),
        // (HtmlTextLineEndingAfterPrefix)
        _ => html_text::line_ending_after_prefix(tokenizer),
    }
}

// Calls the state of this name, which is one of autolink literals, or else of HTML.
fn dispatch_literals(name: StateName, tokenizer: &mut Tokenizer) -> Result<State, AllocError>
    requires family { IsTrue (is_from_literals name) }
    requires ready { ready_of name tokenizer.old }
    ensures ok { IfOk result (λ s. step_of name tokenizer.old ≡ record { state = s; left = tokenizer.new }) }
    ensures err { OnErr result (IsTrue tokenizer.new.failed) }
{
    match name {
        StateName::GfmAutolinkLiteralProtocolStart => gfm_autolink_literal::protocol_start(
            tokenizer,
        ),
        StateName::GfmAutolinkLiteralProtocolAfter => gfm_autolink_literal::protocol_after(
            tokenizer,
        ),
        StateName::GfmAutolinkLiteralProtocolPrefixInside =>
            gfm_autolink_literal::protocol_prefix_inside(tokenizer),
        StateName::GfmAutolinkLiteralProtocolSlashesInside =>
            gfm_autolink_literal::protocol_slashes_inside(tokenizer),
        StateName::GfmAutolinkLiteralWwwStart => gfm_autolink_literal::www_start(tokenizer),
        StateName::GfmAutolinkLiteralWwwPrefixInside => gfm_autolink_literal::www_prefix_inside(
            tokenizer,
        ),
        StateName::GfmAutolinkLiteralWwwPrefixAfter => gfm_autolink_literal::www_prefix_after(
            tokenizer,
        ),
        StateName::GfmAutolinkLiteralWwwAfter => gfm_autolink_literal::www_after(tokenizer),
        StateName::GfmAutolinkLiteralDomainInside => gfm_autolink_literal::domain_inside(tokenizer),
        StateName::GfmAutolinkLiteralDomainAtPunctuation =>
            gfm_autolink_literal::domain_at_punctuation(tokenizer),
        StateName::GfmAutolinkLiteralDomainAfter => gfm_autolink_literal::domain_after(tokenizer),
        StateName::GfmAutolinkLiteralPathInside => gfm_autolink_literal::path_inside(tokenizer),
        StateName::GfmAutolinkLiteralPathAtPunctuation => gfm_autolink_literal::path_at_punctuation(
            tokenizer,
        ),
        StateName::GfmAutolinkLiteralPathAfter => gfm_autolink_literal::path_after(tokenizer),
        StateName::GfmAutolinkLiteralTrail => gfm_autolink_literal::trail(tokenizer),
        StateName::GfmAutolinkLiteralTrailBracketAfter => gfm_autolink_literal::trail_bracket_after(
            tokenizer,
        ),
        StateName::GfmAutolinkLiteralTrailCharRefStart =>
            gfm_autolink_literal::trail_char_ref_start(tokenizer),
        StateName::GfmAutolinkLiteralTrailCharRefInside =>
            gfm_autolink_literal::trail_char_ref_inside(tokenizer),
        _ => dispatch_html(name, tokenizer),
    }
}

// Calls the state of this name, which is one of escapes, character references, hard breaks, autolinks and spans, or else of the families above.
fn dispatch_leaves(name: StateName, tokenizer: &mut Tokenizer) -> Result<State, AllocError>
    requires family { IsTrue (is_from_leaves name) }
    requires ready { ready_of name tokenizer.old }
    ensures ok { IfOk result (λ s. step_of name tokenizer.old ≡ record { state = s; left = tokenizer.new }) }
    ensures err { OnErr result (IsTrue tokenizer.new.failed) }
{
    match name {
        StateName::CharacterEscapeStart => character_escape::start(tokenizer),
        StateName::CharacterEscapeInside => character_escape::inside(tokenizer),
        StateName::CharacterReferenceStart => character_reference::start(tokenizer),
        StateName::CharacterReferenceOpen => character_reference::open(tokenizer),
        StateName::CharacterReferenceNumeric => character_reference::numeric(tokenizer),
        StateName::CharacterReferenceValue => character_reference::value(tokenizer),
        StateName::HardBreakEscapeStart => hard_break_escape::start(tokenizer),
        StateName::HardBreakEscapeAfter => hard_break_escape::after(tokenizer),
        StateName::AutolinkStart => autolink::start(tokenizer),
        StateName::AutolinkOpen => autolink::open(tokenizer),
        StateName::AutolinkSchemeOrEmailAtext => autolink::scheme_or_email_atext(tokenizer),
        StateName::AutolinkSchemeInsideOrEmailAtext => autolink::scheme_inside_or_email_atext(
            tokenizer,
        ),
        StateName::AutolinkUrlInside => autolink::url_inside(tokenizer),
        StateName::AutolinkEmailAtext => autolink::email_atext(tokenizer),
        StateName::AutolinkEmailAtSignOrDot => autolink::email_at_sign_or_dot(tokenizer),
        StateName::AutolinkEmailLabel => autolink::email_label(tokenizer),
        StateName::AutolinkEmailValue => autolink::email_value(tokenizer),
        StateName::RawTextStart => raw_text::start(tokenizer),
        StateName::RawTextSequenceOpen => raw_text::sequence_open(tokenizer),
        StateName::RawTextBetween => raw_text::between(tokenizer),
        StateName::RawTextData => raw_text::data(tokenizer),
        StateName::RawTextSequenceClose => raw_text::sequence_close(tokenizer),
        _ => dispatch_literals(name, tokenizer),
    }
}

// Calls the state of this name, which is one of whitespace, destinations, titles and labels of references, or else of the families above.
fn dispatch_parts(name: StateName, tokenizer: &mut Tokenizer) -> Result<State, AllocError>
    requires family { IsTrue (is_from_parts name) }
    requires ready { ready_of name tokenizer.old }
    ensures ok { IfOk result (λ s. step_of name tokenizer.old ≡ record { state = s; left = tokenizer.new }) }
    ensures err { OnErr result (IsTrue tokenizer.new.failed) }
{
    match name {
        StateName::SpaceOrTabStart => partial_space_or_tab::start(tokenizer),
        StateName::SpaceOrTabInside => partial_space_or_tab::inside(tokenizer),
        StateName::SpaceOrTabAfter => partial_space_or_tab::after(tokenizer),
        StateName::SpaceOrTabEolStart => partial_space_or_tab_eol::start(tokenizer),
        StateName::SpaceOrTabEolAfterFirst => partial_space_or_tab_eol::after_first(tokenizer),
        StateName::SpaceOrTabEolAtEol => partial_space_or_tab_eol::at_eol(tokenizer),
        StateName::SpaceOrTabEolAfterEol => partial_space_or_tab_eol::after_eol(tokenizer),
        StateName::SpaceOrTabEolAfterMore => partial_space_or_tab_eol::after_more(tokenizer),
        StateName::DestinationStart => partial_destination::start(tokenizer),
        StateName::DestinationEnclosedBefore => partial_destination::enclosed_before(tokenizer),
        StateName::DestinationEnclosed => partial_destination::enclosed(tokenizer),
        StateName::DestinationEnclosedEscape => partial_destination::enclosed_escape(tokenizer),
        StateName::DestinationRaw => partial_destination::raw(tokenizer),
        StateName::DestinationRawEscape => partial_destination::raw_escape(tokenizer),
        StateName::TitleStart => partial_title::start(tokenizer),
        StateName::TitleBegin => partial_title::begin(tokenizer),
        StateName::TitleAtBreak => partial_title::at_break(tokenizer),
        StateName::TitleAfterEol => partial_title::after_eol(tokenizer),
        StateName::TitleInside => partial_title::inside(tokenizer),
        StateName::TitleEscape => partial_title::escape(tokenizer),
        StateName::TitleNok => partial_title::nok(tokenizer),
        StateName::LabelStart => partial_label::start(tokenizer),
        StateName::LabelAtBreak => partial_label::at_break(tokenizer),
        StateName::LabelEolAfter => partial_label::eol_after(tokenizer),
        StateName::LabelInside => partial_label::inside(tokenizer),
        StateName::LabelEscape => partial_label::escape(tokenizer),
        StateName::LabelNok => partial_label::nok(tokenizer),
        _ => dispatch_leaves(name, tokenizer),
    }
}

// Calls the state of this name, which is one of starts and ends of labels, or of resources, or else of the families above.
fn dispatch_labels(name: StateName, tokenizer: &mut Tokenizer) -> Result<State, AllocError>
    requires family { IsTrue (is_from_labels name) }
    requires ready { ready_of name tokenizer.old }
    ensures ok { IfOk result (λ s. step_of name tokenizer.old ≡ record { state = s; left = tokenizer.new }) }
    ensures err { OnErr result (IsTrue tokenizer.new.failed) }
{
    match name {
        StateName::GfmLabelStartFootnoteStart => gfm_label_start_footnote::start(tokenizer),
        StateName::LabelStartImageStart => label_start_image::start(tokenizer),
        StateName::LabelStartLinkStart => label_start_link::start(tokenizer),
        StateName::LabelEndStart => label_end::start(tokenizer),
        StateName::GfmLabelStartFootnoteOpen => gfm_label_start_footnote::open(tokenizer),
        StateName::LabelStartImageOpen => label_start_image::open(tokenizer),
        StateName::LabelStartImageAfter => label_start_image::after(tokenizer),
        StateName::LabelEndAfter => label_end::after(tokenizer),
        StateName::LabelEndOk => label_end::ok(tokenizer),
        StateName::LabelEndNok => label_end::nok(tokenizer),
        StateName::LabelEndResourceStart => label_end::resource_start(tokenizer),
        StateName::LabelEndResourceBefore => label_end::resource_before(tokenizer),
        StateName::LabelEndResourceOpen => label_end::resource_open(tokenizer),
        StateName::LabelEndResourceDestinationAfter => {
            label_end::resource_destination_after(tokenizer)
        }
        StateName::LabelEndResourceDestinationMissing => {
            label_end::resource_destination_missing(tokenizer)
        }
        StateName::LabelEndResourceBetween => label_end::resource_between(tokenizer),
        StateName::LabelEndResourceTitleAfter => label_end::resource_title_after(tokenizer),
        StateName::LabelEndResourceEnd => label_end::resource_end(tokenizer),
        StateName::LabelEndReferenceFull => label_end::reference_full(tokenizer),
        StateName::LabelEndReferenceFullAfter => label_end::reference_full_after(tokenizer),
        StateName::LabelEndReferenceFullMissing => label_end::reference_full_missing(tokenizer),
        StateName::LabelEndReferenceNotFull => label_end::reference_not_full(tokenizer),
        StateName::LabelEndReferenceCollapsed => label_end::reference_collapsed(tokenizer),
        StateName::LabelEndReferenceCollapsedOpen => label_end::reference_collapsed_open(tokenizer),
        _ => dispatch_parts(name, tokenizer),
    }
}

// Calls the state of this name: those of texts and strings, data, runs of markers and task checks, or else one of the families above.
fn dispatch(name: StateName, tokenizer: &mut Tokenizer) -> Result<State, AllocError>
    requires { ready_of name tokenizer.old }
    ensures ok { IfOk result (λ s. step_of name tokenizer.old ≡ record { state = s; left = tokenizer.new }) }
    ensures err { OnErr result (IsTrue tokenizer.new.failed) }
{
    match name {
        StateName::GfmTaskListItemCheckStart => gfm_task_list_item_check::start(tokenizer),
        StateName::GfmTaskListItemCheckInside => gfm_task_list_item_check::inside(tokenizer),
        StateName::GfmTaskListItemCheckClose => gfm_task_list_item_check::close(tokenizer),
        StateName::GfmTaskListItemCheckAfter => gfm_task_list_item_check::after(tokenizer),
        StateName::GfmTaskListItemCheckAfterSpaceOrTab => {
            gfm_task_list_item_check::after_space_or_tab(tokenizer)
        }
        StateName::DataStart => partial_data::start(tokenizer),
        StateName::DataAtBreak => partial_data::at_break(tokenizer),
        StateName::DataInside => partial_data::inside(tokenizer),
        StateName::StringStart => string::start(tokenizer),
        StateName::StringBefore => string::before(tokenizer),
        StateName::StringBeforeData => string::before_data(tokenizer),
        StateName::TextStart => text::start(tokenizer),
        StateName::TextBefore => text::before(tokenizer),
        StateName::TextBeforeHtml => text::before_html(tokenizer),
        StateName::TextBeforeHardBreakEscape => text::before_hard_break_escape(tokenizer),
        StateName::TextBeforeLabelStartLink => text::before_label_start_link(tokenizer),
        StateName::TextBeforeData => text::before_data(tokenizer),
        StateName::AttentionStart => attention::start(tokenizer),
        StateName::AttentionInside => attention::inside(tokenizer),
        _ => dispatch_labels(name, tokenizer),
    }
}

/// Calls the state of this name.
///
/// The error comes where a growth is refused; then `failed` is true. It comes at once where `failed` is true already, and then
/// nothing is asked of the tokenizer.
pub fn call(name: StateName, tokenizer: &mut Tokenizer) -> Result<State, AllocError>
    requires { tokenizer.old.failed ≡ false → ready_of name tokenizer.old }
    ensures ok { IfOk result (λ s. step_of name tokenizer.old ≡ record { state = s; left = tokenizer.new }) }
    ensures failed { IsTrue tokenizer.old.failed → IsErr result }
    ensures err { OnErr result (IsTrue tokenizer.new.failed) }
{
    if tokenizer.failed() {
        return Err(AllocError);
    }
    dispatch(name, tokenizer)
}

// The bytes at which a state that passes code after code stops, line endings aside; none for the other states.
fn stop_bytes(name: StateName, fields: &TokenizeState) -> Option<ByteSet>
    ensures { result ≡ stops_of name fields.now }
{
    match name {
        StateName::DataInside => partial_data::inside_stops(fields),
        StateName::RawTextData => raw_text::data_stops(fields),
        StateName::HtmlTextComment
        | StateName::HtmlTextCdata
        | StateName::HtmlTextDeclaration
        | StateName::HtmlTextInstruction
        | StateName::HtmlTextTagOpenAttributeValueQuoted => html_text::stop_bytes(name, fields),
        StateName::AutolinkUrlInside => Some(autolink::uri_stops()),
        StateName::DestinationEnclosed | StateName::DestinationRaw => {
            partial_destination::stop_bytes(name)
        }
        StateName::TitleInside => partial_title::inside_stops(fields),
        _ => None,
    }
}

/// Inline content, as the engine runs it.
pub struct Inline;

impl Layer for Inline {
    ghost ready = { ready_of };

    ghost step = { step_of };

    ghost ends = { ends_of };

    ghost weight = { weight_of };

    ghost stops = { stops_of };

    ghost may_resolve = { may_resolve_of };

    ghost resolves = { resolves_of };

    fn call(name: StateName, tokenizer: &mut Tokenizer) -> Result<State, AllocError> {
        call(name, tokenizer)
    }

    fn stop_bytes(name: StateName, fields: &TokenizeState) -> Option<ByteSet> {
        stop_bytes(name, fields)
    }

    fn resolve(
        name: ResolveName,
        tokenizer: &mut Tokenizer,
    ) -> Result<Option<Subresult>, AllocError> {
        resolve::call(name, tokenizer)
    }

    ghost laws = { laws_of };

    ghost steady = { steady_of };
}
