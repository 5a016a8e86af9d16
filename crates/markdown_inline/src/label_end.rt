//! Ends of labels (CommonMark 6.3 and 6.4, and footnote calls). The states are those of `markdown_label`, with resources and references; the
//! pass `resolve`, which groups labels, is that of `markdown_label_pass`.
//!
//!     label_end ::= ']' (resource | full | collapsed)?
//!
//! The modules `label_end` and `resource` there have the grammar of the parts, and the events of the states.
//!
//! Events, after the pass:
//!
//!     Link, Image or GfmFootnoteCall
//!       Label
//!         LabelLink, LabelImage or GfmFootnoteCallLabel
//!         LabelText
//!         LabelEnd
//!       Resource or Reference      where one follows
//!
//! Example: `[a](b)`, `![a][b]` and `[^a]`.
//!
//! Definition: `label_end` in `markdown_model/specs/LabelEnd.antt`, and `labels_of` in `Passes.antt` for the pass.

pub use markdown_label::label_end::{
    after, nok, ok, reference_collapsed, reference_collapsed_open, reference_full,
    reference_full_after, reference_full_missing, reference_not_full, resource_before,
    resource_between, resource_destination_after, resource_destination_missing, resource_end,
    resource_open, resource_start, resource_title_after, start,
};
pub use markdown_label_pass::label_groups::resolve;
