//! Autolink literals (GFM 6.9). The states, of those with a protocol and of those from `www.` on, are those of `markdown_leaf_gfm`; the pass
//! `resolve`, which sets email literals apart, is that of `markdown_passes`.
//!
//!     gfm_autolink_literal ::= protocol_literal | www_literal | email_literal
//!
//! The modules there have the grammar of each.
//!
//! Events, each over a whole literal:
//!
//!     GfmAutolinkLiteralProtocol    from the states
//!     GfmAutolinkLiteralWww         from the states
//!     GfmAutolinkLiteralEmail       from the pass
//!     GfmAutolinkLiteralMailto      from the pass
//!     GfmAutolinkLiteralXmpp        from the pass
//!
//! Example: `http://a.b`, `www.a.b`, `a@b.c`, `mailto:a@b.c` and `xmpp:a@b.c/d`.
//!
//! Definition: in `markdown_model/specs`, `GfmAutolinkLiteral.antt` and `GfmEmailLiteral.antt`, and `with_emails_apart` of `Passes.antt` for the
//! pass.

pub use markdown_leaf_gfm::gfm_autolink_literal::{
    domain_after, domain_at_punctuation, domain_inside, path_after, path_at_punctuation,
    path_inside, protocol_after, protocol_prefix_inside, protocol_slashes_inside, protocol_start,
    trail, trail_bracket_after, trail_char_ref_inside, trail_char_ref_start, www_after,
    www_prefix_after, www_prefix_inside, www_start,
};
pub use markdown_passes::email::resolve;
