//! Options that more than one program or test runs with.
use markdown_content::configuration::{self, ParseOptions};

/// All constructs, and each other setting by default: what the words `gfm` and `math` ask of the program.
pub const ALL_CONSTRUCTS: ParseOptions = ParseOptions {
    constructs: configuration::ALL_CONSTRUCTS,
    gfm_strikethrough_single_tilde: true,
    math_text_single_dollar: true,
    attention_first_lengths: false,
    label_shortcut_before_bracket: false,
    commonmark: false,
    html_references: false,
};
