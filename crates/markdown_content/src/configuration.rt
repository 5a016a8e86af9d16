//! What a run is asked to look for.

ghost use Rattle.std.specs.Prelude.{◌≡◌};
ghost use Rattle.markdown_content.specs.DefaultOptions.{constructs_of, has_option, options_of};
ghost use Rattle.markdown_content.specs.CommonMark.{rules_of};

/// The switch of each construct by its name, and its bit.
pub const CONSTRUCTS: [(&str, u32); 16] = [
    ("attention", 0x1),
    ("autolink", 0x2),
    ("character_escape", 0x4),
    ("character_reference", 0x8),
    ("code_text", 0x10),
    ("gfm_autolink_literal", 0x20),
    ("gfm_label_start_footnote", 0x40),
    ("gfm_strikethrough", 0x80),
    ("gfm_task_list_item", 0x100),
    ("hard_break_escape", 0x200),
    ("hard_break_trailing", 0x400),
    ("html_text", 0x800),
    ("label_start_image", 0x1000),
    ("label_start_link", 0x2000),
    ("label_end", 0x4000),
    ("math_text", 0x8000),
];

/// The other switches by their names, and their bits.
pub const SETTINGS: [(&str, u32); 6] = [
    ("gfm_strikethrough_single_tilde", 0x1_0000),
    ("math_text_single_dollar", 0x2_0000),
    ("attention_first_lengths", 0x4_0000),
    ("label_shortcut_before_bracket", 0x8_0000),
    ("commonmark", 0x20_0000),
    ("html_references", 0x40_0000),
];

/// The bits of CommonMark's constructs, and of the settings that are on by default.
pub const DEFAULT_BITS: u32 = 0x3_7E1F;

/// The lowest number with a bit that is none of an option. The bit 0x10_0000 says that a text is the first of a list item.
pub const UNKNOWN_OPTION: u32 = 0x80_0000;

/// All constructs.
pub const ALL_CONSTRUCTS: Constructs = Constructs {
    attention: true,
    autolink: true,
    character_escape: true,
    character_reference: true,
    code_text: true,
    gfm_autolink_literal: true,
    gfm_label_start_footnote: true,
    gfm_strikethrough: true,
    gfm_task_list_item: true,
    hard_break_escape: true,
    hard_break_trailing: true,
    html_text: true,
    label_start_image: true,
    label_start_link: true,
    label_end: true,
    math_text: true,
};

/// CommonMark's constructs.
pub const COMMONMARK: Constructs = Constructs {
    attention: true,
    autolink: true,
    character_escape: true,
    character_reference: true,
    code_text: true,
    gfm_autolink_literal: false,
    gfm_label_start_footnote: false,
    gfm_strikethrough: false,
    gfm_task_list_item: false,
    hard_break_escape: true,
    hard_break_trailing: true,
    html_text: true,
    label_start_image: true,
    label_start_link: true,
    label_end: true,
    math_text: false,
};

/// Whether the options have this bit.
pub fn has_option(options: u32, bit: u32) -> bool
    ensures { result ≡ has_option options bit }
{
    options & bit != 0
}

/// The constructs that are looked for, each by a switch.
///
/// A construct whose switch is off never holds; what it would have taken is left to others, and in the end is data.
#[derive(Clone, Copy, Debug, PartialEq, Eq)]
pub struct Constructs {
    /// Emphasis and strong emphasis (CommonMark 6.2).
    pub attention: bool,
    /// Autolinks (CommonMark 6.5).
    pub autolink: bool,
    /// Backslash escapes (CommonMark 2.4).
    pub character_escape: bool,
    /// Character references (CommonMark 2.5).
    pub character_reference: bool,
    /// Code spans (CommonMark 6.1).
    pub code_text: bool,
    /// Autolink literals (GFM 6.9).
    pub gfm_autolink_literal: bool,
    /// Starts of footnote calls.
    pub gfm_label_start_footnote: bool,
    /// Strikethrough (GFM 6.5).
    pub gfm_strikethrough: bool,
    /// Checks of task list items (GFM 5.3).
    pub gfm_task_list_item: bool,
    /// Hard line breaks by a backslash (CommonMark 6.7).
    pub hard_break_escape: bool,
    /// Hard line breaks by spaces (CommonMark 6.7).
    pub hard_break_trailing: bool,
    /// Inline HTML (CommonMark 6.6).
    pub html_text: bool,
    /// Starts of images (CommonMark 6.4).
    pub label_start_image: bool,
    /// Starts of links (CommonMark 6.3).
    pub label_start_link: bool,
    /// Ends of links, images and footnote calls.
    pub label_end: bool,
    /// Math spans.
    pub math_text: bool,
}

impl Constructs {
    /// The constructs that these bits switch on.
    pub fn of_bits(options: u32) -> Constructs
        ensures { result ≡ constructs_of options }
    {
        Constructs {
            attention: has_option(options, 0x1),
            autolink: has_option(options, 0x2),
            character_escape: has_option(options, 0x4),
            character_reference: has_option(options, 0x8),
            code_text: has_option(options, 0x10),
            gfm_autolink_literal: has_option(options, 0x20),
            gfm_label_start_footnote: has_option(options, 0x40),
            gfm_strikethrough: has_option(options, 0x80),
            gfm_task_list_item: has_option(options, 0x100),
            hard_break_escape: has_option(options, 0x200),
            hard_break_trailing: has_option(options, 0x400),
            html_text: has_option(options, 0x800),
            label_start_image: has_option(options, 0x1000),
            label_start_link: has_option(options, 0x2000),
            label_end: has_option(options, 0x4000),
            math_text: has_option(options, 0x8000),
        }
    }
}

impl Default for Constructs {
    ghost use Rattle.markdown_content.specs.DefaultOptions.{default_constructs};

    ghost is_default = { λ c. c ≡ default_constructs };

    /// CommonMark's constructs.
    fn default() -> Constructs {
        COMMONMARK
    }
}

/// All that a run can be asked.
#[derive(Clone, Copy, Debug, PartialEq, Eq)]
pub struct ParseOptions {
    /// The constructs that are looked for.
    pub constructs: Constructs,
    /// Whether one tilde makes strikethrough, beside two.
    pub gfm_strikethrough_single_tilde: bool,
    /// Whether one dollar opens and closes a math span, beside more.
    pub math_text_single_dollar: bool,
    /// Whether the rule of three of emphasis reads the lengths of whole runs, as CommonMark says, and not what earlier pairs left of them.
    pub attention_first_lengths: bool,
    /// Whether a defined label before a `[` that begins no label of its own is a shortcut reference, as CommonMark says.
    pub label_shortcut_before_bracket: bool,
    /// Whether CommonMark's rule holds in each point that `Rules` names, in which the crate that is ported departs from it. It implies `attention_first_lengths`, `label_shortcut_before_bracket` and `html_references`.
    pub commonmark: bool,
    /// Whether a reference may have any of the 2,125 names of HTML that end in a semicolon, as CommonMark says, and not only the 294 of a shorter table.
    pub html_references: bool,
}

impl ParseOptions {
    /// What these bits ask for.
    pub fn of_bits(options: u32) -> ParseOptions
        ensures { result ≡ options_of options }
    {
        ParseOptions {
            constructs: Constructs::of_bits(options),
            gfm_strikethrough_single_tilde: has_option(options, 0x1_0000),
            math_text_single_dollar: has_option(options, 0x2_0000),
            attention_first_lengths: has_option(options, 0x4_0000),
            label_shortcut_before_bracket: has_option(options, 0x8_0000),
            commonmark: has_option(options, 0x20_0000),
            html_references: has_option(options, 0x40_0000),
        }
    }

    /// The rules that these options choose.
    #[tactic(auto, unfolding(crate::specs::CommonMark::rules_of))]
    pub fn rules(&self) -> Rules
        ensures { result ≡ rules_of self.now }
    {
        if self.commonmark {
            COMMONMARK_RULES
        } else {
            Rules {
                whole_lengths: self.attention_first_lengths,
                shortcut_before_bracket: self.label_shortcut_before_bracket,
                html_names: self.html_references,
                ..DEFAULT_RULES
            }
        }
    }
}

impl Default for ParseOptions {
    ghost use Rattle.markdown_content.specs.DefaultOptions.{default_options};

    ghost is_default = { λ o. o ≡ default_options };

    /// CommonMark's constructs; one tilde or dollar is enough where those constructs are switched on.
    fn default() -> ParseOptions {
        ParseOptions::of_bits(DEFAULT_BITS)
    }
}

/// The rules in which the crate that is ported departs from CommonMark 0.31.2: where a field is true, the standard's rule holds.
#[derive(Clone, Copy, Debug, PartialEq, Eq)]
pub struct Rules {
    /// The rule of three adds the lengths of whole runs, and not what earlier pairs left of them (CommonMark 6.2).
    pub whole_lengths: bool,
    /// A defined label before a `[` that begins no label is a shortcut reference (CommonMark 6.3).
    pub shortcut_before_bracket: bool,
    /// A marker beside a run is a character of punctuation, and nothing more (CommonMark 6.2).
    pub markers_are_punctuation: bool,
    /// Beside a run, spaces are the characters of category Zs, tab, line feed, form feed and carriage return (CommonMark 2.1).
    pub listed_spaces: bool,
    /// In a title in parentheses an opening parenthesis has to be escaped (CommonMark 6.3).
    pub escaped_parentheses: bool,
    /// The 999 of a label are characters, and not bytes (CommonMark 6.3).
    pub labels_by_characters: bool,
    /// What is defined has a link label: one that is not blank, in which each bracket has a backslash of its own, and of at most 999 characters
    /// (CommonMark 4.7, 6.3).
    pub definitions_have_labels: bool,
    /// Before the `@` of an address stands each mark that HTML allows there (CommonMark 6.5).
    pub all_address_marks: bool,
    /// Two spaces at the end of a line break it, whatever whitespace stands before these two (CommonMark 6.7).
    pub two_last_spaces: bool,
    /// Beside a run, in the URI of an autolink and in an identifier, NUL is read as U+FFFD, which is punctuation and no control (CommonMark 2.3,
    /// 6.3, 6.5).
    pub nul_is_replaced: bool,
    /// A reference may have each name of HTML that ends in a semicolon (CommonMark 2.5).
    pub html_names: bool,
    /// A number stands for its character, and only 0, a surrogate and what is past U+10FFFF for U+FFFD (CommonMark 2.5).
    pub controls_are_kept: bool,
    /// A slash may stand in an unquoted value of an attribute (CommonMark 6.6).
    pub slashes_in_values: bool,
    /// A title keeps the whitespace before a line ending (CommonMark 6.3).
    pub titles_keep_spaces: bool,
    /// Beside a run stands what the content has there; behind its ends there is whitespace (CommonMark 6.2).
    pub neighbours_in_content: bool,
    /// The identifier of a label is that of its text in the content: what the content leaves out at the starts of later lines is no part of it
    /// (CommonMark 6.3).
    pub labels_by_text: bool,
}

// The rules of the crate that is ported.
const DEFAULT_RULES: Rules = Rules {
    whole_lengths: false,
    shortcut_before_bracket: false,
    markers_are_punctuation: false,
    listed_spaces: false,
    escaped_parentheses: false,
    labels_by_characters: false,
    definitions_have_labels: false,
    all_address_marks: false,
    two_last_spaces: false,
    nul_is_replaced: false,
    html_names: false,
    controls_are_kept: false,
    slashes_in_values: false,
    titles_keep_spaces: false,
    neighbours_in_content: false,
    labels_by_text: false,
};

// CommonMark's rules.
const COMMONMARK_RULES: Rules = Rules {
    whole_lengths: true,
    shortcut_before_bracket: true,
    markers_are_punctuation: true,
    listed_spaces: true,
    escaped_parentheses: true,
    labels_by_characters: true,
    definitions_have_labels: true,
    all_address_marks: true,
    two_last_spaces: true,
    nul_is_replaced: true,
    html_names: true,
    controls_are_kept: true,
    slashes_in_values: true,
    titles_keep_spaces: true,
    neighbours_in_content: true,
    labels_by_text: true,
};
