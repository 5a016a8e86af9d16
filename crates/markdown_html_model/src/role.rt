//! What an event of each name does to the HTML.
#![tactic(auto)]

ghost use Rattle.std.specs.Prelude.{◌≡◌};
ghost use Rattle.markdown_html_model.specs.Roles.{role_of};

use markdown_event::event::{NAMES, Name};
use markdown_event::event_names;

/// Where HTML is written.
#[derive(Clone, Copy, Debug, PartialEq, Eq)]
pub enum Within {
    /// Outside of links, where tags are written.
    Outside,
    /// In the text of a link: tags are written, but no literal makes a link.
    InLink,
    /// In a description of an image, a span, a string or the check of a task: text alone is written, and escaped later as a whole.
    InText,
}

/// What stands for something in the HTML.
#[derive(Clone, Copy, Debug, PartialEq, Eq)]
pub enum Role {
    /// A link.
    Link,
    /// An image.
    Image,
    /// A footnote call.
    Footnote,
    /// The text of a label.
    Label,
    /// The text of a full reference.
    FullReference,
    /// The text of a destination.
    Destination,
    /// The text of a title.
    TitleText,
    /// A title with its quotes.
    Title,
    /// A resource.
    Resource,
    /// Text as it stands.
    Plain,
    /// A line ending.
    LineEnd,
    /// A hard break.
    Break,
    /// A line of raw HTML.
    Raw,
    /// A URI, which is its own text: of an autolink.
    Uri,
    /// The address of an email: of an autolink.
    Email,
    /// A URI that stands by itself.
    UriLiteral,
    /// An address without its scheme that stands by itself.
    WwwLiteral,
    /// The address of an email that stands by itself.
    EmailLiteral,
    /// Emphasis.
    Emphasis,
    /// Strong emphasis.
    Strong,
    /// Strikethrough.
    Strikethrough,
    /// Markers, and what only holds others: nothing by itself.
    Silent,
    /// A code span.
    Code,
    /// A math span.
    Math,
    /// A character reference.
    Reference,
    /// The check of a task, done where it holds text.
    Check,
    /// What follows the label of a full or a collapsed reference.
    Tail,
}

// What an event of a name stands for, by the word of the name.
macro_rules! role_named {
    (Data) => { Role::Plain };
    (CharacterEscapeValue) => { Role::Plain };
    (CodeTextData) => { Role::Plain };
    (MathTextData) => { Role::Plain };
    (GfmTaskListItemValueChecked) => { Role::Plain };
    (LineEnding) => { Role::LineEnd };
    (HardBreakEscape) => { Role::Break };
    (HardBreakTrailing) => { Role::Break };
    (HtmlTextData) => { Role::Raw };
    (AutolinkProtocol) => { Role::Uri };
    (AutolinkEmail) => { Role::Email };
    (GfmAutolinkLiteralProtocol) => { Role::UriLiteral };
    (GfmAutolinkLiteralMailto) => { Role::UriLiteral };
    (GfmAutolinkLiteralXmpp) => { Role::UriLiteral };
    (GfmAutolinkLiteralWww) => { Role::WwwLiteral };
    (GfmAutolinkLiteralEmail) => { Role::EmailLiteral };
    (GfmTaskListItemCheck) => { Role::Check };
    (Emphasis) => { Role::Emphasis };
    (Strong) => { Role::Strong };
    (GfmStrikethrough) => { Role::Strikethrough };
    (CodeText) => { Role::Code };
    (MathText) => { Role::Math };
    (CharacterReference) => { Role::Reference };
    (Link) => { Role::Link };
    (Image) => { Role::Image };
    (GfmFootnoteCall) => { Role::Footnote };
    (LabelText) => { Role::Label };
    (ReferenceString) => { Role::FullReference };
    (ResourceDestinationString) => { Role::Destination };
    (ResourceTitleString) => { Role::TitleText };
    (ResourceTitle) => { Role::Title };
    (Resource) => { Role::Resource };
    (Reference) => { Role::Tail };
    ($other:ident) => { Role::Silent };
}

macro_rules! roles {
    ($($of_all:ident)*) => {
        [$(role_named!($of_all),)*]
    };
}

// What the events stand for, by the numbers of their names.
static ROLES: [Role; NAMES] = event_names!(roles);

/// What an event of this name stands for.
#[inline(always)]
pub fn role_of(name: Name) -> Role
    ensures { result ≡ role_of name }
{
    ROLES[name as usize]
}
