//! Events: what a run answers, in order, with the places at which they stand.

/// What an event is about.
///
/// An event without others inside it covers the bytes that its doc names; the others hold what their doc lists.
#[derive(Clone, Copy, Debug, PartialEq, Eq)]
pub enum Name {
    /// A run of `*`, `_` or `~` that attention has not yet looked at. No event of a finished run has this name.
    AttentionSequence,
    /// `<https://example.com>` or `<a@b.c>` whole.
    Autolink,
    /// The address between the angle brackets of an autolink.
    AutolinkEmail,
    /// `<` or `>` of an autolink.
    AutolinkMarker,
    /// The URI between the angle brackets of an autolink.
    AutolinkProtocol,
    /// A backslash and the ASCII punctuation that it escapes.
    CharacterEscape,
    /// The backslash of a character escape.
    CharacterEscapeMarker,
    /// The escaped character.
    CharacterEscapeValue,
    /// `&amp;`, `&#123;` or `&#x1F;` whole.
    CharacterReference,
    /// `&`.
    CharacterReferenceMarker,
    /// `x` or `X` of a hexadecimal reference.
    CharacterReferenceMarkerHexadecimal,
    /// `#` of a numeric reference.
    CharacterReferenceMarkerNumeric,
    /// `;`.
    CharacterReferenceMarkerSemi,
    /// The name or the digits of a reference.
    CharacterReferenceValue,
    /// A code span whole.
    CodeText,
    /// A stretch of one line within a code span.
    CodeTextData,
    /// The grave accents that open or close a code span.
    CodeTextSequence,
    /// Text that no construct takes.
    Data,
    /// Emphasis whole.
    Emphasis,
    /// One marker that opens or closes emphasis.
    EmphasisSequence,
    /// What stands between the markers of an emphasis.
    EmphasisText,
    /// An email address that stands by itself.
    GfmAutolinkLiteralEmail,
    /// An email address with `mailto:` before it.
    GfmAutolinkLiteralMailto,
    /// A scheme, as `https://`, with what belongs to it.
    GfmAutolinkLiteralProtocol,
    /// `www.` with what belongs to it.
    GfmAutolinkLiteralWww,
    /// An address with `xmpp:` before it.
    GfmAutolinkLiteralXmpp,
    /// A footnote call whole.
    GfmFootnoteCall,
    /// `[^` of a footnote call.
    GfmFootnoteCallLabel,
    /// `^` of a footnote call.
    GfmFootnoteCallMarker,
    /// Strikethrough whole.
    GfmStrikethrough,
    /// The tildes that open or close strikethrough.
    GfmStrikethroughSequence,
    /// What stands between the tildes.
    GfmStrikethroughText,
    /// `[ ]` or `[x]` at the start of a list item.
    GfmTaskListItemCheck,
    /// `[` or `]` of a check.
    GfmTaskListItemMarker,
    /// `x` or `X` of a check.
    GfmTaskListItemValueChecked,
    /// The blank of a check.
    GfmTaskListItemValueUnchecked,
    /// The backslash of a hard break.
    HardBreakEscape,
    /// The spaces of a hard break.
    HardBreakTrailing,
    /// Inline HTML whole.
    HtmlText,
    /// A stretch of one line within inline HTML.
    HtmlTextData,
    /// An image whole.
    Image,
    /// The brackets of a link, an image or a footnote call, with the text between them.
    Label,
    /// `]` of a label.
    LabelEnd,
    /// `![`.
    LabelImage,
    /// `!` of an image.
    LabelImageMarker,
    /// `[` of a link.
    LabelLink,
    /// `[` or `]` of a label.
    LabelMarker,
    /// What stands between the brackets.
    LabelText,
    /// A line ending: CR LF, LF or CR.
    LineEnding,
    /// A link whole.
    Link,
    /// A math span whole.
    MathText,
    /// A stretch of one line within a math span.
    MathTextData,
    /// The dollars that open or close a math span.
    MathTextSequence,
    /// `[..]` or `[]` after a label.
    Reference,
    /// `[` or `]` of a reference.
    ReferenceMarker,
    /// What stands between the brackets of a full reference.
    ReferenceString,
    /// `(..)` after a label.
    Resource,
    /// A destination, with its angle brackets if it has them.
    ResourceDestination,
    /// A destination in angle brackets.
    ResourceDestinationLiteral,
    /// `<` or `>` of a destination.
    ResourceDestinationLiteralMarker,
    /// A destination without angle brackets.
    ResourceDestinationRaw,
    /// The text of a destination.
    ResourceDestinationString,
    /// `(` or `)` of a resource.
    ResourceMarker,
    /// A title with its quotes.
    ResourceTitle,
    /// A quote or parenthesis of a title.
    ResourceTitleMarker,
    /// The text of a title.
    ResourceTitleString,
    /// Spaces, tabs and virtual spaces.
    SpaceOrTab,
    /// Strong emphasis whole.
    Strong,
    /// The two markers that open or close strong emphasis.
    StrongSequence,
    /// What stands between the markers of a strong emphasis.
    StrongText,
}

/// How many names there are.
pub const NAMES: usize = 70;

/// The names of all events in the order of their numbers, handed to the macro that is named, behind the words that come after its name.
#[macro_export]
macro_rules! event_names {
    ($of_names:ident $($more:tt)*) => {
        $of_names! {
            $($more)*
            AttentionSequence
            Autolink
            AutolinkEmail
            AutolinkMarker
            AutolinkProtocol
            CharacterEscape
            CharacterEscapeMarker
            CharacterEscapeValue
            CharacterReference
            CharacterReferenceMarker
            CharacterReferenceMarkerHexadecimal
            CharacterReferenceMarkerNumeric
            CharacterReferenceMarkerSemi
            CharacterReferenceValue
            CodeText
            CodeTextData
            CodeTextSequence
            Data
            Emphasis
            EmphasisSequence
            EmphasisText
            GfmAutolinkLiteralEmail
            GfmAutolinkLiteralMailto
            GfmAutolinkLiteralProtocol
            GfmAutolinkLiteralWww
            GfmAutolinkLiteralXmpp
            GfmFootnoteCall
            GfmFootnoteCallLabel
            GfmFootnoteCallMarker
            GfmStrikethrough
            GfmStrikethroughSequence
            GfmStrikethroughText
            GfmTaskListItemCheck
            GfmTaskListItemMarker
            GfmTaskListItemValueChecked
            GfmTaskListItemValueUnchecked
            HardBreakEscape
            HardBreakTrailing
            HtmlText
            HtmlTextData
            Image
            Label
            LabelEnd
            LabelImage
            LabelImageMarker
            LabelLink
            LabelMarker
            LabelText
            LineEnding
            Link
            MathText
            MathTextData
            MathTextSequence
            Reference
            ReferenceMarker
            ReferenceString
            Resource
            ResourceDestination
            ResourceDestinationLiteral
            ResourceDestinationLiteralMarker
            ResourceDestinationRaw
            ResourceDestinationString
            ResourceMarker
            ResourceTitle
            ResourceTitleMarker
            ResourceTitleString
            SpaceOrTab
            Strong
            StrongSequence
            StrongText
        }
    };
}

/// Whether an event begins or ends what it names.
#[derive(Clone, Copy, Debug, PartialEq, Eq)]
pub enum Kind {
    /// It begins.
    Enter,
    /// It ends.
    Exit,
}

/// How linked content is to be read.
#[derive(Clone, Copy, Debug, PartialEq, Eq)]
pub enum Content {
    /// As a string: escapes and references count, nothing else.
    String,
    /// As text: every inline construct counts.
    Text,
}

/// A place between two codes of a document.
#[derive(Clone, Copy, Debug, PartialEq, Eq)]
pub struct Point {
    /// The line, from 1.
    pub line: usize,
    /// The column, from 1: one more than the codes before the place on its line.
    pub column: usize,
    /// The byte, from 0.
    pub index: usize,
    /// How many codes of the tab at `index` stand before the place.
    pub vs: usize,
}

/// The chain on which an Enter event stands. The numbers are those of Enter events in the list.
#[derive(Clone, Copy, Debug, PartialEq, Eq)]
pub struct Link {
    /// The event before on the chain.
    pub previous: Option<usize>,
    /// The event after on the chain.
    pub next: Option<usize>,
    /// How the linked content is to be read.
    pub content: Content,
}

/// The beginning or the end of something in a document.
#[derive(Clone, Copy, Debug, PartialEq, Eq)]
pub struct Event {
    /// Where: the place of the first code at an Enter, the place after the last one at an Exit.
    pub point: Point,
    /// Whether it begins or ends.
    pub kind: Kind,
    /// What begins or ends.
    pub name: Name,
    /// The chain it stands on. Only an Enter carries one.
    pub link: Option<Link>,
}
