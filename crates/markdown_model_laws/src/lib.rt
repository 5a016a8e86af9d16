//! Laws on the definitions of the inline layer: facts in the subject's own words that follow from them.
//!
//! Nothing here is run. A function of this crate has no parameters and an empty body: its contract is a law, and
//! the check proves it. The laws of `markdown_model` say that the definitions define something, and what a container, a
//! label and a pass do; these say more of what a reader of events may rely on.
#![tactic(auto)]

ghost use Rattle.markdown_model_laws.specs.EscapedText.{Escapes};
ghost use Rattle.markdown_model_laws.specs.PairGroups.{EachPairIsAGroup, PairsAreEven, PairsTakeTheirMarkers};
ghost use Rattle.markdown_model_laws.specs.MarkersHeld.{EachMarkerIsHeld};
ghost use Rattle.markdown_model_laws.specs.ProbeBounds.{ProbesAreFew};
ghost use Rattle.markdown_model_laws.specs.EmailsInData.{EmailsStandInData, LinksHoldNoEmail};
ghost use Rattle.markdown_model_laws.specs.DataIsTight.{DataIsTight};
ghost use Rattle.markdown_model_laws.specs.TreesFilled.{TreesAreFilled};
ghost use Rattle.markdown_model_laws.specs.RunsInOrderPair.{RunsInOrderMayPair};
ghost use Rattle.markdown_model_laws.specs.EventOrder.{EventsNeverGoBack};
ghost use Rattle.markdown_model_laws.specs.LinkParts.{TitlesAreFound, LabelsAreFound, DestinationsAreFound};
ghost use Rattle.markdown_model_laws.specs.ResourceParts.{ResourcesAreFound, WhatFollowsIsFound};
ghost use Rattle.markdown_model_laws.specs.DecodableValues.{ValuesAreDecodable};
ghost use Rattle.markdown_model_laws.specs.LentTexts.{LeavesAreTexts};
ghost use Rattle.markdown_model_laws.specs.LeafPieces.{LeavesAreContents};
ghost use Rattle.markdown_model_laws.specs.UnbrokenChains.{ChainsAreUnbroken};
ghost use Rattle.markdown_model_laws.specs.BlanksApart.{BlanksAreSetApart};
ghost use Rattle.markdown_model_laws.specs.EmailSchemes.{SchemesAreTaken};
ghost use Rattle.markdown_model_laws.specs.LinesCut.{LinesAreCut};

/// A one-line text with a backslash before each ASCII punctuation character, read as a string with escapes on, is given
/// back by what is lent for its data and for what its escapes stand for.
pub fn escapes()
    ensures { Escapes }
{}

/// The inline tree of a text has as many groups of emphasis, strong emphasis and strikethrough as its containers have
/// pairs, so no marker that a pair takes is left alone.
pub fn each_pair_is_a_group()
    ensures { EachPairIsAGroup }
{}

/// There is a probe for each pair within the bound on probes by runs, and the bound by openers, closers and pairs is at most
/// eleven for each code of the content.
pub fn probes_are_few()
    ensures { ProbesAreFew }
{}

/// Finding emails cuts data and does nothing else.
pub fn emails_stand_in_data()
    ensures { EmailsStandInData }
{}

/// In the inline tree of a text no email literal stands in a link or an autolink, and in that of a string none stands at all.
pub fn links_hold_no_email()
    ensures { LinksHoldNoEmail }
{}

/// No blank code stands in data beside a line ending, nor first or last in a text. By the rule `titles_keep_spaces` data of a string may end in one
/// before a line ending.
pub fn data_is_tight()
    ensures { DataIsTight }
{}

/// In the inline tree of a text, the group of each pair is two sequences of one name and of equally many markers, with a text between them.
pub fn pairs_are_even()
    ensures { PairsAreEven }
{}

/// In the inline tree of a text, the group of each pair has markers of its opener's run in front and of its closer's run at its back, as many of each
/// as the pair takes.
pub fn pairs_take_their_markers()
    ensures { PairsTakeTheirMarkers }
{}

/// Each leaf of an inline tree has a code, and a group around nothing is the text of a label; so a pair stands around something.
pub fn trees_are_filled()
    ensures { TreesAreFilled }
{}

/// Each code of a text that a run of markers covers in the tree of labels is covered in the inline tree by a marker of a pair or by data, or, where
/// email literals are cut from data, by one of these.
pub fn each_marker_is_held()
    ensures { EachMarkerIsHeld }
{}

/// No event of a content, read as text or as a string, stands before an earlier one. So an `Enter` and an `Exit` around nothing, as of an empty label's
/// text, stand behind the codes before them and not behind those after.
pub fn events_never_go_back()
    ensures { EventsNeverGoBack }
{}

/// Events whose runs stand in order over a document meet all that the pass of emphasis, `attention::resolve_counted`, asks for: behind the `Enter` of a run
/// stands its `Exit`, both at places of the document and without a link, between them stand one or more equal markers, and no run begins before the
/// runs in front of it have ended.
pub fn runs_in_order_may_pair()
    ensures { RunsInOrderMayPair }
{}

/// A title is found exactly where codes stand that are a link title: a marker, codes with no closing marker but escaped ones, and a closing marker.
/// By CommonMark's rule there is no opening parenthesis between parentheses but escaped ones, either.
pub fn titles_are_found()
    ensures { TitlesAreFound }
{}

/// A label is found exactly where codes stand that are a link label: brackets around codes with no bracket but escaped ones, some of them no
/// whitespace, and at most 999 that count: codes that are no line endings, or by CommonMark's rule characters, of which line endings are some.
pub fn labels_are_found()
    ensures { LabelsAreFound }
{}

/// A destination is found exactly where codes stand that are a link destination: in angle brackets, or without them and with balanced parentheses.
pub fn destinations_are_found()
    ensures { DestinationsAreFound }
{}

/// A resource is found exactly where codes stand that are one: parentheses around whitespace, a destination, and a title apart from it, each of
/// which may be absent.
pub fn resources_are_found()
    ensures { ResourcesAreFound }
{}

/// What follows a label is found exactly where codes stand that may follow it: a resource, the label of a full reference, the brackets of a collapsed one,
/// or nothing.
pub fn what_follows_is_found()
    ensures { WhatFollowsIsFound }
{}

/// What is lent for the value of a character reference is a text, and `decode` takes it with the marker that the leaf right before it tells: `#` behind a
/// number sign, `x` behind an `x` or `X`, and else `&` (CommonMark 2.5).
pub fn values_are_decodable()
    ensures { ValuesAreDecodable }
{}

/// What is lent for each of the innermost events of a content, read as text and read as a string, is text: it begins and ends between characters.
pub fn leaves_are_texts()
    ensures { LeavesAreTexts }
{}

/// The pieces of the document that leaves of a content are, of those that stand one after another, are a content again, where pieces that meet are one. So a
/// label, a title or a destination may be read as a string of its leaves.
pub fn leaves_are_contents()
    ensures { LeavesAreContents }
{}

/// In the events of a content, read as text and read as a string, the Exit of a linked leaf is the event behind its Enter, and the next leaf of its chain begins
/// with the event behind that. So a chain is events that stand one after another, whose leaves are a content.
pub fn chains_are_unbroken()
    ensures { ChainsAreUnbroken }
{}

/// At the end of a line all blank codes that are last in data are set apart, and at the start of a line all that are first in what is left
/// (CommonMark 6.8). Those at an end are a hard break if the last two are spaces and, unless these two alone decide, the others are spaces too (6.7).
pub fn blanks_are_set_apart()
    ensures { BlanksAreSetApart }
{}

/// `mailto:` or `xmpp:` belongs to the email literal behind it if this word, in either case, is all the letters and digits that stand right before
/// the `:` (GFM 6.9).
pub fn schemes_are_taken()
    ensures { SchemesAreTaken }
{}

/// A text of several lines has a leaf for each line ending, for each line, and for the blank codes at the start of each line but the first. In a
/// line a stretch of codes that all pass a test, or all fail it, goes on as long as it can.
pub fn lines_are_cut()
    ensures { LinesAreCut }
{}
