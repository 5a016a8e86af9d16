//! Laws on the leaves of inline trees, and on the innermost events.
ghost use Rattle.markdown_innermost.specs.LeafLaws.{EventsGiveContent, LeavesAreStretches};

/// Each leaf of the inline tree of a content, read as text and read as a string, is codes of the document that follow one another, and a group
/// around nothing stands at one place of it.
pub fn leaves_are_stretches()
    ensures { LeavesAreStretches }
{}

/// The innermost events of a content, read as text and read as a string, begin and end at places of the document, and the codes from where each
/// begins to where it ends, one after another, are the content's. Of those with a code each begins where one before has ended, or after it; one
/// without begins where it ends.
pub fn events_give_content()
    ensures { EventsGiveContent }
{}
