//! Laws on the definitions.
ghost use Rattle.markdown_model.specs.Laws.{OnePairList, OneElementList, OneTree, EventsNest, LeavesCover, OneEnd, LabelsMatch, EndsTakeTheNearest, LinksDoNotNest, CountsSuffice, MergedDataIsApart, NoRunIsLeft, LinksAreNotMailed, PairsAreSound, PairsAreLocal};

/// Each container has exactly one pair list, whatever sizes the rule of three reads.
pub fn one_pair_list()
    ensures { OnePairList }
{}

/// Each content has exactly one list of elements, read as text and read as a string.
pub fn one_element_list()
    ensures { OneElementList }
{}

/// Each content has exactly one inline tree, as text and as a string.
pub fn one_tree()
    ensures { OneTree }
{}

/// The events of a tree are balanced, nested, and agree in name.
pub fn events_nest()
    ensures { EventsNest }
{}

/// The leaves of an inline tree cover each code of the content once, in order.
pub fn leaves_cover()
    ensures { LeavesCover }
{}

/// A label, a title, a destination, a resource and what follows a label have one end and one tree at most, and the
/// tree covers the codes up to the end.
pub fn one_end()
    ensures { OneEnd }
{}

/// The numbers of steps that definitions count down are enough: what is repeated stops only where it no longer holds,
/// and with more steps no more emails are found.
pub fn counts_suffice()
    ensures { CountsSuffice }
{}

/// An end of a label closes the start before it between which and it the starts and ends are balanced, and no other.
pub fn labels_match()
    ensures { LabelsMatch }
{}

/// An end of a label takes the nearest unused start, which is barred if it is no image's and a link or a footnote call
/// ended after it.
pub fn ends_take_the_nearest()
    ensures { EndsTakeTheNearest }
{}

/// A link or a footnote call does not stand inside another.
pub fn links_do_not_nest()
    ensures { LinksDoNotNest }
{}

/// After merging no two data without a link are neighbours.
pub fn merged_data_is_apart()
    ensures { MergedDataIsApart }
{}

/// In the inline tree of a text no run of markers is left: its markers are sequences of pairs, or data.
pub fn no_run_is_left()
    ensures { NoRunIsLeft }
{}

/// Finding emails leaves what stands in a link as it is.
pub fn links_are_not_mailed()
    ensures { LinksAreNotMailed }
{}

/// The pairs of a container take each marker once at most, do not cross, and are at most half as many as the markers.
pub fn pairs_are_sound()
    ensures { PairsAreSound }
{}

/// Containers whose runs agree in marker, size, and in what they may do have the same pair list, also in two documents
/// whose settings agree in the options that pairs depend on.
pub fn pairs_are_local()
    ensures { PairsAreLocal }
{}
