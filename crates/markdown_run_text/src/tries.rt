//! What the states and readers of a text try at which bytes.

// Hands what is tried at which bytes, apart from literals, to the macro that is named, behind the words that come after its name. First the
// lines of what alone is tried at its bytes, and reads one tree: the state that starts it. Then those of other bytes: the start of what is tried
// first, and the state to go on with where that does not hold.
macro_rules! plain_tries {
    ($of_rows:ident $($more:tt)*) => {
        $of_rows! {
            $($more)*
            sole {
                [b'$' b'`'] RawTextStart;
                [b'&'] CharacterReferenceStart;
            }
            other {
                [b'!'] LabelStartImageStart, TextBeforeData;
                [b'*' b'_' b'~'] AttentionStart, TextBeforeData;
                [b'<'] AutolinkStart, TextBeforeHtml;
                [b'['] GfmLabelStartFootnoteStart, TextBeforeLabelStartLink;
                [b'\\'] CharacterEscapeStart, TextBeforeHardBreakEscape;
                [b']'] LabelEndStart, TextBeforeData;
            }
        }
    };
}

pub(crate) use plain_tries;
