//! The words that autolink literals begin with (GFM 6.9). A scheme that is added stands here twice: as a word, and by its first letters.

/// The schemes, in lower case.
pub const SCHEMES: [&[u8]; 2] = [b"https://", b"http://"];

/// Hands the first letters of literals, in both cases, to the macro that is named, behind the words that come after its name: those of schemes
/// and those of `www.`. Behind each `then` stand the letters with which a literal goes on behind them.
#[macro_export]
macro_rules! literal_letters {
    ($of_letters:ident $($more:tt)*) => {
        $of_letters! {
            $($more)*
            schemes { [b'H' b'h'] then [b'T' b't']; }
            www { [b'W' b'w'] then [b'W' b'w']; }
        }
    };
}
