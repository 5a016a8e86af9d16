//! Sets of bytes, and which bytes text goes on over at once.
ghost use Rattle.std.specs.List.{list_any};
ghost use Rattle.std.specs.Prelude.{◌≡◌, ◌==◌, ◌∷◌, [], ℕ, IsTrue};
ghost use Rattle.markdown_content.specs.PlainBytes.{is_plain, is_plain_table, spares_words};

use std::marker::Model;

/// What a set of bytes is made of. `byte_table!` writes one, as the value of a constant.
pub struct ByteTable {
    /// The bytes.
    pub bytes: &'static [u8],
    /// For each byte, whether it is ordinary: above 13, and not of the set.
    pub plain: [bool; 256],
    /// Whether no letter, no space and no byte beyond ASCII is of the set.
    pub words_are_plain: bool,
}

/// A set of bytes that are known when the program is built, with a table of the others. Takes no memory.
///
/// Contracts see it as the list of its bytes.
#[derive(Drop)]
pub struct ByteSet {
    bytes: &'static [u8],
    // For each byte, whether it is ordinary: above 13, and not of the set.
    plain: &'static [bool; 256],
    // Whether no byte of words is of the set.
    words_are_plain: bool,
}

impl Model for ByteSet {
    ghost use Rattle.std.specs.Prelude.{◌≡◌, List, ℕ, IsTrue};
    ghost use Rattle.markdown_content.specs.PlainBytes.{is_plain_table, spares_words};

    ghost Value = { List ℕ };

    ghost view = { λ s. s.bytes.now };

    ghost invariant = { λ s. IsTrue (is_plain_table s.bytes.now s.plain.now) × (s.words_are_plain ≡ spares_words s.bytes.now) };
}

impl ByteSet {
    /// The bytes of a constant, whose table says for each byte whether it is above 13 and none of them, and which says whether none of them is
    /// a letter, the space or a byte beyond ASCII.
    pub fn new(table: &'static ByteTable) -> ByteSet
        requires table { IsTrue (is_plain_table table.now.bytes.now table.now.plain) }
        requires words { table.now.words_are_plain ≡ spares_words table.now.bytes.now }
        ensures { result ≡ table.entry.now.bytes.now }
    {
        ByteSet {
            bytes: table.bytes,
            plain: &table.plain,
            words_are_plain: table.words_are_plain,
        }
    }

    /// The same bytes once more.
    pub fn again(&self) -> ByteSet
        ensures { result ≡ self.now }
    {
        ByteSet {
            bytes: self.bytes,
            plain: self.plain,
            words_are_plain: self.words_are_plain,
        }
    }

    /// The bytes.
    pub fn as_slice(&self) -> &[u8]
        ensures { result.now ≡ self.now }
    {
        self.bytes
    }

    /// Whether the byte is one of these.
    pub fn contains(&self, byte: u8) -> bool
        ensures { result ≡ list_any (λ n. byte == n) self.now }
    {
        if byte > b'\r' {
            !self.plain[byte as usize]
        } else {
            self.bytes.contains(&byte)
        }
    }

    /// Whether the byte is ordinary: above 13, so neither a tab nor of a line ending, and none of these.
    pub fn is_plain(&self, byte: u8) -> bool
        ensures { result ≡ is_plain self.now byte }
    {
        self.plain[byte as usize]
    }

    // Whether none of these is a letter, the space or a byte beyond ASCII.
    pub(crate) fn spares_words(&self) -> bool
        ensures { result ≡ spares_words self.now }
    {
        self.words_are_plain
    }
}

/// The table of these bytes, all of them ASCII, as in `const QUOTES: ByteTable = byte_table!(b'"', b'\'');`. With `controls` behind them, as in
/// `byte_table!(b' '; controls)`, the ASCII control characters other than NUL are of the set too.
#[macro_export]
macro_rules! byte_table {
    (@plain $byte:literal, ($above:literal $(, $of_set:literal)*)) => { ($byte > $above) $(& ($byte != $of_set))* };
    (@beyond $byte:literal) => { true };
    (@is_word $byte:literal) => {
        (($byte == 32) | (($byte >= 65) & ($byte <= 90)) | (($byte >= 97) & ($byte <= 122)) | ($byte >= 128))
    };
    (@table $stops:tt, $($byte:literal)*) => {
        [$($crate::byte_table!(@plain $byte, $stops),)* $($crate::byte_table!(@beyond $byte)),*]
    };
    (@new $bytes:expr, $stops:tt, $words_are_plain:expr) => {
        $crate::bytes::ByteTable {
            bytes: $bytes,
            plain: $crate::byte_table!(@table $stops,
            0 1 2 3 4 5 6 7 8 9 10 11 12 13 14 15 16 17 18 19 20 21 22 23 24 25 26 27 28 29 30 31 32
            33 34 35 36 37 38 39 40 41 42 43 44 45 46 47 48 49 50 51 52 53 54 55 56 57 58 59 60 61
            62 63 64 65 66 67 68 69 70 71 72 73 74 75 76 77 78 79 80 81 82 83 84 85 86 87 88 89 90
            91 92 93 94 95 96 97 98 99 100 101 102 103 104 105 106 107 108 109 110 111 112 113 114
            115 116 117 118 119 120 121 122 123 124 125 126 127),
            words_are_plain: $words_are_plain,
        }
    };
    ($($of_set:literal),*; controls) => {
        $crate::byte_table!(@new
            &[$($of_set,)* 127, 1, 2, 3, 4, 5, 6, 7, 8, 9, 10, 11, 12, 13, 14, 15, 16, 17, 18, 19, 20, 21, 22, 23, 24, 25, 26,
                27, 28, 29, 30, 31],
            (31, 127 $(, $of_set)*),
            true $(& !$crate::byte_table!(@is_word $of_set))*)
    };
    ($($of_set:literal),*) => {
        $crate::byte_table!(@new &[$($of_set),*], (13 $(, $of_set)*), true $(& !$crate::byte_table!(@is_word $of_set))*)
    };
}

/// No bytes.
pub const NO_BYTES: ByteTable = byte_table!();
