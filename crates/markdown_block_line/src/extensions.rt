//! What is read beside CommonMark's blocks.

/// The blocks that are read beside CommonMark's.
#[derive(Clone, Copy)]
pub struct Extensions {
    /// Code fenced with dollars, which is math.
    pub math: bool,
    /// Front matter: YAML between lines of `---`, or TOML between lines of `+++`, at the start of a document.
    pub front_matter: bool,
}

impl Extensions {
    /// CommonMark alone.
    pub const NONE: Extensions = Extensions {
        math: false,
        front_matter: false,
    };
}
