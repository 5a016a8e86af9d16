//! What is printed of each file.

use markdown_block_line::extensions::Extensions;
use markdown_content::configuration::{COMMONMARK, ParseOptions};
use markdown_html_model::options::{HtmlOptions, LineEnds};

// How many bytes references may repeat in a file that has no more.
const LEAST_LIMIT: usize = 100_000;

/// What is printed of a file.
#[derive(Clone, Copy)]
pub(crate) enum Output {
    /// Its HTML.
    Html,
    /// A line for each of its links.
    Links,
}

/// What is printed of each file, and how the file is read.
#[derive(Clone, Copy)]
pub(crate) struct Task {
    /// What is printed.
    pub(crate) output: Output,
    /// Whether links are printed as JSON.
    pub(crate) is_json: bool,
    /// Which blocks are read beside CommonMark's.
    pub(crate) extensions: Extensions,
    /// Which constructs a text may have.
    pub(crate) reading: ParseOptions,
    /// How HTML is written.
    pub(crate) html: HtmlOptions,
    // Whether references may repeat only so many bytes.
    is_limited: bool,
}

impl Task {
    /// CommonMark's HTML, safe and limited.
    pub(crate) fn new() -> Task {
        Task {
            output: Output::Html,
            is_json: false,
            extensions: Extensions::NONE,
            reading: ParseOptions {
                constructs: COMMONMARK,
                commonmark: true,
                ..ParseOptions::default()
            },
            html: HtmlOptions::safe(),
            is_limited: true,
        }
    }

    // Asks for math in texts, and for blocks of it.
    fn set_math(&mut self) {
        self.reading.constructs.math_text = true;
        self.extensions.math = true;
    }

    /// Sets an option, and returns whether it is known.
    pub(crate) fn set(&mut self, option: &str) -> bool {
        match option {
            "--to=html" => self.output = Output::Html,
            "--to=links" => self.output = Output::Links,
            "--json" => self.is_json = true,
            "--strikethrough" => self.reading.constructs.gfm_strikethrough = true,
            "--bare-urls" => self.reading.constructs.gfm_autolink_literal = true,
            "--tasks" => self.reading.constructs.gfm_task_list_item = true,
            "--math" => self.set_math(),
            "--front-matter" => self.extensions.front_matter = true,
            "--raw" => self.html.raw_html = true,
            "--any-link" => self.html.any_link = true,
            "--lf" => self.html.line_ends = LineEnds::Lf,
            "--crlf" => self.html.line_ends = LineEnds::CrLf,
            "--no-limit" => self.is_limited = false,
            _ => return false,
        }
        true
    }

    /// How many bytes of destinations and titles references may repeat in a file. Without a limit it is the largest number, which no file reaches.
    pub(crate) fn limit(&self, bytes: &[u8]) -> usize {
        if self.is_limited {
            bytes.len().max(LEAST_LIMIT)
        } else {
            usize::MAX
        }
    }
}
