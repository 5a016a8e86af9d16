//! The program: it reads a content, and prints the events of its inline tree.
ghost use Rattle.std.specs.Prelude.{◌≡◌, ◌↔◌, ◌≤◌, ◌⊎◌, ◌∷◌, [], false, true, length, IfOk, IfErr, IfSome, OnOk, IsErrOf, IsUtf8, map, string_bytes, Some, codes};
ghost use Rattle.std.specs.IoError.{error_kind};
ghost use Rattle.markdown_content.specs.Content.{IsContent, document_limit};
ghost use Rattle.markdown_program.specs.declared.program.Fault.TheVariants.{OutOfMemory, Read, Write, Usage, NotText, BlankLine};
ghost use Rattle.markdown_program.specs.ProgramStatuses.{status_of, fault_of};
ghost use Rattle.markdown_program.specs.ProgramWords.{are_known, reads_text, MayRead, IsTextDocument, whole_piece, without_line_ending, options_of, defined_by};
ghost use Rattle.markdown_program.specs.ProgramOutput.{found_events, printed};
ghost use Rattle.markdown_program.specs.PrintedLines.{lines_of};
ghost use Rattle.std.specs.Io.KnownBytes.{Appends};

use crate::lines::lines_of_list;
use crate::words::{are_known, defined_by, drop_line_ending, has, options_of, reads_text};
use markdown_content::configuration::ParseOptions;
use markdown_content::content::DOCUMENT_LIMIT;
use markdown_content::parser::{ParseState, Piece};
use markdown_run::run::{self, ListRun};
use std::alloc::{AllocError, Global};
use std::io::{self, ErrorKind, Read, Write};

/// Why a run of the program ends without its output, or without all of it.
#[derive(Clone, Copy)]
enum Fault {
    /// The first word is missing, or a word is not known.
    Usage,
    /// The input is not UTF-8.
    NotText,
    /// A line of a text is blank.
    BlankLine,
    /// Memory was refused.
    OutOfMemory,
    /// The input cannot be read, or is too long.
    Read,
    /// The output cannot be written.
    Write,
}

impl Fault {
    // The status that the program ends with.
    fn status(self) -> u8
        ensures status { result ≡ status_of self }
        ensures listed { (2 ≤ result) × (result ≤ 6) }
    {
        match self {
            Fault::Usage => 2,
            Fault::NotText => 3,
            Fault::BlankLine => 4,
            Fault::OutOfMemory => 5,
            Fault::Read | Fault::Write => 6,
        }
    }

    // What is printed about it.
    fn message(self) -> &'static str {
        match self {
            Fault::Usage => {
                "usage: mdinline text|string [gfm] [math] [task] [label=TEXT].. [note=TEXT].."
            }
            Fault::NotText => "input is not UTF-8",
            Fault::BlankLine => "blank line in text",
            Fault::OutOfMemory => "out of memory",
            Fault::Read => "read failed",
            Fault::Write => "write failed",
        }
    }
}

impl From<AllocError> for Fault {
    ghost from_gives = { λ _ e. e ≡ OutOfMemory };

    fn from(_error: AllocError) -> Fault {
        Fault::OutOfMemory
    }
}

// The fault that an error of a reader or a writer is: refused memory is that wherever it comes.
fn fault_of(error: &io::Error, otherwise: Fault) -> Fault
    ensures { result ≡ fault_of (error_kind error.now) otherwise }
{
    match error.kind() {
        ErrorKind::OutOfMemory => Fault::OutOfMemory,
        _ => otherwise,
    }
}

// Reads all that there is.
fn read_all<R: Read>(alloc: Global, reader: &mut R) -> Result<Vec<u8>, Fault>
    ensures bytes { IfOk result (λ bytes. IfSome (R.remaining reader.old) (λ xs. bytes.items ≡ xs)) }
    ensures faults { IfErr result (λ fault. (fault ≡ OutOfMemory) ⊎ (fault ≡ Read)) }
{
    let mut bytes = Vec::new(alloc);
    match reader.read_to_end(&mut bytes) {
        Ok(_) => Ok(bytes),
        Err(error) => Err(fault_of(&error, Fault::Read)),
    }
}

// Reads a document, and drops one final line ending.
fn read_document<R: Read>(alloc: Global, reader: &mut R) -> Result<Vec<u8>, Fault>
    ensures fits { IfOk result (λ bytes. length bytes.items ≤ document_limit) }
    ensures bytes { IfOk result (λ bytes. IfSome (R.remaining reader.old) (λ xs. bytes.items ≡ without_line_ending xs)) }
    ensures faults { IfErr result (λ fault. (fault ≡ OutOfMemory) ⊎ (fault ≡ Read)) }
{
    let mut bytes = read_all(alloc, reader)?;
    drop_line_ending(&mut bytes);
    if bytes.len() > DOCUMENT_LIMIT {
        return Err(Fault::Read);
    }
    Ok(bytes)
}

// The piece of a whole document, which is a content.
fn whole_document(bytes: &[u8]) -> Piece
    requires text { IsUtf8 bytes.now }
    requires fits { length bytes.now ≤ document_limit }
    ensures whole { result ≡ whole_piece bytes.now }
    ensures content { IsContent bytes.now (result ∷ []) }
{
    Piece {
        start: (0, 0),
        end: (bytes.len(), 0),
    }
}

// What is found in the document of this parse state, which is UTF-8. The parse state is what the words ask for.
fn found_by(alloc: Global, words: &[String], parse_state: &ParseState) -> Result<ListRun, Fault>
    requires text { IsUtf8 parse_state.now.bytes.now }
    requires fits { length parse_state.now.bytes.now ≤ document_limit }
    requires options { parse_state.now.options.now ≡ options_of words.now }
    requires labels { map string_bytes parse_state.now.definitions.items ≡ defined_by (codes "label=") words.now }
    requires notes { map string_bytes parse_state.now.gfm_footnote_definitions.items ≡ defined_by (codes "note=") words.now }
    ensures events { IfOk result (λ run. run.events ≡ found_events words.now parse_state.now.bytes.now) }
    ensures text { IfOk result (λ _. reads_text words.now ≡ true → IsTextDocument parse_state.now.bytes.now) }
    ensures faults { IfErr result (λ fault. (fault ≡ OutOfMemory) ⊎ (fault ≡ BlankLine)) }
    ensures blank_line { IfErr result (λ fault.
        fault ≡ BlankLine → (reads_text words.now ≡ true) × (IsTextDocument parse_state.now.bytes.now → ⊥)) }
{
    let pieces = [whole_document(parse_state.bytes)];
    if !reads_text(words) {
        return Ok(run::string_list(alloc, parse_state, &pieces)?);
    }
    if !run::is_text(parse_state.bytes, &pieces) {
        return Err(Fault::BlankLine);
    }
    Ok(run::text_list(alloc, parse_state, &pieces, has(words, "task"))?)
}

// What is found in this document, which is UTF-8.
fn found_in(alloc: Global, words: &[String], bytes: &[u8]) -> Result<ListRun, Fault>
    requires text { IsUtf8 bytes.now }
    requires fits { length bytes.now ≤ document_limit }
    ensures events { IfOk result (λ run. run.events ≡ found_events words.now bytes.now) }
    ensures text { IfOk result (λ _. reads_text words.now ≡ true → IsTextDocument bytes.now) }
    ensures faults { IfErr result (λ fault. (fault ≡ OutOfMemory) ⊎ (fault ≡ BlankLine)) }
    ensures blank_line { IfErr result (λ fault. fault ≡ BlankLine → (reads_text words.now ≡ true) × (IsTextDocument bytes.now → ⊥)) }
{
    let options = options_of(words);
    let parse_state = ParseState {
        bytes,
        options: &options,
        definitions: defined_by(alloc, "label=", words)?,
        gfm_footnote_definitions: defined_by(alloc, "note=", words)?,
    };
    found_by(alloc, words, &parse_state)
}

// Makes the whole output for a document of these bytes.
fn output_of(alloc: Global, words: &[String], bytes: &[u8]) -> Result<Vec<u8>, Fault>
    requires fits { length bytes.now ≤ document_limit }
    ensures lines { IfOk result (λ text. text.items ≡ lines_of (found_events words.now bytes.now)) }
    ensures reads { IfOk result (λ _. MayRead words.now bytes.now) }
    ensures usage { IfErr result (λ fault. fault ≡ Usage → ⊥) }
    ensures not_text { IfErr result (λ fault. fault ≡ NotText → IsUtf8 bytes.now → ⊥) }
    ensures blank_line { IfErr result (λ fault. fault ≡ BlankLine → (reads_text words.now ≡ true) × (IsTextDocument bytes.now → ⊥)) }
{
    if str::from_utf8(bytes).is_err() {
        return Err(Fault::NotText);
    }
    let found = found_in(alloc, words, bytes)?;
    Ok(lines_of_list(alloc, &found.events.as_slice())?)
}

// Reads, runs, and makes the whole output.
fn make_output<R: Read>(alloc: Global, words: &[String], reader: &mut R) -> Result<Vec<u8>, Fault>
    ensures usage { IsErrOf result Usage ↔ are_known words.now ≡ false }
    ensures lines { IfOk result (λ text. IfSome (R.remaining reader.old) (λ xs. text.items ≡ printed words.now xs)) }
    ensures reads { IfOk result (λ _. IfSome (R.remaining reader.old) (λ xs. MayRead words.now (without_line_ending xs))) }
    ensures not_text { IfErr result (λ fault. fault ≡ NotText → IfSome (R.remaining reader.old) (λ xs. IsUtf8 (without_line_ending xs) → ⊥)) }
    ensures blank_line { IfErr result (λ fault. fault ≡ BlankLine
        → (reads_text words.now ≡ true) × IfSome (R.remaining reader.old) (λ xs. IsTextDocument (without_line_ending xs) → ⊥)) }
{
    if !are_known(words) {
        return Err(Fault::Usage);
    }
    let bytes = read_document(alloc, reader)?;
    output_of(alloc, words, bytes.as_slice())
}

// Writes all of a text, and hands it on.
fn write_text<W: Write>(out: &mut W, text: &[u8]) -> Result<(), Fault>
    ensures written { OnOk result (Appends (W.contents out.old) (W.contents out.new) text.now) }
    ensures faults { IfErr result (λ fault. (fault ≡ OutOfMemory) ⊎ (fault ≡ Write)) }
{
    let mut written = out.write_all(text);
    if written.is_ok() {
        written = out.flush();
    }
    match &written {
        Ok(()) => Ok(()),
        Err(error) => Err(fault_of(error, Fault::Write)),
    }
}

// Makes the output, and writes it.
fn print_output<R: Read, W: Write>(
    alloc: Global,
    words: &[String],
    reader: &mut R,
    out: &mut W,
) -> Result<(), Fault>
    ensures usage { IsErrOf result Usage ↔ are_known words.now ≡ false }
    ensures lines { OnOk result (IfSome (R.remaining reader.old) (λ xs. Appends (W.contents out.old) (W.contents out.new) (printed words.now xs))) }
    ensures reads { IfOk result (λ _. IfSome (R.remaining reader.old) (λ xs. MayRead words.now (without_line_ending xs))) }
    ensures not_text { IfErr result (λ fault. fault ≡ NotText → IfSome (R.remaining reader.old) (λ xs. IsUtf8 (without_line_ending xs) → ⊥)) }
    ensures blank_line { IfErr result (λ fault. fault ≡ BlankLine
        → (reads_text words.now ≡ true) × IfSome (R.remaining reader.old) (λ xs. IsTextDocument (without_line_ending xs) → ⊥)) }
    ensures quiet { IfErr result (λ fault. (fault ≡ Usage) ⊎ ((fault ≡ NotText) ⊎ (fault ≡ BlankLine)) → out.new ≡ out.old) }
{
    let text = make_output(alloc, words, reader)?;
    write_text(out, text.as_slice())
}

/// Runs the program: reads a document, and prints the events of its inline tree, a line an event. Answers the status that it ends with.
///
/// The words are a mode, `text` or `string`, and any of `gfm`, `math`, `task`, `cm-lengths`, `cm-shortcut`, `html-references`, `commonmark`,
/// `label=TEXT` and `note=TEXT`. One final line ending of the document is dropped. The status is 0, or 2 for words that are not known, 3 for a
/// document that is not UTF-8, 4 for a text with a blank line, 5 where memory is refused, 6 where reading or writing fails or the document is
/// longer than an eighth of `usize::MAX`; a line on `err` says which. The whole output is made before any of it is written.
pub fn run<R: Read, W: Write, E: Write>(
    alloc: Global,
    words: &[String],
    reader: &mut R,
    out: &mut W,
    err: &mut E,
) -> u8
    ensures usage { result ≡ 2 ↔ are_known words.now ≡ false }
    ensures lines { result ≡ 0 → IfSome (R.remaining reader.old) (λ bytes. Appends (W.contents out.old) (W.contents out.new) (printed words.now bytes)) }
    ensures reads { result ≡ 0 → IfSome (R.remaining reader.old) (λ bytes. MayRead words.now (without_line_ending bytes)) }
    ensures not_text { result ≡ 3 → IfSome (R.remaining reader.old) (λ bytes. IsUtf8 (without_line_ending bytes) → ⊥) }
    ensures blank_line { result ≡ 4
        → (reads_text words.now ≡ true) × IfSome (R.remaining reader.old) (λ bytes. IsTextDocument (without_line_ending bytes) → ⊥) }
    ensures quiet { (result ≡ 2) ⊎ ((result ≡ 3) ⊎ (result ≡ 4)) → out.new ≡ out.old }
    ensures silent { result ≡ 0 → err.new ≡ err.old }
    ensures listed { (result ≡ 0) ⊎ ((2 ≤ result) × (result ≤ 6)) }
{
    match print_output(alloc, words, reader, out) {
        Ok(()) => 0,
        Err(fault) => end_with(fault, err),
    }
}

/// Ends the program where its words cannot be read, by the error that came. Answers the status: 5 where memory was refused, or else 2; a line
/// on `err` says which.
pub fn run_without_words<E: Write>(error: &io::Error, err: &mut E) -> u8
    ensures { result ≡ status_of (fault_of (error_kind error.now) Usage) }
{
    end_with(fault_of(error, Fault::Usage), err)
}

// Tells what went wrong, and answers the status that the program ends with.
fn end_with<E: Write>(fault: Fault, err: &mut E) -> u8
    ensures status { result ≡ status_of fault }
    ensures listed { (2 ≤ result) × (result ≤ 6) }
{
    let _ = writeln!(err, "mdinline: {}", fault.message());
    fault.status()
}
