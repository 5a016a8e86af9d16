//! Runs of the program by its call, with readers and writers that read little, take little or fail.
use crate::answers::Answers;
use crate::fakes::{Narrow, Slow};
use crate::row::Row;
use markdown_inline::program::{run, run_without_words};
use std::alloc::{AllocError, Global};
use std::io::{self, ErrorKind, Read};

/// Prints how a run of the program ended that is read so, and what it wrote.
pub(crate) fn print_program(
    alloc: Global,
    reading: &str,
    row: &Row,
    out: &mut Answers,
) -> Result<(), AllocError> {
    match reading {
        "program" => return read(alloc, row, &mut row.document.as_bytes(), out),
        "broken" => return broken(alloc, row, out),
        "slow" => return slow(alloc, row, row.document.as_bytes(), out),
        "narrow" => narrow(alloc, row, out),
        "mute" => mute(alloc, row, out),
        _ => wordless(alloc, row, out),
    }
    Ok(())
}

// Prints bytes as text, with `;` for each line ending.
fn print_text(bytes: &[u8], out: &mut Answers) {
    for c in str::from_utf8(bytes).unwrap_or("not UTF-8").chars() {
        out.sign(if c == '\n' { ';' } else { c });
    }
}

// Prints how a run of the program ended, and what it wrote.
fn tell(status: u8, written: &[u8], told: &[u8], out: &mut Answers) {
    out.count(" status ", usize::from(status));
    out.count(" bytes ", written.len());
    out.count(" errors ", told.len());
    out.say(" ");
    print_text(written, out);
    print_text(told, out);
}

// Runs the program with a reader. There is room for its line from the start.
fn read<R: Read>(
    alloc: Global,
    row: &Row,
    reader: &mut R,
    out: &mut Answers,
) -> Result<(), AllocError> {
    let (mut written, mut told) = (Vec::new(alloc), Vec::new(alloc));
    told.reserve(256)?;
    let status = run(alloc, row.words.as_slice(), reader, &mut written, &mut told);
    tell(status, written.as_slice(), told.as_slice(), out);
    Ok(())
}

// Runs it with a slow reader of these bytes. Prints also how many it has left, and whether it was read.
fn slow(alloc: Global, row: &Row, bytes: &[u8], out: &mut Answers) -> Result<(), AllocError> {
    let mut reader = Slow::new(bytes, row.fault);
    read(alloc, row, &mut reader, out)?;
    out.count(" left ", reader.left.len());
    out.say(if reader.reads > 0 {
        " read"
    } else {
        " not read"
    });
    Ok(())
}

// Runs it with a slow reader of a document, and behind it a byte that is not UTF-8.
fn broken(alloc: Global, row: &Row, out: &mut Answers) -> Result<(), AllocError> {
    let mut bytes = row.document.as_bytes().to_vec(alloc)?;
    bytes.push(0xFF)?;
    slow(alloc, row, bytes.as_slice(), out)
}

// A narrow writer.
fn narrow_writer(alloc: Global, row: &Row) -> Narrow {
    let fails = row.fault.unwrap_or(ErrorKind::Other);
    Narrow::new(alloc, row.asked.most.unwrap_or(0), fails, row.asked.flushes)
}

// Runs it with a narrow writer.
fn narrow(alloc: Global, row: &Row, out: &mut Answers) {
    let mut reader = row.document.as_bytes();
    let mut written = narrow_writer(alloc, row);
    let mut told = Vec::new(alloc);
    let status = run(
        alloc,
        row.words.as_slice(),
        &mut reader,
        &mut written,
        &mut told,
    );
    tell(status, written.passed.as_slice(), told.as_slice(), out);
}

// Runs it with a narrow writer for what goes wrong.
fn mute(alloc: Global, row: &Row, out: &mut Answers) {
    let mut reader = b"a".as_slice();
    let mut written = Vec::new(alloc);
    let mut told = narrow_writer(alloc, row);
    let status = run(
        alloc,
        row.words.as_slice(),
        &mut reader,
        &mut written,
        &mut told,
    );
    tell(status, written.as_slice(), told.passed.as_slice(), out);
}

// Ends it where its words cannot be read.
fn wordless(alloc: Global, row: &Row, out: &mut Answers) {
    let error = io::Error::from(row.fault.unwrap_or(ErrorKind::Other));
    let mut told = Vec::new(alloc);
    let status = run_without_words(&error, &mut told);
    tell(status, b"", told.as_slice(), out);
}
