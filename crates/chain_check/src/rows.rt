//! The rows of the answer over a chain, as CSV.

ghost use Rattle.std.specs.Prelude.{◌≡◌, ◌++◌, [], List, ℕ, IfOk, OnOk, map};
ghost use Rattle.desk_types.specs.Id.{Name};
ghost use Rattle.trace_reports.specs.Csv.{csv_text, record_text, HasWritten};
ghost use Rattle.trace_reports.specs.Traces.{yes_or_no};
ghost use Rattle.chain_check.specs.Texts.{minute_text};
ghost use Rattle.chain_check.specs.Rows.{file_row, header_of, name_of, name_row, names_header, names_of, piece_row, rows_in, rows_text};

use crate::question::{Question, Subject};
use csv::WriterBuilder;
use desk_types::{Id, IdList, Listing, Minute, Placement, Text};
use itoa::Buffer;
use std::alloc::{AllocError, Global};
use std::collections::BTreeSet;
use trace_reports::{TextWriter, write_fields};

/// The facts of a file of a chain.
#[derive(Clone, Copy)]
pub struct ChainFile {
    /// The number of commands with which its desk was begun.
    pub begun: u64,
    /// The number of its commands.
    pub commands: u64,
    /// Its last minute.
    pub minute: Option<Minute>,
}

/// Begins an answer with its header.
pub fn begin_rows(alloc: Global, question: &Question) -> Result<TextWriter, AllocError>
    ensures { IfOk result
        (λ writer. HasWritten writer (csv_text (header_of question.now) [])) }
{
    let mut writer = WriterBuilder::new().from_writer(Vec::new(alloc));
    write_header(&mut writer, question)?;
    Ok(writer)
}

fn write_header(writer: &mut TextWriter, question: &Question) -> Result<(), AllocError>
    ensures { (text : List ℕ) → HasWritten writer.old text
        → OnOk result (HasWritten writer.new (text ++ record_text (header_of question.now))) }
{
    match question {
        Question::Chain => write_fields(writer, &[b"file", b"begun", b"commands", b"minute"]),
        Question::Names(subject) => write_names_header(writer, subject),
        Question::Pieces(_) => write_fields(
            writer,
            &[
                b"board",
                b"designator",
                b"part",
                b"lot",
                b"reel",
                b"machine",
                b"slot",
                b"overdue",
                b"minute",
                b"file",
            ],
        ),
    }
}

fn write_names_header(writer: &mut TextWriter, subject: &Subject) -> Result<(), AllocError>
    ensures { (text : List ℕ) → HasWritten writer.old text
        → OnOk result (HasWritten writer.new (text ++ record_text (names_header subject.now))) }
{
    match subject {
        Subject::Board(_) => write_fields(writer, &[b"lot", b"file"]),
        Subject::Lot { .. } => write_fields(writer, &[b"board", b"file"]),
        Subject::Reels(_) => write_fields(writer, &[b"board", b"file"]),
    }
}

/// Adds the rows of a file, from its path, its facts and its pieces. After an `Err` the answer is over.
pub fn write_rows(
    alloc: Global,
    writer: &mut TextWriter,
    question: &Question,
    path: &str,
    file: &ChainFile,
    pieces: &[Placement],
) -> Result<(), AllocError>
    ensures { (text : List ℕ) → HasWritten writer.old text
        → OnOk result (HasWritten writer.new
        (text ++ rows_text (rows_in question.now path.now file.now pieces.now))) }
{
    match question {
        Question::Chain => write_file(writer, path, file),
        Question::Names(subject) => {
            let names = names_among(alloc, subject, pieces)?;
            write_names(writer, path, names.as_slice())
        }
        Question::Pieces(_) => write_pieces(writer, path, pieces),
    }
}

/// Ends the answer, and returns its text.
pub fn end_rows(writer: TextWriter) -> Result<Text, AllocError>
    ensures { (text : List ℕ) → HasWritten writer text → IfOk result (λ all. all ≡ text) }
{
    match writer.into_inner() {
        Ok(text) => Ok(Listing::new(text)),
        Err(_) => Err(AllocError),
    }
}

fn write_file(writer: &mut TextWriter, path: &str, file: &ChainFile) -> Result<(), AllocError>
    ensures { (text : List ℕ) → HasWritten writer.old text
        → OnOk result (HasWritten writer.new
        (text ++ record_text (file_row path.now file.now))) }
{
    write_fields(
        writer,
        &[
            path.as_bytes(),
            Buffer::new().format(file.begun).as_bytes(),
            Buffer::new().format(file.commands).as_bytes(),
            minute_text(file.minute, &mut Buffer::new()).as_bytes(),
        ],
    )
}

fn minute_text<'a>(minute: Option<Minute>, digits: &'a mut Buffer) -> &'a str
    ensures { result.now ≡ minute_text minute }
{
    match minute {
        Some(minute) => digits.format(minute.get()),
        None => "none",
    }
}

/// Returns the lots of a board's pieces, or the boards of other pieces, each once and in byte order.
fn names_among(alloc: Global, subject: &Subject, pieces: &[Placement]) -> Result<IdList, AllocError>
    ensures { IfOk result (λ names. names ≡ names_of subject.now pieces.now) }
{
    let mut names = BTreeSet::new(alloc);
    for piece in pieces.iter().rev() {
        names.insert(name_of(subject, piece))?;
    }
    let list = names.into_iter().collect(alloc)?;
    Ok(Listing::new(list))
}

fn name_of(subject: &Subject, piece: &Placement) -> Id
    ensures { result ≡ name_of subject.now piece.now }
{
    match subject {
        Subject::Board(_) => piece.lot,
        Subject::Lot { .. } => piece.board,
        Subject::Reels(_) => piece.board,
    }
}

fn write_names(writer: &mut TextWriter, path: &str, names: &[Id]) -> Result<(), AllocError>
    ensures { (text : List ℕ) → HasWritten writer.old text
        → OnOk result (HasWritten writer.new
        (text ++ rows_text (map (name_row path.now) names.now))) }
{
    for name in names {
        write_fields(writer, &[name.as_bytes(), path.as_bytes()])?;
    }
    Ok(())
}

fn write_pieces(writer: &mut TextWriter, path: &str, pieces: &[Placement]) -> Result<(), AllocError>
    ensures { (text : List ℕ) → HasWritten writer.old text
        → OnOk result (HasWritten writer.new
        (text ++ rows_text (map (piece_row path.now) pieces.now))) }
{
    for piece in pieces {
        write_piece(writer, path, piece)?;
    }
    Ok(())
}

fn write_piece(writer: &mut TextWriter, path: &str, piece: &Placement) -> Result<(), AllocError>
    ensures { (text : List ℕ) → HasWritten writer.old text
        → OnOk result (HasWritten writer.new
        (text ++ record_text (piece_row path.now piece.now))) }
{
    write_fields(
        writer,
        &[
            piece.board.as_bytes(),
            piece.designator.as_bytes(),
            piece.part.as_bytes(),
            piece.lot.as_bytes(),
            piece.reel.as_bytes(),
            piece.machine.as_bytes(),
            piece.slot.as_bytes(),
            overdue_word(piece),
            Buffer::new().format(piece.effective.get()).as_bytes(),
            path.as_bytes(),
        ],
    )
}

fn overdue_word(piece: &Placement) -> &[u8]
    ensures { result.now ≡ yes_or_no piece.now.overdue }
{
    if piece.overdue { b"yes" } else { b"no" }
}
