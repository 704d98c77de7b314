//! The plain desk by itself, both desks side by side, and the book of a line.

mod answers;
mod book;
mod cases;
mod counts;
mod desks;
mod doubt;
mod entries;
mod line_texts;
mod members;
mod reading;
mod rows;
mod sending;
mod usable;

use desk_types::Id;
use std::test::Fail;

fn id(text: &str) -> Result<Id, Fail> {
    Ok(Id::read(text.as_bytes()).ok_or("no id")?)
}
