//! Runs tables of test data: reads questions from standard input, and writes our answers to standard
//! output.
//!
//! A line with a table's name begins that table, and is repeated in the output. Each line after it
//! is a question. Its answer is one line: `-` if the conditions of a call aren't met, and `?` if a
//! question can't be read.
#![tactic(auto)]

mod chains;
mod checks;
mod feedback;
mod fields;
mod forms;
mod framing;
mod headers;
mod text;
mod values;

use std::alloc::{AllocError, Global};
use std::io::{self, BufRead, BufReader, BufWriter, Write};
use text::NoAnswer;

/// The tables.
#[derive(Clone, Copy)]
enum Table {
    Checks,
    Values,
    Framing,
    Fields,
    Feedback,
    Headers,
    Chains,
    Forms,
}

impl Table {
    /// The table that a line begins, or `None` if the line is a question.
    fn begun_by(line: &str) -> Option<Table> {
        match line {
            "# checks" => Some(Table::Checks),
            "# values" => Some(Table::Values),
            "# framing" => Some(Table::Framing),
            "# fields" => Some(Table::Fields),
            "# feedback" => Some(Table::Feedback),
            "# headers" => Some(Table::Headers),
            "# chains" => Some(Table::Chains),
            "# forms" => Some(Table::Forms),
            _ => None,
        }
    }

    /// Our answer to a question of this table.
    fn answer(self, alloc: Global, question: &str) -> Result<String, NoAnswer> {
        let columns: Vec<&str> = question.split('\t').collect(alloc)?;
        match self {
            Table::Checks => checks::answer(alloc, &columns),
            Table::Values => values::answer(alloc, &columns),
            Table::Framing => framing::answer(alloc, &columns),
            Table::Fields => fields::answer(alloc, &columns),
            Table::Feedback => feedback::answer(alloc, &columns),
            Table::Headers => headers::answer(alloc, &columns),
            Table::Chains => chains::answer(alloc, &columns),
            Table::Forms => forms::answer(alloc, &columns),
        }
    }
}

/// The answer to a question of the table, or the mark for a question without an answer.
fn answer_or_mark(
    alloc: Global,
    table: Option<Table>,
    question: &str,
) -> Result<String, AllocError> {
    let answer = match table {
        Some(table) => table.answer(alloc, question),
        None => Err(NoAnswer::Unreadable),
    };
    match answer {
        Ok(answer) => Ok(answer),
        Err(NoAnswer::Unreadable) => String::from_str(alloc, "?"),
        Err(NoAnswer::OutsideConditions) => String::from_str(alloc, "-"),
        Err(NoAnswer::NoMemory(error)) => Err(error),
    }
}

fn main(rt: HostRuntime) -> io::Result<()> {
    let alloc = rt.alloc();
    let mut writer = BufWriter::new(alloc, io::writer(&rt))?;
    let mut table = None;
    for line in BufReader::new(alloc, rt.reader())?.lines(alloc) {
        let line = line?;
        if let Some(begun) = Table::begun_by(&line) {
            table = Some(begun);
            writeln!(writer, "{line}")?;
        } else {
            let answer = answer_or_mark(alloc, table, &line)?;
            writeln!(writer, "{answer}")?;
        }
    }
    writer.flush()
}
