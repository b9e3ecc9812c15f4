use crate::line::is_wanted;
use crate::row_error::RowError;
use std::alloc::{AllocError, Global};
use std::io;

/// The row that is carried out, how many there were, and how many of them were wrong.
#[derive(Drop)]
pub struct Tally {
    name: String,
    answers: u64,
    is_wrong: bool,
    rows: u64,
    wrong: u64,
}

impl Tally {
    /// No rows yet.
    pub fn new(alloc: Global) -> Tally {
        Tally {
            name: String::new(alloc),
            answers: 0,
            is_wrong: false,
            rows: 0,
            wrong: 0,
        }
    }

    /// Begins a row of this name. The row before it is wrong where it asked nothing.
    pub fn begin<R: Print>(&mut self, rt: &R, alloc: Global, name: &str) -> io::Result<()> {
        self.close(rt)?;
        self.rows = self.rows.wrapping_add(1);
        self.answers = 0;
        self.is_wrong = false;
        Ok(self.rename(alloc, name)?)
    }

    fn rename(&mut self, alloc: Global, name: &str) -> Result<(), AllocError> {
        self.name = String::from_str(alloc, name)?;
        Ok(())
    }

    /// A question of the row had the answer that is wanted.
    fn find_right(&mut self) {
        self.answers = self.answers.wrapping_add(1);
    }

    /// A line of the row had another answer than is wanted, or was not carried out: prints it with what came.
    pub fn find_wrong<R: Print>(&mut self, rt: &R, line: &str, came: &str) -> io::Result<()> {
        self.answers = self.answers.wrapping_add(1);
        if !self.is_wrong {
            self.wrong = self.wrong.wrapping_add(1);
        }
        self.is_wrong = true;
        println!(rt; "row {}: {line}: {came}", self.name.as_str())
    }

    /// A step of the row that asks nothing was carried out, or was not: prints it then, with the cause.
    pub fn note_step<R: Print>(
        &mut self,
        rt: &R,
        step: &str,
        done: Result<(), RowError>,
    ) -> io::Result<()> {
        match done {
            Ok(()) => Ok(()),
            Err(error) => self.find_wrong(rt, step, error.text()),
        }
    }

    /// A question of the row had an answer, or none: prints it with what came, unless that is what is wanted.
    pub fn note_answer<R: Print>(
        &mut self,
        rt: &R,
        asked: &str,
        wanted: &str,
        answer: Result<String, RowError>,
    ) -> io::Result<()> {
        match answer {
            Ok(answer) => self.compare(rt, asked, wanted, answer.as_str()),
            Err(error) => self.find_wrong(rt, asked, error.text()),
        }
    }

    /// Compares an answer with the one that is wanted.
    fn compare<R: Print>(
        &mut self,
        rt: &R,
        asked: &str,
        wanted: &str,
        answer: &str,
    ) -> io::Result<()> {
        if is_wanted(answer, wanted) {
            self.find_right();
            return Ok(());
        }
        self.find_wrong(rt, asked, answer)
    }

    /// Looks whether the row asked something.
    fn close<R: Print>(&mut self, rt: &R) -> io::Result<()> {
        if self.rows > 0 && self.answers == 0 {
            return self.find_wrong(rt, "its end", "no question");
        }
        Ok(())
    }

    /// Ends the last row, and prints how many rows there were and how many of them were wrong.
    pub fn end<R: Print>(&mut self, rt: &R) -> io::Result<()> {
        self.close(rt)?;
        println!(rt; "{} rows, {} wrong", self.rows, self.wrong)
    }
}
