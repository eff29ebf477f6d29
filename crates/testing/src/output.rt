// The output of a test program, which a write that fails does not end.

use std::fmt::Display;
use std::io;

// An output on which a write that fails goes without a word: what is printed then lacks it, and what comes after is printed.
#[derive(Clone, Copy)]
pub struct Steady<'a, P: Print>(pub &'a P);

impl<'a, P: Print> Print for Steady<'a, P> {
    fn print<D: Display + Drop>(&self, value: D) -> io::Result<()> {
        let _ = self.0.print(value);
        Ok(())
    }

    fn println<D: Display + Drop>(&self, value: D) -> io::Result<()> {
        let _ = self.0.println(value);
        Ok(())
    }

    fn write_all(&self, bytes: &[u8]) -> io::Result<()> {
        let _ = self.0.write_all(bytes);
        Ok(())
    }
}
