// How bytes and tables are written, and what comes of what fails.
ghost use Rattle.std.specs.Prelude.{◌≡◌, true, is_ok, IfErr};
ghost use Rattle.std.specs.IoError.{error_kind};
ghost use Rattle.std.specs.declared.io.ErrorKind.TheVariants.{OutOfMemory};

use std::io::ErrorKind;
use std::{fmt, io};

// Where a program writes: a write that fails is passed over, so that the next one is tried. What is printed goes out piece by piece, each
// by a write of its own, so that no more of a line is missing than what failed.
#[derive(Clone, Copy)]
pub struct BestEffort<P>(pub P);

impl<P: Print> fmt::Write for BestEffort<&P> {
    fn write_str(&mut self, piece: &str) -> fmt::Result
        ensures { is_ok result ≡ true }
    {
        let _ = self.0.write_all(piece.as_bytes());
        Ok(())
    }
}

impl<P: Print> Print for BestEffort<&P> {
    fn print<D: fmt::Display + Drop>(&self, value: D) -> io::Result<()>
        ensures { is_ok result ≡ true }
    {
        let _ = fmt::Formatter::new(BestEffort(self.0)).write(value);
        Ok(())
    }

    fn println<D: fmt::Display + Drop>(&self, value: D) -> io::Result<()>
        ensures { is_ok result ≡ true }
    {
        let mut pieces = fmt::Formatter::new(BestEffort(self.0));
        let _ = pieces.write(value);
        let _ = pieces.write("\n");
        Ok(())
    }

    fn write_all(&self, bytes: &[u8]) -> io::Result<()>
        ensures { is_ok result ≡ true }
    {
        let _ = self.0.write_all(bytes);
        Ok(())
    }
}

// Bytes, with two digits for each.
#[derive(Clone, Copy)]
pub struct Hex<'a>(pub &'a [u8]);

// The words of a table, each after a space.
#[derive(Clone, Copy)]
pub struct Words<'a>(pub &'a [u32]);

impl fmt::Display for Hex<'_> {
    fn fmt<W: fmt::Write>(&self, f: &mut fmt::Formatter<W>) -> fmt::Result {
        for byte in self.0 {
            write!(f, "{byte:02x}")?;
        }
        Ok(())
    }
}

impl fmt::Display for Words<'_> {
    fn fmt<W: fmt::Write>(&self, f: &mut fmt::Formatter<W>) -> fmt::Result {
        for word in self.0 {
            write!(f, " {word}")?;
        }
        Ok(())
    }
}

// What is left to tell of what fails: running out of memory, and nothing else.
pub fn passed_over(shown: io::Result<()>) -> io::Result<()>
    ensures writes { IfErr result (λ e. (error_kind e ≡ OutOfMemory) × (result ≡ shown)) }
    ensures memory { IfErr shown (λ e. error_kind e ≡ OutOfMemory → result ≡ shown) }
{
    match shown {
        Err(error) if error.kind() == ErrorKind::OutOfMemory => shown,
        _ => Ok(()),
    }
}
