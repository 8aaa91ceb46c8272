ghost use Rattle.std.specs.Prelude.{IsOk};

use std::fmt::Display;
use std::io;

// Prints to what it holds, and passes over a write that fails there: what comes behind that is tried all the same.
#[derive(Clone, Copy)]
pub struct PassingOver<P>(pub P);

impl<P: Print> Print for PassingOver<P> {
    fn print<D: Display + Drop>(&self, value: D) -> io::Result<()>
        ensures { IsOk result }
    {
        let _ = self.0.print(value);
        Ok(())
    }

    fn println<D: Display + Drop>(&self, value: D) -> io::Result<()>
        ensures { IsOk result }
    {
        let _ = self.0.println(value);
        Ok(())
    }

    fn write_all(&self, bytes: &[u8]) -> io::Result<()>
        ensures { IsOk result }
    {
        let _ = self.0.write_all(bytes);
        Ok(())
    }
}
