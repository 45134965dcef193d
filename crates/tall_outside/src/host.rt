//! The shelf and the sink over the host's own files and streams: the trusted edge of the program.

ghost use Rattle.std.specs.Prelude.{◌≡◌, [], Some, None};
ghost use Rattle.tall_outside.specs.Host.{known_rest};

use crate::shelf::{Failed, Opening, Shelf};
use crate::sink::{Sink, WriteFault};
use std::fs;
use std::io::{ErrorKind, Read, Write};
use std::rt::Files;

/// A shelf over the host's files, by their paths from the current folder. It doesn't tell what it holds.
///
/// A call that the host interrupts has failed: a retry would be a loop without a bound.
#[derive(Drop)]
pub struct HostShelf<R: Files> {
    rt: R,
    file: Option<R::File>,
    came: u64,
    misses: u64,
    faults: u64,
}

impl<R: Files> HostShelf<R> {
    /// A shelf of which no file is open.
    pub fn new(rt: R) -> HostShelf<R>
        ensures left { ⟦<HostShelf<R> as Shelf>⟧.left result ≡ Some [] }
        ensures misses { ⟦<HostShelf<R> as Shelf>⟧.misses result ≡ 0 }
        ensures faults { ⟦<HostShelf<R> as Shelf>⟧.faults result ≡ 0 }
        ensures came { ⟦<HostShelf<R> as Shelf>⟧.came result ≡ 0 }
    {
        HostShelf {
            rt,
            file: None,
            came: 0,
            misses: 0,
            faults: 0,
        }
    }
}

impl<R: Files> Shelf for HostShelf<R> {
    ghost held = { λ _. None };

    ghost opened = { λ _. None };

    ghost left = { λ s. known_rest s.file };

    ghost misses = { λ s. s.misses };

    ghost faults = { λ s. s.faults };

    ghost came = { λ s. s.came };

    fn open(&mut self, name: &str) -> Opening {
        self.file = None;
        self.came = 0;
        match fs::open(&self.rt, name) {
            Ok(file) => {
                self.file = Some(file);
                Opening::Opened
            }
            Err(e) if e.kind() == ErrorKind::NotFound => {
                self.misses = self.misses.saturating_add(1);
                Opening::NoSuch
            }
            Err(_) => {
                self.faults = self.faults.saturating_add(1);
                Opening::Failed
            }
        }
    }

    fn read(&mut self, buf: &mut [u8]) -> Result<usize, Failed> {
        let answer = match &mut self.file {
            Some(file) => file.read(buf),
            None => Ok(0),
        };
        match answer {
            Ok(count) => {
                self.came = self.came.saturating_add(count as u64);
                Ok(count)
            }
            Err(_) => {
                self.faults = self.faults.saturating_add(1);
                Err(Failed)
            }
        }
    }
}

/// A sink over a writer of the host. It doesn't tell what was written.
#[derive(Drop)]
pub struct HostSink<W> {
    writer: W,
    faults: u64,
}

impl<W: Write> HostSink<W> {
    /// A sink over this writer.
    pub fn new(writer: W) -> HostSink<W>
        ensures { ⟦<HostSink<W> as Sink>⟧.faults result ≡ 0 }
    {
        HostSink { writer, faults: 0 }
    }
}

impl<W: Write> Sink for HostSink<W> {
    ghost written = { λ _. None };

    ghost faults = { λ s. s.faults };

    fn write(&mut self, piece: &[u8]) -> Result<usize, WriteFault> {
        match self.writer.write(piece) {
            Ok(0) if !piece.is_empty() => {
                self.faults = self.faults.saturating_add(1);
                Ok(0)
            }
            Ok(count) => Ok(count),
            Err(_) => {
                self.faults = self.faults.saturating_add(1);
                Err(WriteFault::Failed)
            }
        }
    }
}

#[cfg(test)]
mod tests {
    use super::*;
    use crate::tests::answers;
    use std::io;
    use std::test::Fail;

    #[test]
    fn reads_the_files_of_the_folder(rt: HostRuntime) -> Result<(), Fail> {
        fs::write(&rt, "a.csv", "x,1,2,")?;
        let mut shelf = HostShelf::new(rt.clone()?);
        let calls = ["", "a.csv", "", "", "", "none.csv", "", "a.csv/b", ".", ""];
        let text = answers(rt.alloc(), &mut shelf, &calls)?;
        assert_eq!(rt;
            text.as_str(),
            r#""" Opened "x,1," "2," "" NoSuch "" Failed Opened Failed "#
        );
        assert_eq!(rt; (shelf.came, shelf.misses, shelf.faults), (0, 1, 2));
        Ok(())
    }

    /// A writer that takes one byte, then none, and then fails.
    #[derive(Drop)]
    struct Closing(u8);

    impl Write for Closing {
        fn write(&mut self, buf: &[u8]) -> io::Result<usize> {
            self.0 = self.0.saturating_add(1);
            match self.0 {
                1 => Ok(buf.len().min(1)),
                2 => Ok(0),
                _ => Err(io::Error::from(ErrorKind::BrokenPipe)),
            }
        }

        fn flush(&mut self) -> io::Result<()> {
            Ok(())
        }
    }

    #[test]
    fn writes_to_a_file(rt: HostRuntime) -> Result<(), Fail> {
        let mut sink = HostSink::new(fs::create(&rt, "out.txt")?);
        assert_eq!(rt; [sink.write(b"s = 1\n"), sink.write(b"")], [Ok(6), Ok(0)]);
        assert_eq!(rt; sink.faults, 0);
        assert_eq!(rt; fs::read_to_string(&rt, "out.txt")?.as_str(), "s = 1\n");
        Ok(())
    }

    #[test]
    fn counts_refusals_of_the_writer(rt: HostRuntime) {
        let mut sink = HostSink::new(Closing(0));
        let answers = [sink.write(b"ab"), sink.write(b"b"), sink.write(b"b")];
        assert_eq!(rt; answers, [Ok(1), Ok(0), Err(WriteFault::Failed)]);
        assert_eq!(rt; sink.faults, 2);
    }
}
