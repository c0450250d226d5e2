// The day's trace: what the ports hear is recorded as it arrives, and each block goes to a file when it is closed.
use std::env::Env;
use std::fs::Files;
use std::io::Write;
use std::{fs, io};

// The recording, its open block, and where blocks go: nowhere, if there is no file.
#[derive(Drop)]
pub struct Trace<F> {
    words: [u64; recording::WORDS],
    opened: [u8; block::OCTETS],
    file: Option<F>,
}

// The file that the program's first argument names, emptied; none where there is no argument or the file cannot be made.
pub fn file<R: Env + Files>(rt: &R) -> Option<R::File> {
    let mut name = [0u8; 4096];
    let n = rt.arg(1, &mut name).ok()?;
    let path = std::str::from_utf8(&name[..n]).ok()?;
    fs::create(rt, path).ok()
}

impl<F: Write> Trace<F> {
    // A trace of nothing yet.
    pub fn new(file: Option<F>) -> Trace<F> {
        Trace {
            words: [0; recording::WORDS],
            opened: [0; block::OCTETS],
            file,
        }
    }

    fn write(&mut self, closed: &[u8; block::OCTETS]) -> io::Result<()> {
        match &mut self.file {
            Some(to) => to.write_all(closed),
            None => Ok(()),
        }
    }

    // Records what was heard on a port at `t`.
    pub fn record(&mut self, port: u8, t: u64, octets: &[u8]) -> io::Result<()> {
        let mut closed = [0u8; block::OCTETS];
        let done = recording::record(
            &mut self.opened,
            &mut self.words,
            port,
            t,
            octets,
            &mut closed,
        );
        if let Ok(true) = done {
            self.write(&closed)?;
        }
        Ok(())
    }

    // The last block, at the end of the day. The file stays here, so that whoever calls need not know how to close it.
    pub fn finish(&mut self) -> io::Result<()> {
        let mut closed = [0u8; block::OCTETS];
        if recording::finish(&self.opened, &self.words, &mut closed) {
            self.write(&closed)?;
        }
        Ok(())
    }

    // The same, and the file comes back, so that whoever called closes it.
    pub fn release(&mut self) -> io::Result<Option<F>> {
        self.finish()?;
        Ok(self.file.take())
    }
}
