use std::alloc::Global;
use std::fmt::Display;
use std::io;
use std::io::{BufWriter, Stdout, Write};

// Standard output. The first failure to write ends the writing, and is answered at the end, so that a call that prints
// answers nothing.
#[derive(Drop)]
pub struct Out {
    buffer: BufWriter<Stdout>,
    written: io::Result<()>,
}

impl Out {
    pub fn new(alloc: Global, stdout: Stdout) -> io::Result<Out> {
        Ok(Out {
            buffer: BufWriter::new(alloc, stdout)?,
            written: Ok(()),
        })
    }

    // What `write!` and `writeln!` call.
    pub fn write_fmt<D: Display + Drop>(&mut self, text: D) {
        if self.written.is_ok() {
            self.written = self.buffer.write_fmt(text);
        }
    }

    // Whether all was written.
    pub fn end(self) -> io::Result<()> {
        let Out {
            mut buffer,
            written,
        } = self;
        written?;
        buffer.flush()
    }
}
