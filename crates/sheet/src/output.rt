// The output buffer: where it is full and more comes, it is written and filled again from its front. A failed write is
// passed over.
ghost use Rattle.std.specs.Prelude.{ℕ, ◌≡◌, ◌≤◌, ◌+◌, List, [], ◌++◌, length, take, IsOk};
ghost use Rattle.sheet.specs.Kept.{SIZE, kept};

use std::fmt;
use std::io::{Stdout, Write};
use std::marker::Model;

const SIZE: usize = 65536;

#[derive(Drop)]
pub struct Output {
    stdout: Stdout,
    buffer: [u8; SIZE],
    count: usize,
}

// What came and is not written yet.
impl Model for Output {
    ghost Value = { List ℕ };

    ghost view = { λ out. take out.count out.buffer };

    ghost invariant = { λ out. out.count ≤ SIZE };
}

impl Output {
    pub fn new(stdout: Stdout) -> Output
        ensures { result ≡ [] }
    {
        Output {
            stdout,
            buffer: [0; SIZE],
            count: 0,
        }
    }

    // Writes what is held.
    pub fn write_out(&mut self)
        ensures { self.new ≡ [] }
    {
        let _ = self.stdout.write_all(&self.buffer[..self.count]);
        self.count = 0;
    }

    fn room(&self) -> usize
        ensures { length self.now + result ≡ SIZE }
    {
        SIZE - self.count
    }

    // Holds a text that there is room for.
    fn hold(&mut self, text: &[u8])
        requires { length self.old + length text.now ≤ SIZE }
        ensures { self.new ≡ self.old ++ text.now }
    {
        let end = self.count + text.len();
        self.buffer[self.count..end].copy_from_slice(text);
        self.count = end;
    }
}

impl fmt::Write for Output {
    ghost write_str_gives = { λ old text new. new ≡ kept (old ++ text) };

    fn write_str(&mut self, s: &str) -> fmt::Result
        ensures ok { IsOk result }
        ensures kept { self.new ≡ kept (self.old ++ s.now) }
    {
        let mut rest = s.as_bytes();
        while self.room() < rest.len() {
            let (front, later) = rest.split_at(self.room());
            self.hold(front);
            self.write_out();
            rest = later;
        }
        self.hold(rest);
        Ok(())
    }
}
