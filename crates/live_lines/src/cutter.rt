//! A line, as its bytes come.

ghost use Rattle.std.specs.Prelude.{◌≡◌, ◌≢◌, [], Some, option_map, IfOk};
ghost use Rattle.live_lines.specs.Cutting.{with_byte, is_nothing};

use bwe_specs::{MAX_LINE, OutOfMemory};
use std::alloc::Global;
use std::marker::Model;

/// What stands since the last line feed, which contracts see as a text, or none where it is longer
/// than a line may be.
#[derive(Drop)]
pub struct LineCutter {
    buffer: Vec<u8>,
    filled: usize,
    is_long: bool,
}

impl Model for LineCutter {
    ghost use Rattle.std.specs.Prelude.{◌≡◌, ◌≤◌, length, take};
    ghost use Rattle.bwe_specs.specs.declared.limits.TheConstants.{MAX_LINE};
    ghost use Rattle.live_lines.specs.Cutting.{Held, held_in};

    ghost Value = { Held };

    ghost view = { λ cutter. held_in cutter.is_long (take cutter.filled cutter.buffer.items) };

    ghost invariant = { λ cutter.
        (length cutter.buffer.items ≡ MAX_LINE) × (cutter.filled ≤ MAX_LINE) };
}

impl LineCutter {
    /// A cutter before the first byte. It takes memory for one line, and no call of it takes more.
    pub fn new(alloc: Global) -> Result<LineCutter, OutOfMemory>
        ensures { IfOk result (λ cutter. cutter ≡ Some []) }
    {
        Ok(LineCutter {
            buffer: vec![in alloc; 0; MAX_LINE]?,
            filled: 0,
            is_long: false,
        })
    }

    /// Takes in a byte of the line, which is no line feed.
    pub fn push(&mut self, byte: u8)
        requires { byte ≢ 10 }
        ensures { self.new ≡ with_byte self.old byte }
    {
        if self.is_long || self.filled == MAX_LINE {
            self.is_long = true;
            return;
        }
        self.buffer[self.filled] = byte;
        self.filled += 1;
    }

    /// What stands since the last line feed, `None` where it is longer than a line may be.
    pub fn text(&self) -> Option<&[u8]>
        ensures { option_map (λ text. text.now) result ≡ self.now }
    {
        if self.is_long {
            return None;
        }
        Some(&self.buffer[..self.filled])
    }

    /// Begins a new line, as a line feed does.
    pub fn clear(&mut self)
        ensures { self.new ≡ Some [] }
    {
        self.filled = 0;
        self.is_long = false;
    }

    /// Whether nothing stands since the last line feed, so that an input that ends here ends with a
    /// whole line.
    pub fn is_empty(&self) -> bool
        ensures { result ≡ is_nothing self.now }
    {
        !self.is_long && self.filled == 0
    }
}
