// What is to be printed, part by part: a text that grows, in fixed memory.
ghost use Rattle.std.specs.Prelude.{◌≡◌, [], ◌++◌, ◌+◌, ◌≤◌, ◌<◌, List, ℕ, length, take};
ghost use Rattle.base.specs.Lists.{over};
ghost use Rattle.program.specs.Decimal.{decimal};
ghost use Rattle.program.specs.CoverageText.{labelled, read_part, lost_part, rate_part, refused_part, frame_line, sync_line, listings_line};
ghost use Rattle.program.specs.Prints.{position_part};

use coverage::{Coverage, Rate};
use std::marker::Model;

// Room for the longest report. Clauses see the bytes that are there. No String: the library has no heap.
#[derive(Drop)]
pub(crate) struct Printed {
    bytes: [u8; 2210],
    len: usize,
}

impl Model for Printed {
    ghost Value = { List ℕ };

    ghost view = { λ p. take p.len p.bytes };

    ghost invariant = { λ p. p.len ≤ 2210 };
}

impl Printed {
    pub(crate) fn new() -> Self
        ensures { result ≡ [] }
    {
        Printed {
            bytes: [0; 2210],
            len: 0,
        }
    }

    // Writes all of it over the front of a slice, and answers how many bytes that is.
    pub(crate) fn write(&self, out: &mut [u8]) -> usize
        requires { length self.now ≤ length out.old }
        ensures value { result ≡ length self.now }
        ensures out_after { out.new ≡ over out.old self.now }
    {
        out[..self.len].copy_from_slice(&self.bytes[..self.len]);
        self.len
    }

    // Bytes at the end.
    pub(crate) fn text(&mut self, part: &[u8])
        requires { length self.old + length part.now ≤ 2210 }
        ensures { self.new ≡ self.old ++ part.now }
    {
        let end = self.len + part.len();
        self.bytes[self.len..end].copy_from_slice(part);
        self.len = end;
    }

    // A number in decimal.
    pub(crate) fn number(&mut self, number: u64)
        requires { length self.old + 20 ≤ 2210 }
        ensures { self.new ≡ self.old ++ decimal number }
    {
        let mut digits = [0u8; 20];
        let n = io::decimal(number, &mut digits);
        self.text(&digits[..n]);
    }

    // What stands behind the place of a refusal.
    pub(crate) fn position(&mut self, number: u32, position: usize)
        requires { length self.old + 21 ≤ 2210 }
        ensures { self.new ≡ self.old ++ position_part number position }
    {
        if number != 6 {
            return;
        }
        self.text(b" ");
        self.number(position as u64);
    }

    // A label and a number behind it.
    fn labelled(&mut self, label: &[u8], number: u64)
        requires { length self.old + length label.now + 20 ≤ 2210 }
        ensures { self.new ≡ self.old ++ labelled label.now number }
    {
        self.text(label);
        self.number(number);
    }

    // Words that were read, by their mended bits.
    fn read(&mut self, unchanged: u32, one: u32, two: u32)
        requires { length self.old + 81 ≤ 2210 }
        ensures { self.new ≡ self.old ++ read_part unchanged one two }
    {
        self.labelled(b" unchanged ", u64::from(unchanged));
        self.labelled(b" one ", u64::from(one));
        self.labelled(b" two ", u64::from(two));
    }

    // Lost words, and pages.
    fn lost(&mut self, lost: u32, whole: u32, cut: u32)
        requires { length self.old + 78 ≤ 2210 }
        ensures { self.new ≡ self.old ++ lost_part lost whole cut }
    {
        self.labelled(b" lost ", u64::from(lost));
        self.labelled(b" whole ", u64::from(whole));
        self.labelled(b" cut ", u64::from(cut));
    }

    // A rate, and the newline.
    fn rate(&mut self, rate: Rate)
        requires { length self.old + 58 ≤ 2210 }
        ensures { self.new ≡ self.old ++ rate_part rate }
    {
        self.labelled(b" rate ", rate.rate);
        self.labelled(b" remainder ", rate.remainder);
        self.text(b"\n");
    }

    // Refused listings, by their number.
    fn refused(&mut self, malformed: u32, unsynced: u32, many: u32)
        requires { length self.old + 93 ≤ 2210 }
        ensures { self.new ≡ self.old ++ refused_part malformed unsynced many }
    {
        self.labelled(b" refused21 ", u64::from(malformed));
        self.labelled(b" refused22 ", u64::from(unsynced));
        self.labelled(b" refused23 ", u64::from(many));
    }

    // The line of a frame.
    pub(crate) fn frame(&mut self, c: &Coverage, frame: u32)
        requires frame_bound { frame < 8 }
        requires room { length self.old + 243 ≤ 2210 }
        ensures { self.new ≡ self.old ++ frame_line c.now frame }
    {
        let first = 4 * frame as usize;
        let whole = 2 * frame as usize;
        self.labelled(b"frame ", u64::from(frame));
        self.read(c.frames[first], c.frames[first + 1], c.frames[first + 2]);
        self.lost(c.frames[first + 3], c.pages[whole], c.pages[whole + 1]);
        self.rate(coverage::rate_of(*c, frame));
    }

    // The line of sync.
    pub(crate) fn sync(&mut self, c: &Coverage)
        requires { length self.old + 143 ≤ 2210 }
        ensures { self.new ≡ self.old ++ sync_line c.now }
    {
        self.text(b"sync");
        self.read(c.sync[0], c.sync[1], c.sync[2]);
        self.rate(coverage::rate_of(*c, 8));
    }

    // The line of the listings.
    pub(crate) fn listings(&mut self, c: &Coverage)
        requires { length self.old + 123 ≤ 2210 }
        ensures { self.new ≡ self.old ++ listings_line c.now }
    {
        self.labelled(b"listings ", u64::from(c.listings));
        self.refused(c.refused[0], c.refused[1], c.refused[2]);
        self.text(b"\n");
    }
}
