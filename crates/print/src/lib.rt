// What the programs of worked vectors print: bytes in hexadecimal, a record's fields, a case, a refusal; and how they
// print.
#![tactic(auto)]

ghost use Rattle.std.specs.Prelude.{Some};
ghost use Rattle.print.specs.Text.{hex, fields, case, refused};

use outer::OuterHeader;
use std::fmt::{self, Display};
use std::io;
use wire::Refusal;

// Bytes in upper-case hexadecimal, two digits for each.
#[derive(Clone, Copy)]
pub struct Hex<'a>(pub &'a [u8]);

impl<'a> fmt::Display for Hex<'a> {
    ghost output = { λ bytes. Some (hex bytes.0.now) };

    fn fmt<W: fmt::Write>(&self, f: &mut fmt::Formatter<W>) -> fmt::Result {
        for &byte in self.0 {
            write!(f, "{byte:02X}")?;
        }
        Ok(())
    }
}

// Type, instance, epoch, sequence and length of a record, as its header holds them.
#[derive(Clone, Copy)]
pub struct Fields(pub OuterHeader);

impl fmt::Display for Fields {
    ghost output = { λ shown. Some (fields shown.0) };

    fn fmt<W: fmt::Write>(&self, f: &mut fmt::Formatter<W>) -> fmt::Result {
        let header = &self.0;
        write!(
            f,
            "type {} instance {} epoch {} sequence {} length {}",
            header.record_type,
            Hex(&header.instance_id),
            header.epoch.0,
            header.sequence.0,
            header.length
        )
    }
}

// A record to try: its fields, and a payload of four bytes.
#[derive(Clone, Copy)]
pub struct Case<'a> {
    pub header: OuterHeader,
    pub payload: &'a [u8],
}

impl<'a> fmt::Display for Case<'a> {
    ghost output = { λ shown. Some (case shown.header shown.payload.now) };

    fn fmt<W: fmt::Write>(&self, f: &mut fmt::Formatter<W>) -> fmt::Result {
        write!(f, "{}", Fields(self.header))?;
        if self.payload.len() == 4 {
            write!(f, " payload {}", Hex(self.payload))?;
        }
        Ok(())
    }
}

// A refusal's number and its first two figures.
#[derive(Clone, Copy)]
pub struct Refused(pub Refusal);

impl fmt::Display for Refused {
    ghost output = { λ shown. Some (refused shown.0) };

    fn fmt<W: fmt::Write>(&self, f: &mut fmt::Formatter<W>) -> fmt::Result {
        write!(f, "refusal {} a {} b {}", self.0.number, self.0.a, self.0.b)
    }
}

// Prints, and goes on where something cannot be written.
#[derive(Clone, Copy)]
pub struct GoesOn<'a, P>(pub &'a P);

impl<'a, P: Print> Print for GoesOn<'a, P> {
    fn print<D: Display + Drop>(&self, value: D) -> io::Result<()> {
        let _ = self.0.print(value);
        Ok(())
    }

    fn println<D: Display + Drop>(&self, value: D) -> io::Result<()> {
        let _ = self.0.println(value);
        Ok(())
    }

    fn write_all(&self, bytes: &[u8]) -> io::Result<()> {
        let _ = self.0.write_all(bytes);
        Ok(())
    }
}
