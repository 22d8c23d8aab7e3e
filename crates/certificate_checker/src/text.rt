//! The bytes of a certificate's text, of which some end lines.

ghost use Rattle.std.specs.Prelude.{◌≡◌, ℕ, ◌+◌, ◌≤◌, length};
ghost use Rattle.certificate_checker.specs.Bytes.{most_bytes};
ghost use Rattle.certificate_checker.specs.Checking.{checked, checked_all, closed, nothing_checked, verdict_of};
ghost use Rattle.certificate_checker.specs.Judgments.{AreFew};
ghost use Rattle.certificate_checker.specs.Steps.{IsTextReader, IsTextSound, checking_of};

use crate::reader::Reader;
use crate::tables::Tables;
use crate::verdict::Verdict;
use fleet_curves::Curves;

/// What is kept of a text: its line, whether a carriage return waits for the next byte, and whether the line has a
/// byte.
#[derive(Drop)]
pub struct TextReader {
    reader: Reader,
    returned: bool,
    begun: bool,
}

impl TextReader {
    pub fn start() -> TextReader
        ensures read { checking_of result ≡ nothing_checked }
        ensures sound { IsTextSound result }
    {
        TextReader {
            reader: Reader::start(),
            returned: false,
            begun: false,
        }
    }

    fn take(&mut self, curves: &Curves, tables: &Tables, byte: u8)
        requires reader { IsTextReader curves.now self.old }
        requires few { AreFew most_bytes (checking_of self.old).reading }
        ensures read { checking_of self.new ≡ checked tables.now curves.now (checking_of self.old) byte }
        ensures reader { IsTextReader curves.now self.new }
    {
        if byte == b'\n' {
            self.reader.end_line(curves);
            self.returned = false;
            self.begun = false;
            return;
        }
        self.reader.take_return(curves, tables, self.returned);
        self.begun = true;
        if byte == b'\r' {
            self.returned = true;
            return;
        }
        self.reader.byte(curves, tables, byte);
        self.returned = false;
    }

    pub fn take_all(&mut self, curves: &Curves, tables: &Tables, bytes: &[u8])
        requires reader { IsTextReader curves.now self.old }
        requires few { (n : ℕ) × (n + length bytes.now ≤ most_bytes) × AreFew n (checking_of self.old).reading }
        ensures read { checking_of self.new ≡ checked_all tables.now curves.now (checking_of self.old) bytes.now }
        ensures reader { IsTextReader curves.now self.new }
    {
        for byte in bytes {
            self.take(curves, tables, *byte);
        }
    }

    // The verdict where the text ends here, and with it its last line.
    pub fn verdict(&mut self, curves: &Curves, tables: &Tables) -> Verdict
        requires reader { IsTextReader curves.now self.old }
        requires few { AreFew most_bytes (checking_of self.old).reading }
        ensures verdict { result ≡ verdict_of curves.now (closed tables.now curves.now (checking_of self.old)) }
        ensures reader { IsTextReader curves.now self.new }
    {
        if self.begun {
            self.reader.take_return(curves, tables, self.returned);
            self.reader.end_line(curves);
        }
        self.reader.verdict(curves)
    }
}
