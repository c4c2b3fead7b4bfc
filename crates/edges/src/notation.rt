// Commands from a notation of AVPs: flags (V with 3GPP's Vendor-Id, M, P), decimal code, and data: `=` and a decimal
// number of four octets, `:` and octets in hexadecimal, or members in parentheses; length and padding follow. `#` and
// hexadecimal are octets and no AVP. A space or a parenthesis ends what stands before it.
use std::io;
use std::io::ErrorKind;

// The characters that end what stands before them.
const ENDS: [char; 3] = [' ', '(', ')'];

// Room for the longest case, 16,388 octets, and the groups that may be open at once: memory is fixed, so that none runs
// out on the way. One command is lent to all cases.
const ROOM: usize = 16400;

const OPEN_GROUPS: usize = 8;

// The octets of a command, or of what is none.
#[derive(Drop)]
pub(crate) struct Command {
    octets: [u8; ROOM],
    length: usize,
}

// What a text that is not in the notation, or for which there is no room, comes to.
fn malformed() -> io::Error {
    io::Error::from(ErrorKind::InvalidData)
}

// Writes the length of the octets into the three at a place.
fn write_length(octets: &mut [u8], place: usize) {
    let [.., high, middle, low] = octets.len().to_be_bytes();
    if let Some(behind) = octets.get_mut(place..)
        && let Some(field) = behind.first_chunk_mut()
    {
        *field = [high, middle, low];
    }
}

impl Command {
    pub(crate) fn new() -> Command {
        Command {
            octets: [0; ROOM],
            length: 0,
        }
    }

    pub(crate) fn octets(&self) -> &[u8] {
        &self.octets[..self.length.min(ROOM)]
    }

    fn octets_mut(&mut self) -> &mut [u8] {
        &mut self.octets[..self.length.min(ROOM)]
    }

    // What the text stands for, and nothing before it.
    pub(crate) fn start(&mut self, text: &str) -> io::Result<()> {
        self.length = 0;
        self.put(text)
    }

    // A command with these AVPs behind its start.
    pub(crate) fn put_command(&mut self, start: &str, avps: &str) -> io::Result<()> {
        self.start(start)?;
        self.put(avps)?;
        self.set_length();
        Ok(())
    }

    // The length of the whole, in the header.
    pub(crate) fn set_length(&mut self) {
        write_length(self.octets_mut(), 1);
    }

    pub(crate) fn set_flags(&mut self, flags: u8) {
        if let Some(field) = self.octets.get_mut(4) {
            *field = flags;
        }
    }

    fn extend(&mut self, octets: &[u8]) -> io::Result<()> {
        for &octet in octets {
            let Some(place) = self.octets.get_mut(self.length) else {
                return Err(malformed());
            };
            *place = octet;
            self.length += 1;
        }
        Ok(())
    }

    // Zeros up to a length.
    pub(crate) fn fill(&mut self, length: usize) -> io::Result<()> {
        for _ in self.length..length {
            self.extend(&[0])?;
        }
        Ok(())
    }

    // What stands behind the first `length` octets goes.
    pub(crate) fn truncate(&mut self, length: usize) {
        self.length = self.length.min(length);
    }

    // Puts the header of an AVP, with its length still to come, and returns where it begins.
    pub(crate) fn begin_avp(&mut self, name: &str) -> io::Result<usize> {
        let start = self.length;
        let code = name.trim_start_matches(['V', 'M', 'P']);
        let code: u32 = code.parse().map_err(|_| malformed())?;
        let mut flags = 0;
        for letter in name.chars() {
            flags |= match letter {
                'V' => 128,
                'M' => 64,
                'P' => 32,
                _ => 0,
            };
        }
        self.extend(&code.to_be_bytes())?;
        self.extend(&[flags, 0, 0, 0])?;
        if name.contains('V') {
            self.extend(&10415u32.to_be_bytes())?;
        }
        Ok(start)
    }

    // The length of the AVP that begins at `start` and ends here.
    pub(crate) fn set_avp_length(&mut self, start: usize) {
        if let Some(avp) = self.octets_mut().get_mut(start..) {
            write_length(avp, 5);
        }
    }

    // Padding is not zero, since its content is ignored (01, AVP).
    fn end_avp(&mut self, start: usize) -> io::Result<()> {
        self.set_avp_length(start);
        let padding = (4 - self.length % 4) % 4;
        self.extend(&[255; 3][..padding])
    }

    fn put_octets(&mut self, digits: &str) -> io::Result<()> {
        for pair in digits.as_bytes().chunks(2) {
            let pair = str::from_utf8(pair).map_err(|_| malformed())?;
            let octet = u8::from_str_radix(pair, 16).map_err(|_| malformed())?;
            self.extend(&[octet])?;
        }
        Ok(())
    }

    // Puts octets, or an AVP that is no group.
    fn put_part(&mut self, part: &str) -> io::Result<()> {
        if part.is_empty() {
            return Ok(());
        }
        if let Some(digits) = part.strip_prefix('#') {
            return self.put_octets(digits);
        }
        if let Some((name, digits)) = part.split_once(':') {
            let start = self.begin_avp(name)?;
            self.put_octets(digits)?;
            return self.end_avp(start);
        }
        let (name, number) = part.split_once('=').ok_or_else(malformed)?;
        let number: u32 = number.parse().map_err(|_| malformed())?;
        let start = self.begin_avp(name)?;
        self.extend(&number.to_be_bytes())?;
        self.end_avp(start)
    }

    // Puts what `text` stands for.
    pub(crate) fn put(&mut self, text: &str) -> io::Result<()> {
        let mut groups = [0; OPEN_GROUPS];
        let mut open = 0;
        for part in text.split_inclusive(ENDS) {
            let body = part.trim_end_matches(ENDS);
            if part.ends_with('(') {
                let Some(group) = groups.get_mut(open) else {
                    return Err(malformed());
                };
                *group = self.begin_avp(body)?;
                open += 1;
                continue;
            }
            self.put_part(body)?;
            if part.ends_with(')') {
                open = open.checked_sub(1).ok_or_else(malformed)?;
                let group = groups.get(open).ok_or_else(malformed)?;
                self.end_avp(*group)?;
            }
        }
        if open == 0 { Ok(()) } else { Err(malformed()) }
    }
}
