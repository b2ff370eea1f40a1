// Bytes that are read field by field.

/// Bytes, where the next field begins, and where the first wrong field began, if one was wrong.
/// Behind that one there is no byte to read, and what is answered for it means nothing.
#[derive(Clone, Copy)]
pub struct Fields<'a> {
    bytes: &'a [u8],
    at: usize,
    wrong: Option<usize>,
}

pub fn fields_of(bytes: &[u8]) -> Fields<'_> {
    Fields {
        bytes,
        at: 0,
        wrong: None,
    }
}

impl Fields<'_> {
    /// Where the next field begins.
    pub fn place(&self) -> usize {
        self.at
    }

    /// How many bytes there are from the next field on.
    pub fn left(&self) -> usize {
        self.bytes.len().saturating_sub(self.at)
    }

    /// Where the first wrong field began, if one was wrong.
    pub fn wrong_at(&self) -> Option<usize> {
        self.wrong
    }

    pub fn is_wrong(&self) -> bool {
        self.wrong.is_some()
    }

    /// The field that began at this place is wrong. It counts where none before it was.
    pub fn refuse(&mut self, place: usize) {
        if self.wrong.is_none() {
            self.wrong = Some(place);
        }
    }

    /// The next byte, which stays.
    pub fn next_byte(&self) -> Option<u8> {
        match self.wrong {
            Some(_) => None,
            None => self.bytes.get(self.at).copied(),
        }
    }

    /// The next byte, and none where there is no more.
    pub fn byte(&mut self) -> Option<u8> {
        let byte = self.next_byte();
        self.at = self.at.wrapping_add(1);
        byte
    }

    /// A number of so many bytes, the highest first.
    pub fn number(&mut self, bytes: u32) -> u64 {
        let place = self.at;
        let mut number: u64 = 0;
        for _ in 0..bytes {
            match self.byte() {
                Some(byte) => number = number.wrapping_mul(256).wrapping_add(u64::from(byte)),
                None => self.refuse(place),
            }
        }
        number
    }

    /// A byte from the least to the most.
    pub fn tag(&mut self, least: u8, most: u8) -> u8 {
        let place = self.at;
        match self.byte() {
            Some(byte) if least <= byte && byte <= most => byte,
            _ => {
                self.refuse(place);
                least
            }
        }
    }

    /// These bytes.
    pub fn literal(&mut self, wanted: &[u8]) {
        let place = self.at;
        for byte in wanted {
            if self.byte() != Some(*byte) {
                self.refuse(place);
            }
        }
    }

    /// So many bytes, whatever they are.
    pub fn skip(&mut self, many: u64) {
        let place = self.at;
        for _ in 0..many {
            if self.byte().is_none() {
                self.refuse(place);
                return;
            }
        }
    }

    /// No more bytes.
    pub fn end(&mut self) {
        if self.next_byte().is_some() {
            self.refuse(self.at);
        }
    }
}
