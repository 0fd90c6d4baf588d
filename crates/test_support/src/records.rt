// Bytes to build a record in: those of the longest cell record and some more, so that a record can
// be too long. What would go past the end is left out.
use region_table::MAX_REGIONS;

// How many bytes a record has room for.
pub const ROOM: usize = 152 + 32 * MAX_REGIONS;

// A record under test: the first bytes of an image.
#[derive(Clone, Copy)]
pub struct Record {
    image: [u8; ROOM],
    len: usize,
}

impl Record {
    // A record of no bytes, and zeros behind it.
    pub fn empty() -> Self {
        Record {
            image: [0; ROOM],
            len: 0,
        }
    }

    pub fn bytes(&self) -> &[u8] {
        self.image.get(..self.len).unwrap_or(&self.image)
    }

    // Cuts the record, or grows it by the bytes behind it.
    pub fn resize(&mut self, len: usize) {
        self.len = len;
    }

    // Stores bytes from a place of the image on.
    pub fn put(&mut self, at: usize, bytes: &[u8]) {
        let Some(places) = self.image.get_mut(at..) else {
            return;
        };
        for (place, byte) in places.iter_mut().zip(bytes) {
            *place = *byte;
        }
    }
}
