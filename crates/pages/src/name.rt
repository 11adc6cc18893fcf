//! Places of names, in memory that the caller lends.
ghost use Rattle.pages.specs.Names.{name_in, place_of, printable};
ghost use Rattle.std.specs.List.{list_all};
ghost use Rattle.std.specs.Prelude.{◌≡◌, take};

/// The most bytes of a name.
pub const MOST_NAME_BYTES: usize = 16;

/// A place that a name can stand in: how many bytes it has, and the bytes. Those behind the name aren't looked at.
#[derive(Clone, Copy)]
pub struct NamePlace {
    pub length: u8,
    pub bytes: [u8; MOST_NAME_BYTES],
}

/// Whether a name may have this byte: it is from 32 to 126.
pub fn is_printable(byte: u8) -> bool
    ensures { result ≡ printable byte }
{
    matches!(byte, b' '..=b'~')
}

/// Whether a name may have all these bytes: each is from 32 to 126.
pub fn all_printable(bytes: &[u8]) -> bool
    ensures { result ≡ list_all printable bytes.now }
{
    bytes.iter().all(|byte| is_printable(*byte))
}

impl NamePlace {
    /// The place that holds this name, with 0 in the bytes behind it; of a longer one its first 16 bytes.
    pub fn of(name: &[u8]) -> NamePlace
        ensures { result ≡ place_of (take 16 name.now) }
    {
        let length = name.len().min(MOST_NAME_BYTES);
        let mut bytes = [0; MOST_NAME_BYTES];
        bytes[..length].copy_from_slice(&name[..length]);
        NamePlace {
            length: length as u8,
            bytes,
        }
    }

    /// The name that stands in the place: its first bytes, as many as its length says, if they are at most 16 and all from
    /// 32 to 126; else the empty name.
    pub fn name(&self) -> &[u8]
        ensures { result.now ≡ name_in self.now }
    {
        let length = self.length as usize;
        if length > MOST_NAME_BYTES {
            return &[];
        }
        let bytes = &self.bytes[..length];
        if all_printable(bytes) { bytes } else { &[] }
    }
}
