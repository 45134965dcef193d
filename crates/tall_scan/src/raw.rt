// A block of whole records that were not read yet.

ghost use Rattle.std.specs.Prelude.{◌≡◌, length};
ghost use Rattle.tall_scan.specs.Rows.{text_records};

/// Consecutive whole records of a file as their bytes, and how many they are.
///
/// It is plain bytes, so it may be read on another thread than the one that found it.
#[derive(Drop)]
pub struct RawBlock {
    pub(crate) bytes: Vec<u8>,
    pub(crate) count: u64,
    pub(crate) delimiter: u8,
    ghost counted: { length (text_records delimiter bytes.items) ≡ count },
}

impl RawBlock {
    ghost use Rattle.tall_scan.specs.Finding.{raw_count, raw_delimiter, raw_records};

    /// How many records it has, at least one where it was found.
    pub fn count(&self) -> u64
        ensures count { result ≡ raw_count self.now }
        ensures records { result ≡ length (raw_records self.now) }
    {
        self.count
    }

    /// The byte between fields.
    pub fn delimiter(&self) -> u8
        ensures { result ≡ raw_delimiter self.now }
    {
        self.delimiter
    }

    /// The bytes of its records, as they stand in the file.
    pub fn bytes(&self) -> &[u8]
        ensures { raw_records self.now ≡ text_records (raw_delimiter self.now) result.now }
    {
        &self.bytes
    }

    /// The bytes of its records, with their memory.
    pub fn into_bytes(self) -> Vec<u8>
        ensures { raw_records self ≡ text_records (raw_delimiter self) result.items }
    {
        let RawBlock { bytes, .. } = self;
        bytes
    }
}
