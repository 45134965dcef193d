// The states of a scan.

ghost use Rattle.std.specs.Prelude.{◌≡◌};
ghost use Rattle.tall_scan.specs.Scanning.{is_between, is_line_end, move, scan_step};

/// Where a scan stands in a text, as far as the ends of records depend on it.
#[derive(Clone, Copy, PartialEq, Eq, Debug)]
pub enum ScanState {
    /// Between records: at the front, or behind a line's end outside quotes.
    Between,
    /// Behind a delimiter or a closing quote: a quote here opens, or opens again.
    Quotable,
    /// In a field that does not begin with a quote, or behind text after a closing quote: a quote here is text.
    Unquoted,
    /// Between quotes.
    Quoted,
}

impl ScanState {
    // The state after a byte.
    #[inline(always)]
    pub(crate) fn after(self, delimiter: u8, byte: u8) -> ScanState
        ensures { result ≡ scan_step delimiter self byte }
    {
        let line = byte == b'\r' || byte == b'\n';
        match self {
            ScanState::Between if line => ScanState::Between,
            ScanState::Between if byte == b'"' => ScanState::Quoted,
            ScanState::Quotable if byte == b'"' => ScanState::Quoted,
            ScanState::Quoted if byte == b'"' => ScanState::Quotable,
            ScanState::Quoted => ScanState::Quoted,
            _ if byte == delimiter => ScanState::Quotable,
            _ if line => ScanState::Between,
            _ => ScanState::Unquoted,
        }
    }

    // Whether no record is begun.
    #[inline(always)]
    pub(crate) fn is_between(self) -> bool
        ensures { result ≡ is_between self }
    {
        matches!(self, ScanState::Between)
    }
}
