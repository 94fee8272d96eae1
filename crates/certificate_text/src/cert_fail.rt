use presentation_text::DocKind;

/// The first line of a certificate that is refused, by its number in the whole text, also where it is missing behind the last
/// one; and why.
#[derive(Clone, Copy, Debug, PartialEq, Eq)]
pub struct CertFail {
    pub line: u32,
    pub kind: DocKind,
}

/// Why a certificate isn't read.
#[derive(Clone, Copy, Debug, PartialEq, Eq)]
pub enum ReadCertFail {
    At(CertFail),
    NoMemory,
}
