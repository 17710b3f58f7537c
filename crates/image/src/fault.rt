ghost use Rattle.std.specs.Prelude.{◌≡◌, Some};
ghost use Rattle.image.specs.declared.fault.LoadFault.TheVariants.{Read};
ghost use Rattle.image.specs.Fault.{fault_place, fault_refusal, fault_text, read_text};

use refusal::Refusal;
use std::error::Error;
use std::fmt;

/// Where a reader met the end of its bytes.
#[derive(Clone, Copy, Debug, PartialEq, Eq)]
pub struct ReadFault {
    /// where the section begins that it was reading
    pub section: usize,
    /// where it stood
    pub place: usize,
    /// how many bytes it wanted from there
    pub wanted: usize,
}

/// Why an image is not loaded.
#[derive(Clone, Copy, Debug, PartialEq, Eq)]
pub enum LoadFault {
    /// a section is cut short
    Read(ReadFault),
    /// what stands at this place is refused; the call itself, for its sizes, at place 0
    Judged { refusal: Refusal, place: usize },
}

impl LoadFault {
    pub fn refusal(self) -> Refusal
        ensures { result ≡ fault_refusal self }
    {
        match self {
            LoadFault::Read(_) => Refusal::CutShort,
            LoadFault::Judged { refusal, .. } => refusal,
        }
    }

    /// Where the section begins that is refused.
    pub fn place(self) -> usize
        ensures { result ≡ fault_place self }
    {
        match self {
            LoadFault::Read(fault) => fault.section,
            LoadFault::Judged { place, .. } => place,
        }
    }
}

impl From<ReadFault> for LoadFault {
    ghost from_gives = { λ fault r. r ≡ Read fault };

    fn from(cut: ReadFault) -> LoadFault {
        LoadFault::Read(cut)
    }
}

impl fmt::Display for ReadFault {
    ghost output = { λ fault. Some (read_text fault) };

    fn fmt<W: fmt::Write>(&self, f: &mut fmt::Formatter<W>) -> fmt::Result {
        let section = self.section;
        let wanted = self.wanted;
        let place = self.place;
        write!(
            f,
            "the section at {section} is cut short: {wanted} bytes from {place} on"
        )
    }
}

impl Error for ReadFault {}

impl fmt::Display for LoadFault {
    ghost output = { λ fault. Some (fault_text fault) };

    fn fmt<W: fmt::Write>(&self, f: &mut fmt::Formatter<W>) -> fmt::Result {
        let number = u8::from(self.refusal());
        let place = self.place();
        write!(f, "refused {number} {place}")
    }
}

impl Error for LoadFault {}
