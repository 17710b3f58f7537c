ghost use Rattle.std.specs.Prelude.{◌≡◌, MatchResult, ok_or, ◌≢◌};
ghost use Rattle.policies.specs.declared.depth_isolation.tags.CellTag.{CellTag};
ghost use Rattle.policies.specs.declared.depth_isolation.tags.RegisterTag.{RegisterTag};
ghost use Rattle.policies.specs.declared.depth_isolation.tags.Code.{Code};
ghost use Rattle.policies.specs.declared.depth_isolation.violation.DepthViolation.TheVariants.{NotCode, UnknownTag};
ghost use Rattle.policies.specs.DepthTag.{Proper, ProperRegister, code_tag, code_number, cell_tag, cell_number, register_tag, register_number};

use super::violation::DepthViolation;

/// What a code cell may do beside being fetched.
#[derive(Clone, Copy, PartialEq, Eq, Debug)]
pub enum Code {
    Ordinary,
    /// a store from here claims an empty cell for a frame
    Claiming,
    /// a store from here makes a frame cell empty again
    Clearing,
}

/// What the tag of a memory cell says.
#[derive(Clone, Copy, PartialEq, Eq, Debug)]
pub enum CellTag {
    Plain,
    Empty,
    Code(Code),
    /// data in the frame of a depth
    Frame(u8),
    /// a link saved in the frame of a depth
    SavedLink(u8),
}

/// What the tag of a register says.
#[derive(Clone, Copy, PartialEq, Eq, Debug)]
pub enum RegisterTag {
    Data,
    /// a return address, made by a call at this depth
    Link(u8),
}

impl TryFrom<u32> for Code {
    type Error = DepthViolation;

    ghost try_from_gives = { λ number r. r ≡ ok_or (code_tag number) NotCode };

    fn try_from(number: u32) -> Result<Code, DepthViolation>
        ensures kind { result ≡ ok_or (code_tag number) NotCode }
        ensures numbered { MatchResult result (λ code. code_number code ≡ number) (λ _. (code : Code) → code_number code ≢ number) }
    {
        match number {
            16 => Ok(Code::Ordinary),
            17 => Ok(Code::Claiming),
            18 => Ok(Code::Clearing),
            _ => Err(DepthViolation::NotCode),
        }
    }
}

impl From<Code> for u32 {
    ghost from_gives = { λ code number. number ≡ code_number code };

    fn from(code: Code) -> u32 {
        match code {
            Code::Ordinary => 16,
            Code::Claiming => 17,
            Code::Clearing => 18,
        }
    }
}

impl TryFrom<u32> for CellTag {
    type Error = DepthViolation;

    ghost try_from_gives = { λ number r. r ≡ ok_or (cell_tag number) UnknownTag };

    fn try_from(number: u32) -> Result<CellTag, DepthViolation>
        ensures tag { result ≡ ok_or (cell_tag number) UnknownTag }
        ensures numbered { MatchResult result (λ tag. Proper tag × (cell_number tag ≡ number)) (λ _. (tag : CellTag) → Proper tag → cell_number tag ≢ number) }
    {
        if let Ok(code) = Code::try_from(number) {
            return Ok(CellTag::Code(code));
        }
        match number {
            0 => Ok(CellTag::Plain),
            1 => Ok(CellTag::Empty),
            256..=511 => Ok(CellTag::Frame((number - 256) as u8)),
            769..=1023 => Ok(CellTag::SavedLink((number - 768) as u8)),
            _ => Err(DepthViolation::UnknownTag),
        }
    }
}

impl From<CellTag> for u32 {
    ghost from_gives = { λ tag number. number ≡ cell_number tag };

    fn from(tag: CellTag) -> u32 {
        match tag {
            CellTag::Plain => 0,
            CellTag::Empty => 1,
            CellTag::Code(code) => u32::from(code),
            CellTag::Frame(depth) => 256 + u32::from(depth),
            CellTag::SavedLink(depth) => 768 + u32::from(depth),
        }
    }
}

impl TryFrom<u32> for RegisterTag {
    type Error = DepthViolation;

    ghost try_from_gives = { λ number r. r ≡ ok_or (register_tag number) UnknownTag };

    fn try_from(number: u32) -> Result<RegisterTag, DepthViolation>
        ensures tag { result ≡ ok_or (register_tag number) UnknownTag }
        ensures numbered { MatchResult result (λ tag. ProperRegister tag × (register_number tag ≡ number)) (λ _. (tag : RegisterTag) → ProperRegister tag → register_number tag ≢ number) }
    {
        match number {
            0 => Ok(RegisterTag::Data),
            512..=767 => Ok(RegisterTag::Link((number - 512) as u8)),
            _ => Err(DepthViolation::UnknownTag),
        }
    }
}

impl From<RegisterTag> for u32 {
    ghost from_gives = { λ tag number. number ≡ register_number tag };

    fn from(tag: RegisterTag) -> u32 {
        match tag {
            RegisterTag::Data => 0,
            RegisterTag::Link(depth) => 512 + u32::from(depth),
        }
    }
}
