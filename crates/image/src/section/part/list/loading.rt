ghost use Rattle.std.specs.Prelude.{◌≡◌, ◌+◌, ◌^◌, ◌<◌, Bool, true, [], length, Some, MatchResult, OnErr};
ghost use Rattle.journal.specs.Journal.{elements, loan, room};
ghost use Rattle.machine.specs.Calls.{in_limits, start_state};
ghost use Rattle.image.specs.declared.fault.LoadFault.TheVariants.{Judged};
ghost use Rattle.image.specs.Cells.{cells_in, cells_named, header_cells, within_limits};
ghost use Rattle.image.specs.Judgement.{header_refusal, part_refusal, section_fault};
ghost use Rattle.image.specs.Loading.{Accepts, AtPart, ImageRefused, Loads, Refused, sized};
ghost use Rattle.image.specs.Names.{Lists};
ghost use Rattle.image.specs.Passing.{AllJudged, AllObeyed, HeaderRead, ImageObeyed, OneRefused, OneStops, PartJudged, PartObeyed, PartRead, Stops};
ghost use Rattle.image.specs.Reading.{Lies, Within};
ghost use Rattle.image.specs.Section.{marked, window};

use super::{Content, HEADER_LENGTH, Header, Reader, Span, clear, names_met, u16_at};
use crate::fault::LoadFault;
use crate::name::Name;
use journal::Journal;
use machine::{Cell, FEWEST_CELLS, Live, REGISTERS, in_limits};
use refusal::Refusal;

/// A machine that an image was loaded into.
#[derive(Drop)]
pub struct Loaded {
    pub live: Live,
    /// how many name lists break off
    pub broken: usize,
}

/// Loads an image: clears cells and registers, does what the sections say, in order, and appends the names.
/// A refused load alters nothing.
pub fn load(
    image: &[u8],
    cells: &mut [Cell],
    registers: &mut [Cell],
    names: &mut Journal<Name>,
) -> Result<Loaded, LoadFault>
    ensures loads { MatchResult result (λ loaded. Loads image.now (length cells.old) (elements names.old) (room names.old) loaded cells.new registers.new (elements names.new) (room names.new)) (λ fault. Refused image.now cells.old registers.old (elements names.old) (room names.old) fault cells.new registers.new (elements names.new) (room names.new)) }
    ensures loan { loan names.new ≡ loan names.old }
    ensures spares { OnErr result (names.new ≡ names.old) }
{
    if !fit(cells, registers) {
        return Err(refused(Refusal::Sizes, 0));
    }
    let header = judge(image, cells.len(), names.free())?;
    Ok(fill(header, image, cells, registers, names))
}

// Whether cells and registers are as many as a machine needs.
fn fit(cells: &[Cell], registers: &[Cell]) -> bool
    ensures { result ≡ sized cells.now registers.now }
{
    in_limits(cells.len()) && registers.len() == REGISTERS
}

// Loads an image that is not refused.
fn fill(
    header: Header,
    image: &[u8],
    cells: &mut [Cell],
    registers: &mut [Cell],
    names: &mut Journal<Name>,
) -> Loaded
    requires fits { sized cells.old registers.old ≡ true }
    requires accepts { Accepts (length cells.old) (length (room names.old)) image.now header }
    ensures loads { Loads image.now (length cells.old) (elements names.old) (room names.old) result cells.new registers.new (elements names.new) (room names.new) }
    ensures loan { loan names.new ≡ loan names.old }
{
    let live = header.live(cells);
    clear(cells);
    clear(registers);
    let broken = obey(image, cells, names).unwrap();
    Loaded { live, broken }
}

impl Header {
    // A machine at the start.
    fn live(self, cells: &[Cell]) -> Live
        requires { in_limits (length cells.now) ≡ true }
        ensures { result ≡ record { state = start_state self.start self.tag (length cells.now) } }
    {
        Live::start(u32::from(self.start), self.tag, cells).unwrap()
    }
}

fn refused(refusal: Refusal, place: usize) -> LoadFault
    ensures { result ≡ Judged refusal place }
{
    LoadFault::Judged { refusal, place }
}

impl Reader {
    fn over(image: &[u8]) -> Reader
        ensures { result ≡ record { place = 0; end = length image.now } }
    {
        Reader {
            place: 0,
            end: image.len(),
        }
    }

    fn header(&mut self, image: &[u8], size: usize) -> Result<Header, LoadFault>
        requires { Within self.old image.now }
        ensures { MatchResult result (HeaderRead size image.now self.old self.new) (λ fault. section_fault (header_refusal size) self.old.place (window self.old image.now) ≡ Some fault) }
    {
        let span = self.section(image)?;
        span.header(image, size)
            .map_err(|why| refused(why, span.place))
    }

    // The next section, and what it says.
    fn part<'i>(&mut self, image: &'i [u8], size: usize) -> Result<(Span, Content<'i>), LoadFault>
        requires { Within self.old image.now }
        ensures { MatchResult result (λ p. PartRead size image.now self.old self.new p.0 p.1) (λ fault. section_fault (part_refusal size) self.old.place (window self.old image.now) ≡ Some fault) }
    {
        let span = self.section(image)?;
        let content = span
            .content(image, size)
            .map_err(|refusal| refused(refusal, span.place))?;
        Ok((span, content))
    }

    // Judges the next section, with so many places for names, and says how many are left.
    fn judge_part(&mut self, image: &[u8], size: usize, free: usize) -> Result<usize, LoadFault>
        requires { Within self.old image.now }
        ensures { MatchResult result (PartJudged size image.now self.old self.new free) (AtPart size free self.old.place (window self.old image.now)) }
    {
        let (span, content) = self.part(image, size)?;
        match content {
            Content::Names => {
                let found = self.count_names(image, span, size);
                if found > free {
                    return Err(refused(Refusal::NamesFull, span.place));
                }
                Ok(free - found)
            }
            _ => Ok(free),
        }
    }

    // Reads the names into a journal that has no place for any.
    fn count_names(&mut self, image: &[u8], list: Span, size: usize) -> usize
        requires lies { Lies list image.now }
        requires passed { list.place + 6 + list.length ≡ self.old.place }
        ensures lists { (whole : Bool) × Lists size (list.place + 6) (marked image.now list).body [] [] [] [] result whole }
        ensures stands { self.new ≡ self.old }
    {
        let mut none: [Name; 0] = [];
        let mut nowhere = Journal::over(&mut none);
        names_met(self.list(image, list, size, &mut nowhere))
    }

    // Does what the next section says, and says whether it is a name list that breaks off.
    fn obey_part(
        &mut self,
        image: &[u8],
        cells: &mut [Cell],
        names: &mut Journal<Name>,
    ) -> Result<bool, LoadFault>
        requires { Within self.old image.now }
        ensures obeys { MatchResult result (PartObeyed (length cells.old) image.now self.old self.new cells.old cells.new (elements names.old) (room names.old) (elements names.new) (room names.new)) (λ fault. section_fault (part_refusal (length cells.old)) self.old.place (window self.old image.now) ≡ Some fault) }
        ensures loan { loan names.new ≡ loan names.old }
    {
        let size = cells.len();
        let (span, content) = self.part(image, size)?;
        content.store(cells);
        match content {
            Content::Names => Ok(self.list(image, span, size, names).is_err()),
            _ => Ok(false),
        }
    }
}

// Its loop and that of `obey_parts` have one line in common, and no fact: one function for both is no plainer.
fn judge_parts(
    mut reader: Reader,
    image: &[u8],
    size: usize,
    mut free: usize,
) -> Result<(), LoadFault>
    requires { Within reader image.now }
    ensures { MatchResult result (λ _. AllJudged size image.now reader free) (OneRefused size image.now reader free) }
{
    while reader.place < reader.end {
        free = reader.judge_part(image, size, free)?;
    }
    Ok(())
}

fn obey_parts(
    mut reader: Reader,
    image: &[u8],
    cells: &mut [Cell],
    names: &mut Journal<Name>,
) -> Result<usize, LoadFault>
    requires { Within reader image.now }
    ensures obeys { MatchResult result (AllObeyed (length cells.old) image.now reader cells.old cells.new (elements names.old) (room names.old) (elements names.new) (room names.new)) (OneStops (length cells.old) image.now reader) }
    ensures loan { loan names.new ≡ loan names.old }
{
    let mut broken: usize = 0;
    while reader.place < reader.end {
        let breaks = reader.obey_part(image, cells, names)?;
        broken += usize::from(breaks);
    }
    Ok(broken)
}

// Judges all sections, with so many places for names, and gives the header.
fn judge(image: &[u8], size: usize, free: usize) -> Result<Header, LoadFault>
    requires { size < 2 ^ 16 }
    ensures { MatchResult result (Accepts size free image.now) (ImageRefused size free image.now) }
{
    let mut reader = Reader::over(image);
    let header = reader.header(image, size)?;
    judge_parts(reader, image, size, free)?;
    Ok(header)
}

// Does what all sections say, and says how many name lists break off.
fn obey(image: &[u8], cells: &mut [Cell], names: &mut Journal<Name>) -> Result<usize, LoadFault>
    ensures obeys { MatchResult result (ImageObeyed (length cells.old) image.now cells.old cells.new (elements names.old) (room names.old) (elements names.new) (room names.new)) (Stops (length cells.old) image.now) }
    ensures loan { loan names.new ≡ loan names.old }
{
    let mut reader = Reader::over(image);
    let _ = reader.header(image, cells.len())?;
    obey_parts(reader, image, cells, names)
}

/// How many cells to hand over for an image: as many as its header names, or the fewest where there is no header or
/// no machine has that many.
pub fn cells_named(image: &[u8]) -> usize
    ensures { result ≡ cells_named image.now }
{
    header_cells(image).map_or(FEWEST_CELLS, |cells| limited(usize::from(cells)))
}

fn limited(cells: usize) -> usize
    ensures { result ≡ within_limits cells }
{
    if in_limits(cells) {
        cells
    } else {
        FEWEST_CELLS
    }
}

// The cells that the header names, if there is one.
fn header_cells(image: &[u8]) -> Option<u16>
    ensures { result ≡ header_cells image.now }
{
    Reader::over(image).section(image).ok()?.cells(image)
}

impl Span {
    fn cells(self, image: &[u8]) -> Option<u16>
        requires { Lies self image.now }
        ensures { result ≡ cells_in (marked image.now self) }
    {
        let body = self.body(image);
        if !self.is_header() || body.len() != HEADER_LENGTH {
            return None;
        }
        Some(u16_at(body, 0))
    }
}
