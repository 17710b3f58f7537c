ghost use Rattle.std.specs.Prelude.{◌≡◌, ◌+◌, ◌*◌, ◌/◌, ◌%◌, ◌^◌, ◌<◌, ◌≤◌, ◌&&◌, length, replicate, IfOk, ◌==◌, nat_le, nat_lt, map};
ghost use Rattle.std.specs.Result.{result_err};
ghost use Rattle.machine.specs.Cells.{blank};
ghost use Rattle.image.specs.Bytes.{field};
ghost use Rattle.image.specs.Content.{Reaches, Says, all_words, content_stored, words_in};
ghost use Rattle.image.specs.Judgement.{header_refusal, part_refusal};
ghost use Rattle.image.specs.Part.{HeaderFits, header_section, words as words_part, tags as tags_part};
ghost use Rattle.image.specs.Reading.{Lies};
ghost use Rattle.image.specs.Section.{marked};
ghost use Rattle.image.specs.Stored.{stored, tagged};

use super::kind::Kind;
use super::{HEAD, Reader, Span, u16_at, u32_at};
use machine::Cell;
use refusal::Refusal;

mod list;

pub use list::{Loaded, cells_named, load};

// An address or a size, another number of two bytes, and a tag.
const HEADER_LENGTH: usize = 8;

const TAGS_LENGTH: usize = 8;

// What the first section says.
#[derive(Clone, Copy)]
struct Header {
    cells: u16,
    start: u16,
    tag: u32,
}

// What a later section says.
#[derive(Clone, Copy)]
enum Content<'i> {
    // words from an address on, four bytes each
    Words {
        address: u16,
        tag: u32,
        bytes: &'i [u8],
    },
    Tags {
        address: u16,
        count: u16,
        tag: u32,
    },
    Names,
    Note,
}

impl Span {
    fn is_header(self) -> bool
        ensures { result ≡ (self.kind == 1) }
    {
        Kind::try_from(self.kind) == Ok(Kind::Header)
    }

    fn header(self, image: &[u8], size: usize) -> Result<Header, Refusal>
        requires { Lies self image.now }
        ensures refused { result_err result ≡ header_refusal size (marked image.now self) }
        ensures says { IfOk result (λ h. (marked image.now self ≡ header_section h) × HeaderFits size h) }
    {
        if !self.is_header() {
            return Err(Refusal::SectionOrder);
        }
        let body = self.body(image);
        if body.len() != HEADER_LENGTH {
            return Err(Refusal::BodyLength);
        }
        let header = Header {
            cells: u16_at(body, 0),
            start: u16_at(body, 2),
            tag: u32_at(body, 4),
        };
        if !header.suits(size) {
            return Err(Refusal::HeaderValues);
        }
        Ok(header)
    }

    fn content(self, image: &[u8], size: usize) -> Result<Content<'_>, Refusal>
        requires { Lies self image.now }
        ensures refused { result_err result ≡ part_refusal size (marked image.now self) }
        ensures says { IfOk result (Says size image.now self) }
    {
        match Kind::try_from(self.kind)? {
            Kind::Header => Err(Refusal::SectionOrder),
            Kind::Words => self.words(image, size),
            Kind::Tags => self.tags(image, size),
            Kind::Names => Ok(Content::Names),
            Kind::Note => Ok(Content::Note),
        }
    }

    fn words(self, image: &[u8], size: usize) -> Result<Content<'_>, Refusal>
        requires lies { Lies self image.now }
        requires kind { self.kind ≡ 2 }
        ensures refused { result_err result ≡ part_refusal size (marked image.now self) }
        ensures says { IfOk result (Says size image.now self) }
    {
        let body = self.body(image);
        if !holds_words(body.len()) {
            return Err(Refusal::BodyLength);
        }
        let address = u16_at(body, 0);
        let count = (body.len() - 6) / 4;
        if passes(size, address, count) {
            return Err(Refusal::PastCells);
        }
        Ok(Content::Words {
            address,
            tag: u32_at(body, 2),
            bytes: &body[6..],
        })
    }

    fn tags(self, image: &[u8], size: usize) -> Result<Content<'_>, Refusal>
        requires lies { Lies self image.now }
        requires kind { self.kind ≡ 3 }
        ensures refused { result_err result ≡ part_refusal size (marked image.now self) }
        ensures says { IfOk result (Says size image.now self) }
    {
        let body = self.body(image);
        if body.len() != TAGS_LENGTH {
            return Err(Refusal::BodyLength);
        }
        let address = u16_at(body, 0);
        let count = u16_at(body, 2);
        if passes(size, address, usize::from(count)) {
            return Err(Refusal::PastCells);
        }
        Ok(Content::Tags {
            address,
            count,
            tag: u32_at(body, 4),
        })
    }
}

impl Header {
    fn suits(self, size: usize) -> bool
        ensures { result ≡ (self.cells == size && nat_lt self.start size) }
    {
        usize::from(self.cells) == size && usize::from(self.start) < size
    }
}

// Whether a body of so many bytes holds an address, a tag and one word or more.
fn holds_words(length: usize) -> bool
    ensures { result ≡ (nat_le 10 length && length % 4 == 2) }
{
    length >= 10 && length % 4 == 2
}

// Whether so many cells from an address on are not all there.
fn passes(size: usize, address: u16, count: usize) -> bool
    requires { count < 2 ^ 32 }
    ensures { result ≡ nat_lt size (address + count) }
{
    usize::from(address) + count > size
}

impl Content<'_> {
    // Does what the section says to the cells; names are no concern of theirs.
    fn store(self, cells: &mut [Cell])
        requires { Reaches (length cells.old) self }
        ensures { cells.new ≡ content_stored self.entry cells.old }
    {
        match self {
            Content::Words {
                address,
                tag,
                bytes,
            } => set_words(cells, usize::from(address), bytes, tag),
            Content::Tags {
                address,
                count,
                tag,
            } => set_tags(cells, usize::from(address), usize::from(count), tag),
            Content::Names => {}
            Content::Note => {}
        }
    }
}

fn set_words(cells: &mut [Cell], address: usize, bytes: &[u8], tag: u32)
    requires { address + length bytes.now / 4 ≤ length cells.old }
    ensures { cells.new ≡ stored (words_part address tag (all_words bytes.now)) cells.old }
{
    store_words(&mut cells[address..address + bytes.len() / 4], bytes, tag);
}

fn set_tags(cells: &mut [Cell], address: usize, count: usize, tag: u32)
    requires { address + count ≤ length cells.old }
    ensures { cells.new ≡ stored (tags_part address count tag) cells.old }
{
    store_tags(&mut cells[address..address + count], tag);
}

// Sets each cell to a word of four bytes, with one tag. By the index, since the library says nothing of cells lent by a `zip`
// over `iter_mut`.
fn store_words(cells: &mut [Cell], bytes: &[u8], tag: u32)
    requires { 4 * length cells.old ≤ length bytes.now }
    ensures { cells.new ≡ map (tagged tag) (words_in (length cells.old) bytes.now) }
{
    for (i, cell) in cells.iter_mut().enumerate() {
        store_word(cell, bytes, 4 * i, tag);
    }
}

fn store_word(cell: &mut Cell, bytes: &[u8], place: usize, tag: u32)
    requires { place + 4 ≤ length bytes.now }
    ensures { cell.new ≡ tagged tag (field 4 place bytes.now) }
{
    *cell = Cell {
        word: u32_at(bytes, place),
        tag,
    };
}

// The words stay.
fn store_tags(cells: &mut [Cell], tag: u32)
    ensures { cells.new ≡ map (λ cell. tagged tag cell.word) cells.old }
{
    for cell in cells.iter_mut() {
        store_tag(cell, tag);
    }
}

fn store_tag(cell: &mut Cell, tag: u32)
    ensures { cell.new ≡ tagged tag cell.old.word }
{
    cell.tag = tag;
}

fn clear(cells: &mut [Cell])
    ensures { cells.new ≡ replicate (length cells.old) blank }
{
    cells.fill(Cell::BLANK);
}
