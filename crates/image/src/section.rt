ghost use Rattle.std.specs.Prelude.{◌≡◌, ◌+◌, ◌≤◌, true, false, length, take, drop, MatchResult};
ghost use Rattle.image.specs.Bytes.{Bytes, field};
ghost use Rattle.image.specs.Reading.{Lies, Missed, Within, Opened};
ghost use Rattle.image.specs.Section.{marked, window};

use crate::fault::ReadFault;

mod kind;
mod part;

pub use part::{Loaded, cells_named, load};

// How many bytes stand before the body of a section: its length and its kind.
const HEAD: usize = 6;

// Where to read on in an image, and where to stop. The image is lent beside these numbers: so each call says anew that
// they lie in it, and a walk is a `while` and no `Iterator`, whose `next` would have no image.
#[derive(Clone, Copy)]
struct Reader {
    place: usize,
    end: usize,
}

// Where a section stands in an image that is lent beside it, its kind, and the length of its body.
#[derive(Clone, Copy)]
struct Span {
    place: usize,
    kind: u16,
    length: usize,
}

impl Reader {
    // What it has before it.
    fn rest(self, image: &[u8]) -> &[u8]
        requires { Within self image.now }
        ensures { result.now ≡ window self image.now }
    {
        &image[self.place..self.end]
    }

    // The next section, which the reader then has behind it; where it is cut short the reader stays.
    fn section(&mut self, image: &[u8]) -> Result<Span, ReadFault>
        requires { Within self.old image.now }
        ensures { MatchResult result (Opened image.now self.old self.new) (Missed image.now self.old self.new) }
    {
        let place = self.place;
        let rest = self.rest(image);
        if rest.len() < HEAD {
            return Err(ReadFault {
                section: place,
                place,
                wanted: HEAD,
            });
        }
        let length = u32_at(rest, 0) as usize;
        if rest.len() - HEAD < length {
            return Err(ReadFault {
                section: place,
                place: place + HEAD,
                wanted: length,
            });
        }
        self.place = place + HEAD + length;
        Ok(Span {
            place,
            kind: u16_at(rest, 4),
            length,
        })
    }
}

impl Span {
    fn body(self, image: &[u8]) -> &[u8]
        requires { Lies self image.now }
        ensures marked { result.now ≡ (marked image.now self).body }
        ensures length { length result.now ≡ self.length }
        ensures bytes { Bytes result.now }
    {
        let start = self.place + HEAD;
        &image[start..start + self.length]
    }
}

// The number in two bytes at a place. A trait over `u16` and `u32` would be longer than these two lines.
fn u16_at(image: &[u8], place: usize) -> u16
    requires { place + 2 ≤ length image.now }
    ensures { result ≡ field 2 place image.now }
{
    u16::from_le_bytes(bytes_at(image, place))
}

// The number in four bytes at a place.
fn u32_at(image: &[u8], place: usize) -> u32
    requires { place + 4 ≤ length image.now }
    ensures { result ≡ field 4 place image.now }
{
    u32::from_le_bytes(bytes_at(image, place))
}

// So many bytes at a place.
fn bytes_at<const N: usize>(image: &[u8], place: usize) -> [u8; N]
    requires { place + N ≤ length image.now }
    ensures { result ≡ take N (drop place image.now) }
{
    *image[place..].first_chunk().unwrap()
}
