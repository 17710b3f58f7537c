ghost use Rattle.std.specs.Prelude.{◌≡◌, ◌+◌, ◌*◌, ◌^◌, ◌<◌, Some};
ghost use Rattle.std.specs.Option.{SomeIff};
ghost use Rattle.transcript.specs.Line.{start, with_digit, pause, feed, all, six, line_numbers, ReadsBack};
ghost use Rattle.transcript.specs.Reading.{seen, Steps};

use arrayvec::ArrayVec;

/// How many numbers a line has.
pub const COUNT: usize = 6;

// A line as far as it is read: the numbers that have ended, and the one that the last byte belongs to, if it was a digit.
#[derive(Drop)]
struct Reader {
    ended: ArrayVec<u32, COUNT>,
    current: Option<u32>,
}

/// The six numbers of `line`, each of digits alone and below 2^32, with blanks
/// (space, tab or carriage return) between them and perhaps around them; `None`
/// for any other line.
pub fn read_numbers(line: &[u8]) -> Option<[u32; COUNT]>
    ensures value { result ≡ line_numbers line.now }
    ensures reads_back { ReadsBack line.now result }
{
    let mut reader = Reader::new();
    for byte in line {
        reader = reader.feed(*byte)?;
    }
    reader.finish()
}

impl Reader {
    fn new() -> Reader
        ensures { Steps (Some start) (Some result) }
    {
        Reader {
            ended: ArrayVec::new(),
            current: None,
        }
    }

    fn feed(self, byte: u8) -> Option<Reader>
        ensures { Steps (feed (Some (seen self)) byte) result }
    {
        match byte {
            b'0'..=b'9' => self.with_digit(byte - b'0'),
            b' ' | b'\t' | b'\r' => self.pause(),
            _ => None,
        }
    }

    fn with_digit(self, digit: u8) -> Option<Reader>
        ensures { Steps (Some (with_digit (seen self) digit)) result }
    {
        let current = appended(self.current.unwrap_or(0), digit)?;
        Some(Reader {
            current: Some(current),
            ..self
        })
    }

    // The number that was being read, if any, has ended.
    fn pause(self) -> Option<Reader>
        ensures { Steps (Some (pause (seen self))) result }
    {
        let Some(number) = self.current else {
            return Some(self);
        };
        let mut ended = self.ended;
        ended.try_push(number).ok()?;
        Some(Reader {
            ended,
            current: None,
        })
    }

    fn finish(self) -> Option<[u32; COUNT]>
        ensures { result ≡ six (Some (all (seen self))) }
    {
        self.pause()?.ended.into_inner().ok()
    }
}

// `number` with one more digit at its end, if that fits.
fn appended(number: u32, digit: u8) -> Option<u32>
    ensures { SomeIff result (number * 10 + digit < 2 ^ 32) (number * 10 + digit) }
{
    number.checked_mul(10)?.checked_add(u32::from(digit))
}
