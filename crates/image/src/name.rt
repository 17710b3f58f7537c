ghost use Rattle.std.specs.Prelude.{◌≡◌, option_copied};
ghost use Rattle.image.specs.Lookup.{first_at, text_in, text_of};

/// A name in an image: the address that it names, and where its bytes stand.
#[derive(Clone, Copy, Debug)]
pub struct Name {
    pub address: u16,
    /// where its first byte stands in the image
    pub place: usize,
    pub length: usize,
}

impl Name {
    /// What a place of a journal can hold before a name stands there.
    pub const BLANK: Name = Name {
        address: 0,
        place: 0,
        length: 0,
    };

    /// The name's bytes; absent where they lie outside this image.
    pub fn text(self, image: &[u8]) -> Option<&[u8]>
        ensures { option_copied result ≡ text_in image.now self }
    {
        image.get(self.place..)?.get(..self.length)
    }
}

/// The bytes of the first of these names at an address; absent where there is none, or where it lies outside this
/// image.
pub fn first_name<'i>(names: &[Name], image: &'i [u8], address: u16) -> Option<&'i [u8]>
    ensures { option_copied result ≡ text_of image.now (first_at address names.now) }
{
    find(names, address)?.text(image)
}

fn find(names: &[Name], address: u16) -> Option<Name>
    ensures { result ≡ first_at address names.now }
{
    names.iter().find(|name| name.address == address).copied()
}
