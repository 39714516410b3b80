// A reader: the lent table text and a place in it.
ghost use Rattle.std.specs.Prelude.{◌≡◌};
ghost use Rattle.read_tokens.specs.Readers.{reader_at};

#[derive(Clone, Copy)]
pub struct Reader<'a> {
    pub text: &'a [u8],
    pub at: usize,
}

impl<'a> Reader<'a> {
    // A reader at the start of a text.
    pub fn new(text: &'a [u8]) -> Self
        ensures { result ≡ reader_at text.entry 0 }
    {
        Reader { text, at: 0 }
    }
}
