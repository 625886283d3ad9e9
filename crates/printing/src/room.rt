ghost use Rattle.std.specs.Prelude.{◌≡◌, ◌^◌, ◌<◌, length};
ghost use Rattle.printing.specs.Bytes.{written};

use itoa::{Buffer, Integer};

// Writes the bytes over the first of the room, as many as there is room for.
fn write_over(bytes: &[u8], room: &mut [u8])
    ensures { room.new ≡ written bytes.now room.old }
{
    let count = bytes.len().min(room.len());
    room[..count].copy_from_slice(&bytes[..count]);
}

// Bytes that are lent for a text, and how long the text is so far, which may be longer than they are many. (A length that a
// usize cannot hold is told as the highest that it can.)
#[derive(Drop)]
pub struct Room<'a> {
    out: &'a mut [u8],
    len: usize,
    ghost few: { length out.now < 2 ^ 64 },
    ghost fits: { len < 2 ^ 64 },
}

impl<'a> Room<'a> {
    ghost use Rattle.std.specs.Fmt.{signed_decimal};
    ghost use Rattle.printing.specs.Putting.{Puts};

    // Room for a text that has no byte yet.
    pub fn new(out: &'a mut [u8]) -> Room<'a>
        ensures out { result.out.now ≡ out.old }
        ensures lender { result.out.ghost_name ≡ out.entry.ghost_name }
        ensures len { result.len ≡ 0 }
    {
        Room { out, len: 0 }
    }

    // How long the text is.
    pub fn len(&self) -> usize
        ensures { result ≡ self.now.len }
    {
        self.len
    }

    // Writes these bytes behind the text, as many as there is room for.
    pub fn put(&mut self, text: &str)
        ensures { Puts self.old text.now self.new }
    {
        let bytes = text.as_bytes();
        if self.len < self.out.len() {
            write_over(bytes, &mut self.out[self.len..]);
        }
        self.len = self.len.saturating_add(bytes.len());
    }

    // Writes a number behind the text, in decimal digits.
    pub fn put_number<I: Integer>(&mut self, number: I)
        ensures { Puts self.old (I.text number) self.new }
    {
        let mut buffer = Buffer::new();
        self.put(buffer.format(number));
    }

    // Writes a number that may be below 0.
    pub fn put_signed(&mut self, number: i64)
        ensures { Puts self.old (signed_decimal number) self.new }
    {
        self.put_number(number);
    }
}
