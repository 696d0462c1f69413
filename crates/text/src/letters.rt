// A line as it is put into a lent buffer, and the letters that every line is made of. Each part is put behind those that are there, where the buffer has the room.
ghost use Rattle.std.specs.Prelude.{◌≡◌, [], ◌∷◌, ◌≤◌, ◌<◌, length};
ghost use Rattle.text.specs.Placed.{HasRoom, Adds};
ghost use Rattle.rules.specs.SheetLine.{hex_digit, hex_digits};

// The buffer that is lent, and how many of its bytes are used.
#[derive(Drop)]
pub struct Line<'a> {
    out: &'a mut [u8],
    pub used: usize,
}

impl<'a> Line<'a> {
    // A line with nothing in it yet.
    pub fn new(out: &'a mut [u8]) -> Line<'a>
        ensures same_buffer { result.out.ghost_name ≡ out.entry.ghost_name }
        ensures as_it_was { result.out.now ≡ out.old }
        ensures unused { result.used ≡ 0 }
    {
        Line { out, used: 0 }
    }

    // One byte.
    pub fn put_byte(&mut self, byte: u8)
        requires { HasRoom 1 self.old }
        ensures { Adds 1 (byte ∷ []) self.old self.new }
    {
        self.out[self.used] = byte;
        self.used += 1;
    }

    // A word.
    pub fn put_word(&mut self, word: &[u8])
        requires { HasRoom (length word.now) self.old }
        ensures { Adds (length word.now) word.now self.old self.new }
    {
        let end = self.used + word.len();
        self.out[self.used..end].copy_from_slice(word);
        self.used = end;
    }

    // The last so many hex digits of a number: those of its sixteenth, and then the last one.
    pub fn put_hex(&mut self, places: usize, n: u64)
        requires { HasRoom places self.old }
        ensures { Adds places (hex_digits places n) self.old self.new }
    {
        if places == 0 {
            return;
        }
        self.put_hex(places - 1, n / 16);
        self.put_byte(hex_digit(n % 16));
    }
}

// 0 to 9 and a to f.
fn hex_digit(n: u64) -> u8
    requires { n < 16 }
    ensures { result ≡ hex_digit n }
{
    if n < 10 {
        b'0' + n as u8
    } else {
        b'a' + (n - 10) as u8
    }
}
