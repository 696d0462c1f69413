// A line's numbers, each put behind what is there.
ghost use Rattle.std.specs.Prelude.{◌+◌, ◌*◌, ◌^◌, ◌<◌, length};
ghost use Rattle.text.specs.Placed.{HasRoom, Adds, spaced_number, spaced_failures};
ghost use Rattle.rules.specs.SheetLine.{decimal, signed_decimal, line_rest};
ghost use Rattle.rules.specs.Beyond.{number_room};

use crate::letters::Line;

impl Line<'_> {
    // A whole number of at most 19 digits: those of its tenth, and then the last one.
    pub fn put_decimal(&mut self, n: u64)
        requires { (n < 10 ^ 19) × HasRoom 19 self.old }
        ensures { Adds 19 (decimal n) self.old self.new }
    {
        if n >= 10 {
            self.put_decimal(n / 10);
        }
        self.put_byte(b'0' + (n % 10) as u8);
    }

    // A signed number: a minus sign where it is below 0. One less than its opposite always fits.
    pub fn put_signed(&mut self, z: i64)
        requires { HasRoom 20 self.old }
        ensures { Adds 20 (signed_decimal z) self.old self.new }
    {
        if z < 0 {
            self.put_byte(b'-');
            self.put_decimal(whole::above_zero(-1 - z) + 1);
        } else {
            self.put_decimal(whole::above_zero(z));
        }
    }

    // A space, and then a signed number.
    pub fn put_spaced(&mut self, z: i64)
        requires { HasRoom number_room self.old }
        ensures { Adds number_room (spaced_number z) self.old self.new }
    {
        self.put_byte(b' ');
        self.put_signed(z);
    }

    // A space, and then the failures in three hex digits.
    pub fn put_failures(&mut self, failures: i64)
        requires { HasRoom 4 self.old }
        ensures { Adds 4 (spaced_failures failures) self.old self.new }
    {
        self.put_byte(b' ');
        self.put_hex(3, whole::above_zero(failures));
    }

    // The numbers behind the failures, and the end of the line.
    pub fn put_rest(&mut self, rest: &[i64])
        requires { HasRoom (number_room * length rest.now + 1) self.old }
        ensures { Adds (number_room * length rest.now + 1) (line_rest rest.now) self.old self.new }
    {
        for &number in rest {
            self.put_spaced(number);
        }
        self.put_byte(b'\n');
    }
}
