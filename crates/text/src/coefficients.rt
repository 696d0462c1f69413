// The coefficients that a soil's angle gives, each behind its name.
ghost use Rattle.text.specs.Placed.{HasRoom, Adds};
ghost use Rattle.rules.specs.Beyond.{line_room};
ghost use Rattle.rules.specs.Coefficients.{named_text, refused_text};

use crate::letters::Line;
use rules::Coefficients;

impl Line<'_> {
    // Both, and the end of the line.
    pub fn put_named(&mut self, soil: Coefficients)
        requires { HasRoom line_room self.old }
        ensures { Adds line_room (named_text soil.rest soil.active) self.old self.new }
    {
        self.put_word(b"K0 ");
        self.put_decimal(u64::from(soil.rest));
        self.put_word(b" Ka ");
        self.put_decimal(u64::from(soil.active));
        self.put_byte(b'\n');
    }

    // The refusal of an angle, and the end of the line.
    pub fn put_refused(&mut self)
        requires { HasRoom line_room self.old }
        ensures { Adds line_room refused_text self.old self.new }
    {
        self.put_word(b"refused 11 0");
        self.put_byte(b'\n');
    }
}
