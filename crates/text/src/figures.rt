// A drawing's figures, each put behind what is there.
ghost use Rattle.std.specs.Prelude.{◌≡◌, [], ◌∷◌, ◌≤◌, length};
ghost use Rattle.std.specs.Float.{binary64};
ghost use Rattle.std.specs.Float.Ieee.{to_bits};
ghost use Rattle.text.specs.Placed.{HasRoom, Adds};
ghost use Rattle.rules.specs.Beyond.{line_room, shape_name, shape_figures, figures_text, drawn_text};

use crate::letters::Line;
use rules::{Drawn, Shape};

// The bits that stand for what is no number, which no drawing has.
const NOT_A_NUMBER: u64 = 0x7ff8000000000000;

// A double's bits.
fn bits_of(x: f64) -> u64
    ensures { result ≡ to_bits binary64 x }
{
    if x.is_nan() {
        NOT_A_NUMBER
    } else {
        x.to_bits()
    }
}

// A shape's name.
fn name_of(shape: Shape) -> &'static [u8]
    ensures { (result.now ≡ shape_name shape) × (length result.now ≤ 7) }
{
    match shape {
        Shape::Whole(_, _) => b"whole",
        Shape::ToeTriangle(_, _) => b"toe",
        Shape::HeelTriangle(_, _) => b"heel",
        Shape::Nothing => b"nothing",
    }
}

impl Line<'_> {
    // A space, and then a figure's bits in hex.
    fn put_figure(&mut self, x: f64)
        requires { HasRoom 17 self.old }
        ensures { Adds 17 (figures_text (x ∷ [])) self.old self.new }
    {
        self.put_byte(b' ');
        self.put_hex(16, bits_of(x));
    }

    // Two figures.
    fn put_pair(&mut self, x: f64, y: f64)
        requires { HasRoom 34 self.old }
        ensures { Adds 34 (figures_text (x ∷ y ∷ [])) self.old self.new }
    {
        self.put_figure(x);
        self.put_figure(y);
    }

    // The shape's own figures.
    fn put_shape_figures(&mut self, shape: Shape)
        requires { HasRoom 34 self.old }
        ensures { Adds 34 (figures_text (shape_figures shape)) self.old self.new }
    {
        match shape {
            Shape::Whole(first, second)
            | Shape::ToeTriangle(first, second)
            | Shape::HeelTriangle(first, second) => self.put_pair(first, second),
            Shape::Nothing => {}
        }
    }

    // The whole drawing: the name, the drawing record's figures, the shape's, and the end of the line.
    pub fn put_drawn(&mut self, drawn: Drawn)
        requires { HasRoom line_room self.old }
        ensures { Adds line_room (drawn_text drawn) self.old self.new }
    {
        let drawing = drawn.drawing;
        let shape = drawn.shape;
        self.put_word(name_of(shape));
        self.put_pair(drawing.R, drawing.H);
        self.put_figure(drawing.distance);
        self.put_shape_figures(shape);
        self.put_byte(b'\n');
    }
}
