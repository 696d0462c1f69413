// What is printed, as bytes at the start of a lent buffer: a wall's line, a refusal, a drawing, a soil's coefficients. A buffer without room for the longest line is left as it
// is, and 0 of its bytes are used.
#![tactic(auto)]

mod coefficients;
mod figures;
mod letters;
mod numbers;

ghost use Rattle.rules.specs.SheetLine.{line_text, refusal_text};
ghost use Rattle.rules.specs.Beyond.{Put, fitting, line_room, drawing_text};
ghost use Rattle.rules.specs.Coefficients.{coefficients_text};

use letters::Line;
use rules::{Answer, Coefficients, Drawn, LINE, LineNumbers, Refusal};

// A number has at most a sign and 19 digits, and behind it a space or the end of the line.
const NUMBER_ROOM: usize = 21;

// Room for any line.
pub const LINE_ROOM: usize = NUMBER_ROOM * LINE;

// The text of a wall's line: its number, the failures and the rest; and how many bytes it took.
pub fn line_text(numbers: LineNumbers, out: &mut [u8]) -> usize
    ensures { Put (fitting line_room (line_text numbers) out.old) out.old result out.new }
{
    if out.len() < LINE_ROOM {
        return 0;
    }
    let mut line = Line::new(out);
    line.put_signed(numbers[0]);
    line.put_failures(numbers[1]);
    line.put_rest(&numbers[2..]);
    line.used
}

// The text of a refusal: the word, its number and its place; and how many bytes it took.
pub fn refusal_text(answer: Answer, out: &mut [u8]) -> usize
    ensures { Put (fitting line_room (refusal_text answer) out.old) out.old result out.new }
{
    if out.len() < LINE_ROOM {
        return 0;
    }
    let mut line = Line::new(out);
    line.put_word(b"refused");
    line.put_spaced(i64::from(reply::number_of(answer)));
    line.put_spaced(i64::from(reply::place_of(answer)));
    line.put_byte(b'\n');
    line.used
}

// The text of a drawing, the name of its shape and every figure's bits in hex, or of its refusal; and how many bytes it took.
pub fn drawing_text(drawn: Result<Drawn, Refusal>, out: &mut [u8]) -> usize
    ensures { Put (fitting line_room (drawing_text drawn) out.old) out.old result out.new }
{
    if out.len() < LINE_ROOM {
        return 0;
    }
    let drawn = match drawn {
        Ok(drawn) => drawn,
        Err(refusal) => return refusal_text(Err(refusal), out),
    };
    let mut line = Line::new(out);
    line.put_drawn(drawn);
    line.used
}

// The text of a soil's coefficients, each behind its name, or of their refusal; and how many bytes it took.
pub fn coefficients_text(soil: Option<Coefficients>, out: &mut [u8]) -> usize
    ensures { Put (fitting line_room (coefficients_text soil) out.old) out.old result out.new }
{
    if out.len() < LINE_ROOM {
        return 0;
    }
    let mut line = Line::new(out);
    match soil {
        Some(coefficients) => line.put_named(coefficients),
        None => line.put_refused(),
    }
    line.used
}
