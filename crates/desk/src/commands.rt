// The commands, each by its word.
ghost use Rattle.std.specs.Prelude.{◌≡◌};
ghost use Rattle.desk.specs.Commands.{command_of};

#[derive(Clone, Copy)]
pub enum Command {
    Rewrite,
}

// The command that a word asks for, if it is one.
pub fn command_of(word: &[u8]) -> Option<Command>
    ensures { result ≡ command_of word.now }
{
    if word == b"rewrite".as_slice() {
        Some(Command::Rewrite)
    } else {
        None
    }
}
