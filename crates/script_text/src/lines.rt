//! The lines of a text.
ghost use Rattle.std.specs.Prelude.{◌≡◌, ◌+◌, length};
ghost use Rattle.std.specs.Iterator.{YieldsFirstBy, at_most};
ghost use Rattle.script_text.specs.Lines.{bytes_left, lines_left, lines_of};

/// The lines of a text, which line feeds part.
#[derive(Drop)]
pub(crate) struct Lines<'text> {
    rest: Option<&'text [u8]>,
}

impl<'text> Lines<'text> {
    pub(crate) fn of(text: &'text [u8]) -> Lines<'text>
        ensures lines { lines_left result.rest ≡ lines_of text.now }
        ensures bytes { bytes_left result.rest ≡ length text.now + 1 }
    {
        Lines { rest: Some(text) }
    }
}

impl<'text> Iterator for Lines<'text> {
    type Item = &'text [u8];

    ghost remaining = { λ lines. at_most (bytes_left lines.rest) };

    ghost next_gives = { YieldsFirstBy (λ line. line.now) (λ lines. lines_left lines.rest) };

    fn next(&mut self) -> Option<&'text [u8]> {
        let text = self.rest?;
        match text.iter().position(|byte| *byte == b'\n') {
            Some(end) => {
                self.rest = Some(&text[end + 1..]);
                Some(&text[..end])
            }
            None => {
                self.rest = None;
                Some(text)
            }
        }
    }
}
