// How a line begins: blank, a comment, in the first column, or indented.
ghost use Rattle.std.specs.Prelude.{◌≡◌, ◌==◌, position};
ghost use Rattle.cursor.specs.Scan.{told, comment, lead};

use crate::place::{Cursor, Fault, Place};

#[derive(Clone, Copy)]
pub enum Lead {
    // the manifest ends
    Ends,
    // a line of nothing but spaces, which is passed
    Blank,
    // a comment, which is passed
    Remark,
    // anything else in the first column, which is left
    Flush,
    // anything else after spaces, which are passed
    Indented,
}

// How many bytes stand before the line's end, if it has one.
fn line_len(s: &[u8]) -> Option<usize>
    ensures { result ≡ position (λ b. b == 10) s.now }
{
    s.iter().position(|b| *b == b'\n')
}

impl Cursor<'_> {
    // Passes the line, with its end.
    fn skip_line(&mut self) -> Result<(), Fault>
        ensures { told (λ u. u) result self.new ≡ comment self.old.at self.old.rest.now }
    {
        let end = self.at + self.rest.len();
        let n = line_len(self.rest).ok_or(Fault::Syntax(Place { byte: end }))?;
        self.advance(n + 1);
        Ok(())
    }

    // Reads how a line begins, and passes it if it is nothing.
    pub fn lead(&mut self) -> Result<Lead, Fault>
        ensures { told (λ x. x) result self.new ≡ lead self.old.at self.old.rest.now }
    {
        let indented = matches!(self.rest, [b' ', ..]);
        self.skip_spaces();
        match self.rest {
            [] if indented => Err(Fault::Syntax(Place { byte: self.at })),
            [] => Ok(Lead::Ends),
            [b'\n', ..] => {
                self.advance(1);
                Ok(Lead::Blank)
            }
            [b'#', ..] => {
                self.skip_line()?;
                Ok(Lead::Remark)
            }
            _ if indented => Ok(Lead::Indented),
            _ => Ok(Lead::Flush),
        }
    }
}
