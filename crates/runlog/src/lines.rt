// Pieces of a text, and its lines.
ghost use Rattle.std.specs.Prelude.{◌≡◌};
ghost use Rattle.std.specs.Iterator.{YieldsFirstRef, item_count};
ghost use Rattle.runlog.specs.Texts.{Cut, lines};

pub const SPACE: u8 = b' ';

pub const LF: u8 = b'\n';

// What stands before the first of a byte in a text, and what stands after it; none where the text lacks that byte.
pub fn cut(text: &[u8], at: u8) -> Option<(&[u8], &[u8])>
    ensures { Cut at text.now result }
{
    let i = text.iter().position(|byte| *byte == at)?;
    Some((&text[..i], &text[i + 1..]))
}

// The lines of a text, one after the other, without their LF. The library's `split` has one piece more, after the last LF.
#[derive(Drop)]
pub struct Lines<'a> {
    rest: &'a [u8],
}

impl<'a> Lines<'a> {
    pub fn of(text: &'a [u8]) -> Lines<'a>
        ensures { result.rest.now ≡ text.now }
    {
        Lines { rest: text }
    }
}

impl<'a> Iterator for Lines<'a> {
    type Item = &'a [u8];

    ghost next_gives = { YieldsFirstRef (λ s. lines s.rest.now) };

    ghost remaining = { item_count (λ s. lines s.rest.now) };

    fn next(&mut self) -> Option<&'a [u8]> {
        if self.rest.is_empty() {
            return None;
        }
        let (line, rest) = cut(self.rest, LF).unwrap_or((self.rest, &[]));
        self.rest = rest;
        Some(line)
    }
}
