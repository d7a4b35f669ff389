// Places in a text.
ghost use Rattle.std.specs.Prelude.{◌≡◌};
ghost use Rattle.token.specs.Place.{first_place, step_place, place_at};
ghost use Rattle.token.specs.Helpers.{Steppable, Walkable};

// A byte's offset, and the line and the column at which it stands. Columns count bytes. No ghost field says that it is a place of a text (`Steppable`,
// `Walkable`): a caller may hand over one that is not, which is refused.
#[derive(Clone, Copy, PartialEq, Eq, Debug)]
pub struct Place {
    pub offset: usize,
    pub line: usize,
    pub column: usize,
}

impl Place {
    // Where every text starts.
    pub fn first() -> Self
        ensures { result ≡ first_place }
    {
        Self {
            offset: 0,
            line: 1,
            column: 1,
        }
    }

    // The place after one byte. No sum wraps: a place of a text of at most 67,108,864 bytes that has a byte left is `Steppable`.
    pub fn step(self, b: u8) -> Self
        requires { Steppable self }
        ensures { result ≡ step_place self b }
    {
        let offset = self.offset + 1;
        if b == b'\n' {
            let line = self.line + 1;
            return Self {
                offset,
                line,
                column: 1,
            };
        }
        let column = self.column + 1;
        Self {
            offset,
            column,
            ..self
        }
    }
}

// The place of the offset `to`, line by line from the place of an offset before it.
pub fn walk(text: &[u8], from: Place, to: usize) -> Place
    requires { Walkable text.now from to }
    ensures { result ≡ place_at text.now to }
{
    let s = &text[..to];
    let mut place = from;
    loop {
        let at = place.offset;
        if to <= at {
            return place;
        }
        let end = base::find::find(s, b'\n', at);
        let column = place.column + (end - at);
        let here = Place {
            offset: end,
            column,
            ..place
        };
        if to <= end {
            return here;
        }
        place = here.step(b'\n');
    }
}
