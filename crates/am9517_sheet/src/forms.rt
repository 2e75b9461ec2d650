// What a form of the sheet decides.
ghost use Rattle.std.specs.Prelude.{◌≡◌};

// The bytes of a body from its channels on, in either form.
const CORE: usize = 48;

// The bytes of a body of form 2, in which every field has its place.
pub const BODY: usize = 50;

#[derive(Clone, Copy, PartialEq, Eq)]
pub enum Form {
    One,
    Two,
}

impl Form {
    ghost use Rattle.am9517_sheet.specs.Form.{other, number, channels_at, body_size, sheet_size};

    // The other of the two.
    pub(crate) fn other(self) -> Form
        ensures { result ≡ other self }
    {
        match self {
            Form::One => Form::Two,
            Form::Two => Form::One,
        }
    }

    // What the first two bytes of its trailer say.
    pub(crate) fn number(self) -> u16
        ensures { result ≡ number self }
    {
        match self {
            Form::One => 1,
            Form::Two => 2,
        }
    }

    // Where the channels begin in its body, behind the fields that stand before them.
    pub(crate) fn channels_at(self) -> usize
        ensures { result ≡ channels_at self }
    {
        match self {
            Form::One => 0,
            Form::Two => 2,
        }
    }

    pub(crate) fn body_size(self) -> usize
        ensures { result ≡ body_size self }
    {
        self.channels_at() + CORE
    }

    pub(crate) fn sheet_size(self) -> usize
        ensures { result ≡ sheet_size self }
    {
        self.body_size() + 8
    }
}
