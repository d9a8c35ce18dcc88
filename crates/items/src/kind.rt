ghost use Rattle.std.specs.Prelude.{◌≡◌, true, false};
ghost use Rattle.items.specs.Kinds.{form_alone, group_of, of_form, fits_length, NamesKind, NamesForm};

// What a record is about.
#[derive(Clone, Copy)]
pub enum Kind {
    Head,
    Fact,
    Act,
    Rule,
    Change,
    State,
    Move,
    Mark,
    Allowance,
    Routine,
}

// A number that names no kind.
#[derive(Clone, Copy, PartialEq, Eq)]
pub struct UnknownKind;

// What the states of a lock are: the valuations of its facts, with rules and changes, or listed ones, with moves.
#[derive(Clone, Copy, PartialEq, Eq)]
pub enum Form {
    Facts,
    Listed,
}

// A number that names no form.
#[derive(Clone, Copy, PartialEq, Eq)]
pub struct UnknownForm;

// The longest routine text.
const MOST_TEXT: usize = 8192;

impl TryFrom<u16> for Kind {
    type Error = UnknownKind;

    ghost try_from_gives = { NamesKind };

    fn try_from(number: u16) -> Result<Kind, UnknownKind> {
        match number {
            0x0001 => Ok(Kind::Head),
            0x0002 => Ok(Kind::Fact),
            0x0003 => Ok(Kind::Act),
            0x0010 => Ok(Kind::Rule),
            0x0011 => Ok(Kind::Change),
            0x0020 => Ok(Kind::State),
            0x0021 => Ok(Kind::Move),
            0x0031 => Ok(Kind::Mark),
            0x0032 => Ok(Kind::Allowance),
            0x0040 => Ok(Kind::Routine),
            _ => Err(UnknownKind),
        }
    }
}

impl TryFrom<u8> for Form {
    type Error = UnknownForm;

    ghost try_from_gives = { NamesForm };

    fn try_from(number: u8) -> Result<Form, UnknownForm> {
        match number {
            1 => Ok(Form::Facts),
            2 => Ok(Form::Listed),
            _ => Err(UnknownForm),
        }
    }
}

impl Kind {
    // The place of its group among the groups. It is a number and no enum: groups are only compared, and `place` takes any number.
    pub fn group(self) -> u8
        ensures { result ≡ group_of self }
    {
        match self {
            Kind::Head => 0,
            Kind::Fact => 1,
            Kind::Act => 2,
            Kind::Rule | Kind::Change | Kind::State | Kind::Move => 3,
            Kind::Mark | Kind::Allowance => 4,
            Kind::Routine => 5,
        }
    }

    // The form of lock that alone may have it, if one may not.
    pub fn form(self) -> Option<Form>
        ensures { result ≡ form_alone self }
    {
        match self {
            Kind::Rule | Kind::Change => Some(Form::Facts),
            Kind::State | Kind::Move => Some(Form::Listed),
            _ => None,
        }
    }

    // Whether a lock of the form with this number may have it. Any number may be asked, also one that is no form.
    pub fn of_form(self, form: u8) -> bool
        ensures { result ≡ of_form self form }
    {
        match self.form() {
            Some(own) => Form::try_from(form) == Ok(own),
            None => true,
        }
    }

    // Whether its body may have this length.
    pub fn fits_length(self, n: usize) -> bool
        ensures { result ≡ fits_length self n }
    {
        match self {
            Kind::Head => n == 7,
            Kind::Fact | Kind::Act => true,
            Kind::Rule => n == 5,
            Kind::Change => n == 10,
            Kind::State | Kind::Mark => n == 2,
            Kind::Move => n == 6,
            Kind::Allowance => n == 1,
            Kind::Routine => n <= MOST_TEXT,
        }
    }
}
