//! The characters that stand for sides and forms, read and written.

ghost use Rattle.std.specs.Prelude.{◌≡◌};
ghost use Rattle.records.specs.Letters.{side_letter, form_letter, NamesSide, NamesForm};

use crate::{Fixpoint, Form, UnknownLetter};

impl TryFrom<char> for Fixpoint {
    type Error = UnknownLetter;

    ghost try_from_gives = { NamesSide };

    fn try_from(letter: char) -> Result<Fixpoint, UnknownLetter> {
        match letter {
            'G' => Ok(Fixpoint::Greatest),
            'L' => Ok(Fixpoint::Least),
            _ => Err(UnknownLetter(letter)),
        }
    }
}

impl From<Fixpoint> for char {
    ghost from_gives = { λ side letter. letter ≡ side_letter side };

    fn from(side: Fixpoint) -> char {
        match side {
            Fixpoint::Greatest => 'G',
            Fixpoint::Least => 'L',
        }
    }
}

impl TryFrom<char> for Form {
    type Error = UnknownLetter;

    ghost try_from_gives = { NamesForm };

    fn try_from(letter: char) -> Result<Form, UnknownLetter> {
        match letter {
            't' => Ok(Form::True),
            'f' => Ok(Form::False),
            'A' => Ok(Form::Atom),
            '|' => Ok(Form::Or),
            '&' => Ok(Form::And),
            '<' => Ok(Form::Diamond),
            '[' => Ok(Form::Box),
            _ => Err(UnknownLetter(letter)),
        }
    }
}

impl From<Form> for char {
    ghost from_gives = { λ form letter. letter ≡ form_letter form };

    fn from(form: Form) -> char {
        match form {
            Form::True => 't',
            Form::False => 'f',
            Form::Atom => 'A',
            Form::Or => '|',
            Form::And => '&',
            Form::Diamond => '<',
            Form::Box => '[',
        }
    }
}
