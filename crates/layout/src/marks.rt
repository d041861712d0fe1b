// Marks: their letters, and what follows them.
// Letters that are no mark have None, where TryFrom would add an error type of one value.
ghost use Rattle.std.specs.Prelude.{◌≡◌};
ghost use Rattle.layout.specs.Marks.{code, mark_of, form};

use crate::{Form, Mark};

// A mark's letters, the first in the high byte.
pub fn code_of(mark: Mark) -> u16
    ensures { result ≡ code mark }
{
    match mark {
        Mark::DT => 0x4454,
        Mark::DS => 0x4453,
        Mark::DB => 0x4442,
        Mark::IT => 0x4954,
        Mark::DC => 0x4443,
        Mark::AC => 0x4143,
        Mark::TE => 0x5445,
        Mark::SU => 0x5355,
        Mark::PR => 0x5052,
        Mark::CO => 0x434f,
        Mark::EN => 0x454e,
        Mark::RE => 0x5245,
        Mark::RQ => 0x5251,
        Mark::RL => 0x524c,
        Mark::TR => 0x5452,
        Mark::RS => 0x5253,
        Mark::FR => 0x4652,
        Mark::ET => 0x4554,
        Mark::LV => 0x4c56,
        Mark::TG => 0x5447,
        Mark::EI => 0x4549,
        Mark::XI => 0x5849,
        Mark::TI => 0x5449,
        Mark::SL => 0x534c,
    }
}

// The mark with these letters, if there is one.
#[tactic(auto, unfolding(crate::specs::Marks::among))]
pub fn mark_of(letters: u16) -> Option<Mark>
    ensures { result ≡ mark_of letters }
{
    match letters {
        0x4454 => Some(Mark::DT),
        0x4453 => Some(Mark::DS),
        0x4442 => Some(Mark::DB),
        0x4954 => Some(Mark::IT),
        0x4443 => Some(Mark::DC),
        0x4143 => Some(Mark::AC),
        0x5445 => Some(Mark::TE),
        0x5355 => Some(Mark::SU),
        0x5052 => Some(Mark::PR),
        0x434f => Some(Mark::CO),
        0x454e => Some(Mark::EN),
        0x5245 => Some(Mark::RE),
        0x5251 => Some(Mark::RQ),
        0x524c => Some(Mark::RL),
        0x5452 => Some(Mark::TR),
        0x5253 => Some(Mark::RS),
        0x4652 => Some(Mark::FR),
        0x4554 => Some(Mark::ET),
        0x4c56 => Some(Mark::LV),
        0x5447 => Some(Mark::TG),
        0x4549 => Some(Mark::EI),
        0x5849 => Some(Mark::XI),
        0x5449 => Some(Mark::TI),
        0x534c => Some(Mark::SL),
        _ => None,
    }
}

pub fn form_of(mark: Mark) -> Form
    ensures { result ≡ form mark }
{
    match mark {
        Mark::DT => Form::DeclaredPriority,
        Mark::DS => Form::Preset,
        Mark::DB | Mark::IT | Mark::EN | Mark::TI | Mark::SL => Form::Bare,
        Mark::DC => Form::TimeOfDay,
        Mark::AC => Form::Activation,
        Mark::TE | Mark::SU | Mark::PR | Mark::TG | Mark::EI | Mark::XI => Form::Number,
        Mark::CO => Form::Continuation,
        Mark::RE => Form::Resumption,
        Mark::RQ | Mark::RL | Mark::RS | Mark::FR | Mark::ET | Mark::LV => Form::Numbers,
        Mark::TR => Form::OneNumber,
    }
}
