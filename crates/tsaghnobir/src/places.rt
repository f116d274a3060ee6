// What an answer leaves at the single number that is lent for it.
ghost use Rattle.std.specs.Prelude.{◌≡◌};
ghost use Rattle.refusal.specs.Answers.{number_in};
ghost use Rattle.tsaghnobir.specs.Answered.{left_by};

use refusal::Refusal;

// The number of an answer; its value goes to the place where nothing is refused.
pub(crate) fn put<T: Copy>(answer: Result<T, Refusal>, place: &mut T) -> u32
    ensures answer { result ≡ number_in answer }
    ensures count { place.new ≡ left_by answer place.old }
{
    match answer {
        Ok(value) => {
            *place = value;
            0
        }
        Err(refusal) => refusal.into(),
    }
}
