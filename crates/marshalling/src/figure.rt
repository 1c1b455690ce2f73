// The answer of an operation that has one figure, handed over.
ghost use Rattle.marshalling.specs.Handed.{OneHanded};

use base::Refusal;

// Hands one figure over: 0 and the figure in its place, or the refusal's number and the place as it was lent.
pub fn hand_over_figure<T: Copy>(answer: Result<T, Refusal>, place: &mut T) -> u32
    ensures { OneHanded answer result place.old place.new }
{
    match answer {
        Ok(figure) => {
            *place = figure;
            0
        }
        Err(refusal) => refusal.number(),
    }
}
