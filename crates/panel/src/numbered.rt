// The number, the value and the cell of each answer of a panel.
ghost use Rattle.panel.specs.Fired.{panel_error_of, fired_of};
ghost use Rattle.prelude.specs.Numbers.{FoundShown};

use crate::PanelError;
use lookup::Found;
use prelude::answers::{Numbered, NumberedFound, Refusal};

impl Refusal for PanelError {
    ghost refusal_of = { panel_error_of };

    fn refusal(self) -> Numbered {
        let (number, value) = match self {
            PanelError::NoCodes => (35, 0),
            PanelError::TooManyCodes => (36, 0),
            PanelError::BadHolds => (74, 0),
            PanelError::Unknown(i) => (1000, i),
            PanelError::Refused(i, e) => (e.refusal().number, i),
            PanelError::NotInUse(i) => (75, i),
        };
        Numbered { number, value }
    }
}

// A schedule with its cell. An error has none.
pub fn in_numbers(r: Result<Found, PanelError>) -> NumberedFound
    ensures { FoundShown (fired_of r) result }
{
    match r {
        Ok(found) => NumberedFound {
            number: 0,
            value: found.schedule,
            cell: found.cell,
        },
        Err(e) => {
            let refusal = e.refusal();
            NumberedFound {
                number: refusal.number,
                value: refusal.value,
                cell: 0,
            }
        }
    }
}
