// The answers of reading and writing a text, for C and for a refusal's line.
ghost use Rattle.prelude.specs.Answers.{Answer, answer_of};
ghost use Rattle.prelude.specs.Numbers.{SizeShown};

use prelude::answers::NumberedSize;

// An error that is a refusal of the paper, and comes with a size.
pub trait SizeRefusal {
    ghost refusal_of: { Self → Answer };

    fn refusal(self) -> NumberedSize
        ensures { SizeShown (refusal_of self) result };
}

// The size that a call gives, or its error, in numbers.
pub fn size_in_numbers<E: SizeRefusal>(r: Result<usize, E>) -> NumberedSize
    ensures { SizeShown (answer_of E.refusal_of r) result }
{
    match r {
        Ok(value) => NumberedSize { number: 0, value },
        Err(e) => e.refusal(),
    }
}
