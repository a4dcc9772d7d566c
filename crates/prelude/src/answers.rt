// An answer in the paper's numbers.
ghost use Rattle.prelude.specs.Answers.{Answer, answer_of};
ghost use Rattle.prelude.specs.Numbers.{Shown};

// 0 with the last value of a result, 1000 for an absent or unknown code, or a refusal's number with what comes with it. C sees it as it is
// (include/glass.h).
#[repr(C)]
#[derive(Clone, Copy)]
pub struct Numbered {
    pub number: u32,
    pub value: u32,
}

// The same of an operation whose values are sizes of any memory, such as the bytes of a text.
#[repr(C)]
#[derive(Clone, Copy)]
pub struct NumberedSize {
    pub number: u32,
    pub value: usize,
}

// The same of a lookup or a panel: where a schedule is found, with its cell; 0 where there is none.
#[repr(C)]
#[derive(Clone, Copy)]
pub struct NumberedFound {
    pub number: u32,
    pub value: u32,
    pub cell: u32,
}

// An error that is a refusal of the paper, or a code that is not there.
pub trait Refusal {
    ghost refusal_of: { Self → Answer };

    fn refusal(self) -> Numbered
        ensures { Shown (refusal_of self) result };
}

// The value of a call, or its error, in numbers.
pub fn in_numbers<E: Refusal>(r: Result<u32, E>) -> Numbered
    ensures { Shown (answer_of E.refusal_of r) result }
{
    match r {
        Ok(value) => Numbered { number: 0, value },
        Err(e) => e.refusal(),
    }
}
