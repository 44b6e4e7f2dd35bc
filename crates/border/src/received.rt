// What C receives, laid out as include/lamphudet.h declares it.
// Number 0 and how many octets were written, where a run goes on, or how many elements a file or entries a list has; or the
// refusal's number and its place. With a wrong check digit, 9, stands the digit that was expected, and 255 else.
#[repr(C)]
#[derive(Clone, Copy)]
pub struct AnswerInC {
    pub number: u32,
    pub expected: u32,
    pub value: u64,
}

// A part of what was lent: empty where both are 0.
#[repr(C)]
#[derive(Clone, Copy)]
pub struct StretchInC {
    pub start: u64,
    pub length: u64,
}

// A detail of group 11. The value is 0, or the refusal's place; the stretch is empty where there is none.
#[repr(C)]
#[derive(Clone, Copy)]
pub struct DetailInC {
    pub answer: AnswerInC,
    pub stretch: StretchInC,
}

// A name: 0 where there is none, 1 in the file, 2 in the text; and where in that.
#[repr(C)]
#[derive(Clone, Copy)]
pub struct NameInC {
    pub from: u32,
    pub stretch: StretchInC,
}
