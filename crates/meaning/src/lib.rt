// The types of code and definitions alike, the definitions of the machine, the manager and schedules, and what is proved of them over stores.
// What the types mean stands in specs/; nothing here runs.
#![tactic(auto)]

// A register that holds a block's number.
#[derive(Clone, Copy)]
pub enum Reg {
    P,
    Q,
}

// How a thread takes a number's lock or owns a block: as one of the readers, or as the one writer.
#[derive(Clone, Copy)]
pub enum Kind {
    Reader,
    Writer,
}

// Of the lock of a number and of the owner of a block: a set of readers is below this, and a writer's word is this times one more than its thread.
pub const SETS: u32 = 65536;

// What an operation finishes with: 0; register c; or, by register h, 0 where it is free and else 1.
#[derive(Clone, Copy)]
pub enum Answer {
    Zero,
    C,
    Moved,
}

// What a line does. A number is the line to go to. The first is what stands at no line.
#[derive(Clone, Copy)]
pub enum Act {
    Nothing,
    TakeH,
    ReleaseH,
    FinishH(Answer),
    TakeN(Kind),
    ReleaseN,
    FinishN(Kind, Answer),
    OwnHeaders,
    LetGoHeaders,
    Own(Kind, Reg),
    LetGo(Kind, Reg),
    GoIfMapped(u32),
    GoIfUnmapped(u32),
    EmptyIfUnmapped(u32),
    GoIfFree(u32),
    PickFree,
    Choose,
    ReadHeader,
    WriteHeaderN,
    WriteHeaderH,
    FreeHeader,
    EmptyContent,
    ReadContent,
    WriteContent(Reg),
    MapTo(Reg),
    Unmap,
}

// A thread's record: operation, line and the five registers, in the area's order.
#[derive(Clone, Copy, PartialEq, Eq, Default)]
pub struct Thread {
    pub op: u32,
    pub line: u32,
    pub n: u32,
    pub c: u32,
    pub p: u32,
    pub q: u32,
    pub h: u32,
}

// What becomes of the locks or of the owners of blocks: they are left, or an amount is added to the word at an index, or taken off it.
#[derive(Clone, Copy)]
pub enum Pass {
    Leave,
    Plus(u32, u32),
    Minus(u32, u32),
}

// What a step does to the store beside its thread's record: the value that a word becomes, if it does; in each table the index and the value of the
// one entry that is put, if one is.
#[derive(Clone, Copy)]
pub struct Effect {
    pub lock: Option<u32>,
    pub owner: Option<u32>,
    pub map: Option<(u32, u32)>,
    pub locks: Pass,
    pub header: Option<(u32, u32)>,
    pub content: Option<(u32, u32)>,
    pub wear: Option<(u32, u32)>,
    pub own: Pass,
}

// What a step would do: nothing, since a lock doesn't let it in or a need isn't met; go on; or end its operation.
#[derive(Clone, Copy)]
pub enum Verdict {
    Blocked,
    Fault,
    Go(Thread, Effect),
    Done(u32, Effect),
}
