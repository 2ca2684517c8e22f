// Calls as values, and what each is answered. The calls are seven and no more, so an enum and a match stand where closures would say
// less.
use grading::grade::Grade;
use records::refusal::Refusal;

#[derive(Drop)]
pub enum Call<Q, S> {
    Open(Q, S),
    Enter(Vec<u32>),
    Join(Vec<u32>),
    StrikeLeg(u32),
    StrikeCircuit(u32),
    Grade,
    // the class, and the words to be written
    Misses(u8, Vec<u32>),
}

#[derive(Clone, Copy)]
pub enum Answer {
    Done,
    Graded(Grade),
    // how many misses were written
    Listed(usize),
}

// A call's answer or refusal, and the words that came with it as the call left them.
#[derive(Drop)]
pub struct Reply {
    pub answer: Result<Answer, Refusal>,
    pub words: Vec<u32>,
}
