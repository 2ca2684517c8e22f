// Lists of calls carried out.
ghost use Rattle.std.specs.Prelude.{◌≡◌, []};
ghost use Rattle.records.specs.Refusals.{seen};
ghost use Rattle.plainbook.specs.Promise.{Promise};
ghost use Rattle.plainbook.specs.Steps.{step, listing};
ghost use Rattle.survey.specs.Books.{plain_book, is_done};
ghost use Rattle.grading.specs.Grades.{is_graded};
ghost use Rattle.listing.specs.Answered.{is_listed};
ghost use Rattle.calls.specs.Carrying.{plain_call, plain_answer, outcome_seen, reply_seen, replied, fault_seen, Carried, CarriedOut};

use crate::call::{Answer, Call, Reply};
use grading::judge::grade;
use listing::list::misses;
use quantities::quantity::Quantity;
use records::refusal::{Fault, Refusal};
use standards::standard::Standard;
use std::alloc::{AllocError, Global};
use survey::book::Book;

// The reply of a call that has no words and answers "done".
fn done(heap: Global, res: Result<(), Refusal>) -> Reply
    ensures { reply_seen result ≡ record { answer = seen is_done res; words = [] } }
{
    Reply {
        answer: res.map(|()| Answer::Done),
        words: Vec::new(heap),
    }
}

// The reply of a call that allocates, if it was not refused for want of memory.
fn reply(words: Vec<u32>, res: Result<Answer, Fault>) -> Result<Reply, AllocError>
    ensures { replied result ≡ fault_seen plain_answer words.items res }
{
    let answer = match res {
        Ok(answer) => Ok(answer),
        Err(Fault::Refused(refusal)) => Err(refusal),
        Err(Fault::Memory) => return Err(AllocError),
    };
    Ok(Reply { answer, words })
}

fn listed<Q: Quantity, S: Standard>(book: &Book<Q, S>, class: u8, mut words: Vec<u32>) -> Reply
    ensures { reply_seen result ≡ outcome_seen (step Q.Quantity.meaning S.Standard.meaning (listing class words.items) (plain_book book.now)) }
{
    let answer = misses(book, class, &mut words).map(|count| Answer::Listed(count));
    Reply { answer, words }
}

fn carry_one<Q: Quantity + Drop, S: Standard + Drop>(
    heap: Global,
    book: &mut Book<Q, S>,
    call: Call<Q, S>,
) -> Result<Reply, AllocError>
    ensures { Carried (step Q.Quantity.meaning S.Standard.meaning (plain_call call) (plain_book book.old)) (plain_book book.old) (plain_book book.new) result }
{
    match call {
        Call::Open(quantity, standard) => {
            *book = Book::open(heap, quantity, standard);
            Ok(done(heap, Ok(())))
        }
        Call::Enter(words) => {
            let res = book.enter(&words);
            reply(words, res.map(|()| Answer::Done))
        }
        Call::Join(words) => {
            let res = book.join(heap, &words);
            reply(words, res.map(|()| Answer::Done))
        }
        Call::StrikeLeg(number) => Ok(done(heap, book.strike_leg(number))),
        Call::StrikeCircuit(number) => Ok(done(heap, book.strike_circuit(number))),
        Call::Grade => {
            let res = grade(heap, book);
            reply(Vec::new(heap), res.map(|grade| Answer::Graded(grade)))
        }
        Call::Misses(class, words) => Ok(listed(book, class, words)),
    }
}

// Carries out the calls in turn. Where memory runs out it stops, and the replies are those of the calls before.
pub fn carry_out<Q: Quantity + Drop, S: Standard + Drop>(
    heap: Global,
    book: &mut Book<Q, S>,
    calls: Vec<Call<Q, S>>,
) -> Vec<Reply>
    ensures calls { CarriedOut Q.Quantity.meaning S.Standard.meaning calls.items (plain_book book.old) (plain_book book.new) result.items }
    ensures promise { Promise Q.Quantity.meaning S.Standard.meaning }
{
    let Ok(mut replies) = Vec::with_capacity(heap, calls.len()) else {
        return Vec::new(heap);
    };
    for call in calls {
        let Ok(reply) = carry_one(heap, book, call) else {
            return replies;
        };
        replies.push_reserved(reply);
    }
    replies
}
